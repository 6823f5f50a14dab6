// The banks: flat and lane over a caller's memory, and the quota over any other bank.
#![tactic(auto)]

mod count;
mod flat;
mod frames;
mod lane;
mod quota;
mod spares;
mod store;

pub use flat::{FlatBank, flat_is_end_to_end};
pub use frames::FrameBank;
pub use lane::{LaneBank, lanes_are_end_to_end};
pub use quota::{Quota, quota_sound};
