// Pairings: which frames to mesh, proposed from their masks alone.
#![tactic(auto)]

mod halves;
mod least;
mod pairs;
mod proposal;
mod worked;

pub use halves::SplitMesher;
pub use least::{Greedy, greedy_takes_the_least};
pub use pairs::{MOST_MASKS, Pair, Pairing, at_most_half};
pub use worked::worked_examples;
