// Playback: a list of command bytes is played on a pool, and every command answers with a line.
#![tactic(auto)]

mod command;
mod line;
mod list;
mod run;

pub use command::{Command, Decoded, decode};
pub use line::{Fault, Layer, Line, Outcome};
pub use list::Commands;
pub use run::play;
