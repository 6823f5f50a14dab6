// Elements that may join or clash, and the joining of two rows of them.
#![tactic(auto)]

mod element;
mod kinds;
mod rows;

pub use element::Join;
pub use kinds::{Cell, Word};
pub use rows::{join_rows, rows_keep_the_laws};
