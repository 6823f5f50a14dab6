// The tables of a pool, and the arithmetic of classes, slots and masks.
//
// Every value of a table is a table: a read past its end finds nothing, so that no caller has a bound to remember.
#![tactic(auto)]

pub mod geometry;
pub mod labels;
pub mod masks;
pub mod rows;
pub mod spans;
