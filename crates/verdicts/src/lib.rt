// Verdicts on two pools: whether their frames hold the same bytes, and whether their labels read alike.
#![tactic(auto)]

pub mod addresses;
pub mod frames;
pub mod readings;
