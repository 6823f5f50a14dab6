// The pool: patches under labels, in slots of frames of a bank, at addresses that never change.
#![tactic(auto)]

mod calls;
mod frames;
mod held;
mod leaves;
mod meshes;

use draws::Draws;
use tables::labels::Labels;
use tables::rows::Rows;
use tables::spans::Spans;

// A pool over any bank and any pairing. Every value of it is a pool; what it means is `state_of` it. An impl of Model
// with that view was tried, and is refused: tables of a state are functions, and a model's value has to be data.
#[derive(Drop)]
pub struct Pool<B, P> {
    bank: B,
    pairing: P,
    draws: Draws,
    labels: Labels,
    spans: Spans,
    rows: Rows,
}
