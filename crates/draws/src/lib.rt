// Pseudo-random draws: Marsaglia's xorshift32.
#![tactic(auto)]

ghost use Rattle.std.specs.Prelude.{◌≡◌, ◌<◌, [], ◌∷◌};
ghost use Rattle.draws.specs.Draws.{next, begun, drawn};

mod order;

pub use order::shuffle;

// The state of the draws. From a seed on it is never zero, since xorshift32 would stay at zero for ever.
#[derive(Clone, Copy, PartialEq, Eq, Debug)]
pub struct Draws {
    state: u32,
}

impl Draws {
    // The draws that a seed begins. A seed of 0 is read as 1.
    pub fn new(seed: u32) -> Draws
        ensures state { result.state ≡ begun seed }
        ensures nonzero { 0 < result.state }
    {
        Draws {
            state: if seed == 0 { 1 } else { seed },
        }
    }

    // One draw: the new state, which is the number drawn. A state that is not zero stays so.
    #[tactic(auto, using(crate::proofs::Nonzero::next_nonzero), unfolding(crate::specs::Draws::next))]
    pub fn draw(&mut self) -> u32
        ensures state { self.new.state ≡ next self.old.state }
        ensures drawn { result ≡ next self.old.state }
        ensures nonzero { 0 < self.old.state → 0 < result }
    {
        let mut x = self.state;
        x ^= x << 13;
        x ^= x >> 17;
        x ^= x << 5;
        self.state = x;
        x
    }
}

// The first four numbers that seed 1 draws, computed.
#[tactic(auto, unfolding(crate::specs::Draws::next))]
pub fn worked_draws()
    ensures { drawn 4 (begun 1) ≡ 270369 ∷ 67634689 ∷ 2647435461 ∷ 307599695 ∷ [] }
{}
