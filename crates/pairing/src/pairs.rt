// What a pairing is.
ghost use Rattle.std.specs.Prelude.{◌≡◌, ℕ, ◌/◌, ◌≤◌, List, length, if◌then◌else◌, Ok, Err};
ghost use Rattle.refusal.specs.declared.Refusal.TheVariants.{Row};
ghost use Rattle.pairing.specs.declared.pairs.Pair.{Pair};
ghost use Rattle.pairing.specs.Pairs.{Lawful, accepted, written_over};

use refusal::Refusal;

// A pairing takes at most this many masks.
pub const MOST_MASKS: usize = 64;

// Two places of a list of masks.
#[derive(Clone, Copy, PartialEq, Eq, Debug, Default)]
pub struct Pair {
    pub left: u8,
    pub right: u8,
}

// A pairing proposes pairs of places in a list of masks.
//
// `pairs` and `next` are its meaning: its condition, which is its value, and the masks alone fix the pairs that it
// proposes and its next condition. Its law: both places of a pair lie below the number of masks and differ, their
// masks join, and no place stands in two pairs. So there are at most half as many pairs as masks.
pub trait Pairing: Sized {
    ghost pairs: { Self → List ℕ → List Pair };

    ghost next: { Self → List ℕ → Self };

    // Writes the pairs from the buffer's start, leaves its remainder as it was, and answers how many there are. More
    // than `MOST_MASKS` masks, or a buffer for fewer pairs than half the masks, are refused with ROW, and neither the
    // buffer nor the condition changes.
    //
    // The buffer is the caller's, with a number beside it, since a pairing takes no heap memory, and what stands in the
    // buffer behind the pairs is the caller's, too.
    fn propose(&mut self, masks: &[u64], buffer: &mut [Pair]) -> Result<usize, Refusal>
        ensures answer { result ≡ (if accepted (length masks.now) (length buffer.old) then Ok (length (pairs self.old masks.now)) else Err Row) }
        ensures written { buffer.new ≡ (if accepted (length masks.now) (length buffer.old) then written_over (pairs self.old masks.now) buffer.old else buffer.old) }
        ensures after { self.new ≡ (if accepted (length masks.now) (length buffer.old) then next self.old masks.now else self.old) };

    ghost lawful: { (s : Self) (ms : List ℕ) → Lawful ms (pairs s ms) };
}

// A pairing proposes at most half as many pairs as there are masks, since no place stands in two.
#[tactic(auto, using(crate::specs::Law::pairs_few))]
pub fn at_most_half<P: Pairing>()
    ensures { (s : P) (ms : List ℕ) → length (P.pairs s ms) ≤ length ms / 2 }
{}
