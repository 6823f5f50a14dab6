// A proposal in the making: the pairs found so far.
ghost use Rattle.std.specs.Prelude.{◌≡◌, ◌+◌, ◌/◌, ◌<◌, ◌≤◌, not, [], length, set, ◌≢◌, true, false, if◌then◌else◌, Ok, Err};
ghost use Rattle.refusal.specs.declared.Refusal.TheVariants.{Row};
ghost use Rattle.joining.specs.Kinds.{masks_join};
ghost use Rattle.pairing.specs.Pairs.{paired, takes, offered, accepted, written_over, with_pair, Fair};
ghost use Rattle.pairing.specs.Search.{least_from};

use crate::pairs::{MOST_MASKS, Pair};
use arrayvec::ArrayVec;
use joining::{Word, join_rows};
use refusal::Refusal;
use std::marker::Model;

// 64 masks make at most this many pairs.
const MOST_PAIRS: usize = 32;

// The masks that are to be paired, the pairs found so far, and marks that say of each place whether it stands in one.
//
// Contracts see the masks and the pairs. There are never more than `MOST_MASKS` masks, and the pairs are always lawful.
// The functions ask of each place that it is below the number of masks: a type of places would have to hold the masks.
#[derive(Drop)]
pub(crate) struct Proposal<'a> {
    masks: &'a [u64],
    pairs: ArrayVec<Pair, MOST_PAIRS>,
    marks: [bool; MOST_MASKS],
}

impl<'a> Model for Proposal<'a> {
    ghost use Rattle.pairing.specs.Found.{Found, Sound};

    ghost Value = { Found };

    ghost view = { λ p. record { masks = p.masks.now; pairs = p.pairs.items } };

    ghost invariant = { λ p. Sound p.masks.now p.pairs.items p.marks };
}

impl<'a> Proposal<'a> {
    // No pair is found yet. More than `MOST_MASKS` masks, or room for fewer pairs than half the masks, are refused.
    pub(crate) fn new(masks: &'a [u64], room: usize) -> Result<Proposal<'a>, Refusal>
        ensures { result ≡ (if accepted (length masks.now) room then Ok (record { masks = masks.now; pairs = [] }) else Err Row) }
    {
        if is_accepted(masks, room) {
            Ok(Proposal {
                masks,
                pairs: ArrayVec::new(),
                marks: [false; MOST_MASKS],
            })
        } else {
            Err(Refusal::Row)
        }
    }

    // One pair more, and both its places marked.
    #[tactic(auto, using(crate::proofs::Marks::room_more))]
    pub(crate) fn add(&mut self, left: usize, right: usize)
        requires fair { Fair self.old.masks (record { left = left; right = right }) }
        requires free { (paired left self.old.pairs ≡ false) × (paired right self.old.pairs ≡ false) }
        ensures { self.new ≡ record self.old { pairs = with_pair self.old.pairs left right } }
    {
        self.pairs.push(pair_of(left, right));
        mark(&mut self.marks, left, right);
    }

    // Whether a place is unpaired.
    pub(crate) fn is_free(&self, place: usize) -> bool
        requires { place < length self.now.masks }
        ensures { result ≡ not (paired place self.now.pairs) }
    {
        !self.marks[place]
    }

    // Whether a place may take another one: that is unpaired, and their masks join.
    fn may_take(&self, place: usize, other: usize) -> bool
        requires within { (place < length self.now.masks) × (other < length self.now.masks) }
        ensures { result ≡ takes self.now.masks self.now.pairs place other }
    {
        self.is_free(other) && masks_join(self.masks[place], self.masks[other])
    }

    // The least unpaired place above this one whose mask joins.
    pub(crate) fn least_partner(&self, place: usize) -> Option<usize>
        requires { place < length self.now.masks }
        ensures { result ≡ least_from self.now.masks self.now.pairs place (place + 1) }
    {
        let end = self.masks.len();
        (place + 1..end).find(|&other| self.may_take(place, other))
    }

    // The two places are a pair if both are unpaired and their masks join.
    pub(crate) fn offer(&mut self, left: usize, right: usize)
        requires within { (left < length self.old.masks) × (right < length self.old.masks) }
        requires differ { left ≢ right }
        ensures { self.new ≡ record self.old { pairs = offered self.old.masks self.old.pairs left right } }
    {
        if self.is_free(left) && self.may_take(left, right) {
            self.add(left, right);
        }
    }

    // Writes the pairs from the buffer's start, and answers how many there are.
    #[tactic(auto, using(crate::proofs::Marks::pairs_fit))]
    pub(crate) fn write_to(&self, buffer: &mut [Pair]) -> usize
        requires { length self.now.masks / 2 ≤ length buffer.old }
        ensures count { result ≡ length self.now.pairs }
        ensures written { buffer.new ≡ written_over self.now.pairs buffer.old }
    {
        let count = self.pairs.len();
        buffer[..count].copy_from_slice(&self.pairs);
        count
    }
}

// Whether there are not too many masks, and room for half as many pairs. (This function and the next two stand by
// themselves, so that a wrong test, pair or mark is refused at its own line.)
fn is_accepted(masks: &[u64], room: usize) -> bool
    ensures { result ≡ accepted (length masks.now) room }
{
    masks.len() <= MOST_MASKS && masks.len() / 2 <= room
}

// The pair of two places.
fn pair_of(left: usize, right: usize) -> Pair
    requires { (left < 64) × (right < 64) }
    ensures { result ≡ record { left = left; right = right } }
{
    Pair {
        left: left as u8,
        right: right as u8,
    }
}

// Marks two places.
fn mark(marks: &mut [bool; MOST_MASKS], left: usize, right: usize)
    requires { (left < 64) × (right < 64) }
    ensures { marks.new ≡ set (set marks.old left true) right true }
{
    marks[left] = true;
    marks[right] = true;
}

// Whether two masks join, by the joining of rows: each is a row of one word.
fn masks_join(a: u64, b: u64) -> bool
    ensures { result ≡ masks_join a b }
{
    let mut first = [Word { bits: a }];
    join_rows(&mut first, &[Word { bits: b }]).is_ok()
}
