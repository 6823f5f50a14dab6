// SplitMesher: two halves of the shuffled places, offered to one another.
ghost use Rattle.std.specs.Prelude.{◌≡◌, ◌+◌, ◌/◌, ◌%◌, ◌^◌, ◌<◌, ◌≤◌, length};
ghost use Rattle.draws.specs.Draws.{begun};
ghost use Rattle.pairing.specs.Halves.{pass, shuffled_places, split_pairs, split_next, Order};
ghost use Rattle.pairing.specs.Split.{split_lawful};

use crate::pairs::{MOST_MASKS, Pair, Pairing};
use crate::proposal::Proposal;
use arrayvec::ArrayVec;
use draws::{Draws, shuffle};
use refusal::Refusal;
use std::array;

// The pairing that shuffles the places, splits them into a left and a right half, and tests each of the left against
// `tries` of the right. The state of its draws is kept from call to call.
#[derive(Clone, Copy, PartialEq, Eq, Debug)]
pub struct SplitMesher {
    draws: Draws,
    tries: u8,
}

impl SplitMesher {
    // The pairing whose draws the seed begins.
    pub fn new(seed: u32, tries: u8) -> SplitMesher
        ensures draws { result.draws.state ≡ begun seed }
        ensures tries { result.tries ≡ tries }
    {
        SplitMesher {
            draws: Draws::new(seed),
            tries,
        }
    }
}

impl Pairing for SplitMesher {
    ghost pairs = { split_pairs };

    ghost next = { split_next };

    ghost lawful = { split_lawful };

    fn propose(&mut self, masks: &[u64], buffer: &mut [Pair]) -> Result<usize, Refusal> {
        let mut found = Proposal::new(masks, buffer.len())?;
        let order = shuffled_places(masks.len(), &mut self.draws);
        for shift in 0..self.tries {
            offer_pass(&mut found, &order, shift);
        }
        Ok(found.write_to(buffer))
    }
}

// One pass: each entry of the left half is offered the entry of the right half that stands `shift` places on, where the
// right half goes round.
fn offer_pass(found: &mut Proposal, order: &[u8], shift: u8)
    requires { Order (length found.old.masks) order.now }
    ensures { found.new ≡ record found.old { pairs = pass found.old.masks order.now (length found.old.masks / 2) found.old.pairs shift } }
{
    let (left, right) = order.split_at(order.len() / 2);
    for (j, &place) in left.iter().enumerate() {
        let other = right[place_on(j, shift, left.len())];
        found.offer(usize::from(place), usize::from(other));
    }
}

// The place that stands `shift` places on from the place j, in a half that goes round. (By itself, so that a wrong one is
// refused at its own line.)
fn place_on(j: usize, shift: u8, half: usize) -> usize
    requires within { j < half }
    requires few { half < 2 ^ 63 }
    ensures place { result ≡ (j + shift) % half }
    ensures below { result < half }
{
    (j + usize::from(shift)) % half
}

// The first n places in the order that the draws shuffle them into.
fn shuffled_places(n: usize, draws: &mut Draws) -> ArrayVec<u8, MOST_MASKS>
    requires { n ≤ 64 }
    ensures order { result.items ≡ (shuffled_places n draws.old.state).0 }
    ensures state { draws.new.state ≡ (shuffled_places n draws.old.state).1 }
{
    let mut places = ArrayVec::from(array::from_fn(|i| i as u8));
    places.truncate(n);
    shuffle(&mut places, draws);
    places
}
