// Greedy: each place in turn takes the least partner.
ghost use Rattle.std.specs.Prelude.{◌≡◌, ◌<◌, length};
ghost use Rattle.pairing.specs.Search.{turn, greedy_pairs, TakesTheLeast};
ghost use Rattle.pairing.specs.Turns.{greedy_lawful};

use crate::pairs::{Pair, Pairing};
use crate::proposal::Proposal;
use refusal::Refusal;

// The pairing that takes the places from 0 upward and gives each that is unpaired the least unpaired place above it
// whose mask joins. It keeps nothing between calls.
#[derive(Clone, Copy, PartialEq, Eq, Debug)]
pub struct Greedy;

impl Pairing for Greedy {
    ghost pairs = { λ _ ms. greedy_pairs ms };

    ghost next = { λ s _. s };

    ghost lawful = { λ s ms. greedy_lawful ms };

    fn propose(&mut self, masks: &[u64], buffer: &mut [Pair]) -> Result<usize, Refusal> {
        let mut found = Proposal::new(masks, buffer.len())?;
        for place in 0..masks.len() {
            take_turn(&mut found, place);
        }
        Ok(found.write_to(buffer))
    }
}

// The turn of one place: if it is unpaired, it is paired with the least place that it may take, if there is one.
fn take_turn(found: &mut Proposal, place: usize)
    requires { place < length found.old.masks }
    ensures { found.new ≡ record found.old { pairs = turn found.old.masks found.old.pairs place } }
{
    if found.is_free(place) {
        if let Some(other) = found.least_partner(place) {
            found.add(place, other);
        }
    }
}

// Each turn is as the rule says.
#[tactic(auto, using(crate::specs::Turns::takes_the_least))]
pub fn greedy_takes_the_least()
    ensures { TakesTheLeast }
{}
