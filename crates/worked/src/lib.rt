// Worked examples of a pool, computed; and the pairings of the code as the laws of a pool take them.
#![tactic(auto)]

ghost use Rattle.model.specs.Runs.{Lawful};
ghost use Rattle.pool.specs.Pairings.{meaning_of};
ghost use Rattle.worked.specs.Listing.{Worked};

use pairing::Pairing;

// What every pairing proposes is lawful as the laws of a pool ask it, so that they hold of every pool of the code.
pub fn pairings_are_lawful<P: Pairing>()
    ensures { Lawful (meaning_of P.pairs P.next) }
{}

// All worked examples in one theorem: draws, joinings, the shuffle, the pairs of both pairings, class boundaries, the
// answers to a list of calls with a merge in it and its book, a stray fetch, and a quota.
pub fn worked_pool()
    ensures { Worked }
{}
