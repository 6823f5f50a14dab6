// Units: a bank, a pairing and a seed, started and given a list of calls; and two of them, side by side.
#![tactic(auto)]

ghost use Rattle.std.specs.Prelude.{IfOk};
ghost use Rattle.pool.specs.Pairings.{meaning_of};
ghost use Rattle.units.specs.Performance.{performance, AsDefined, KeepsLaws, KeepLawsOfTwo};

use bank::Bank;
use calls::{Answer, Call, perform_all};
use pairing::Pairing;
use pool::Pool;
use std::alloc::{AllocError, Global};

// What a unit is started with.
#[derive(Drop)]
pub struct Setup<B, P> {
    pub bank: B,
    pub pairing: P,
    pub seed: u32,
}

// A unit that was given a list of calls: its pool as it is now, and what it answered.
#[derive(Drop)]
pub struct Unit<B, P> {
    pub pool: Pool<B, P>,
    pub answers: Vec<Answer>,
}

// Two units, side by side.
#[derive(Drop)]
pub struct Units<B, P, C, Q> {
    pub first: Unit<B, P>,
    pub second: Unit<C, Q>,
}

// Starts a unit and performs a list of calls on it. The answers and the pool are exactly as defined, and the laws of
// one pool hold: what it reads is what its patch book says, and its frames, merges, emptied frames and opened spans
// balance.
pub fn start<B: Bank + Drop, P: Pairing + Drop>(
    heap: Global,
    setup: Setup<B, P>,
    calls: &[Call],
) -> Result<Unit<B, P>, AllocError>
    ensures performed { IfOk result (λ u. AsDefined (performance (meaning_of P.pairs P.next) B.model setup calls.now u)) }
    ensures laws { IfOk result (λ u. KeepsLaws (performance (meaning_of P.pairs P.next) B.model setup calls.now u)) }
{
    let mut pool = Pool::open(setup.bank, setup.pairing, setup.seed);
    let answers = perform_all(heap, &mut pool, calls)?;
    Ok(Unit { pool, answers })
}

// Starts two units, each over a bank, a pairing and a seed of its own, and performs a list of calls on each. The laws
// of both hold, and the laws of the two: they read alike exactly when their patch books agree; and if they were started
// alike and given lists alike in all but the bytes written, they hold equal bytes in every frame exactly when they read
// alike.
//
// A setup and its calls are no struct of their own, which would be no plainer: the setup is moved into the unit, and the
// calls are lent, and read again by those who compare.
pub fn start_both<B: Bank + Drop, P: Pairing + Drop, C: Bank + Drop, Q: Pairing + Drop>(
    heap: Global,
    one: Setup<B, P>,
    first_calls: &[Call],
    two: Setup<C, Q>,
    second_calls: &[Call],
) -> Result<Units<B, P, C, Q>, AllocError>
    ensures first { IfOk result (λ u. AsDefined (performance (meaning_of P.pairs P.next) B.model one first_calls.now u.first)) }
    ensures second { IfOk result (λ u. AsDefined (performance (meaning_of Q.pairs Q.next) C.model two second_calls.now u.second)) }
    ensures first_laws { IfOk result (λ u. KeepsLaws (performance (meaning_of P.pairs P.next) B.model one first_calls.now u.first)) }
    ensures second_laws { IfOk result (λ u. KeepsLaws (performance (meaning_of Q.pairs Q.next) C.model two second_calls.now u.second)) }
    ensures both { IfOk result (λ u. KeepLawsOfTwo (performance (meaning_of P.pairs P.next) B.model one first_calls.now u.first) (performance (meaning_of Q.pairs Q.next) C.model two second_calls.now u.second)) }
{
    let first = start(heap, one, first_calls)?;
    let second = start(heap, two, second_calls)?;
    Ok(Units { first, second })
}
