// Two units, one gesture: do they sound the same?
#![tactic(auto)]

ghost use Rattle.std.specs.Prelude.{◌≡◌, map, IfOk};
ghost use Rattle.bank.specs.Model.{most_frames};
ghost use Rattle.model.specs.Geometry.{desktop};
ghost use Rattle.model.specs.Runs.{told};
ghost use Rattle.pool.specs.View.{state_of};
ghost use Rattle.pool.specs.Pairings.{meaning_of};
ghost use Rattle.calls.specs.Values.{call_of, answer_of};
ghost use Rattle.verdicts.specs.Apart.{FirstApart};
ghost use Rattle.verdicts.specs.Held.{held};
ghost use Rattle.units.specs.Promises.{heard};
ghost use Rattle.units.specs.Performance.{performance, heard_in, AsDefined, KeepsLaws, KeepLawsOfTwo};

use bank::Bank;
use calls::Call;
use pairing::Pairing;
use std::alloc::{AllocError, Global};
use units::{Setup, Unit, Units, start_both};
use verdicts::addresses::first_addresses;
use verdicts::frames::frames_differ;
use verdicts::readings::reads_alike;

// Two units that were compared: as they are now, with the lowest label that reads differently, if there is one, and the
// lowest frame that holds different bytes, if there is one.
#[derive(Drop)]
pub struct Compared<B, P, C, Q> {
    pub first: Unit<B, P>,
    pub second: Unit<C, Q>,
    pub label: Option<u8>,
    pub frame: Option<u32>,
}

// Starts two units, each over a bank, a pairing and a seed of its own, performs a list of calls on each, reads every
// label of both, by read and by fetch at its first address, and every frame of both, and says where they differ first.
// The laws hold: what each reads is what its patch book says, its counts balance, the two read alike exactly when their
// books agree, and, started alike and given lists alike in all but the bytes written, they hold equal bytes in every
// frame exactly when they read alike.
pub fn compare<B: Bank + Drop, P: Pairing + Drop, C: Bank + Drop, Q: Pairing + Drop>(
    heap: Global,
    one: Setup<B, P>,
    first_calls: &[Call],
    two: Setup<C, Q>,
    second_calls: &[Call],
) -> Result<Compared<B, P, C, Q>, AllocError>
    ensures first { IfOk result (λ c. AsDefined (performance (meaning_of P.pairs P.next) B.model one first_calls.now c.first)) }
    ensures second { IfOk result (λ c. AsDefined (performance (meaning_of Q.pairs Q.next) C.model two second_calls.now c.second)) }
    ensures first_laws { IfOk result (λ c. KeepsLaws (performance (meaning_of P.pairs P.next) B.model one first_calls.now c.first)) }
    ensures second_laws { IfOk result (λ c. KeepsLaws (performance (meaning_of Q.pairs Q.next) C.model two second_calls.now c.second)) }
    ensures both { IfOk result (λ c. KeepLawsOfTwo (performance (meaning_of P.pairs P.next) B.model one first_calls.now c.first) (performance (meaning_of Q.pairs Q.next) C.model two second_calls.now c.second)) }
    ensures label { IfOk result (λ c. FirstApart (heard_in (performance (meaning_of P.pairs P.next) B.model one first_calls.now c.first)) (heard_in (performance (meaning_of Q.pairs Q.next) C.model two second_calls.now c.second)) desktop.labels c.label) }
    ensures frame { IfOk result (λ c. FirstApart (held (state_of B.model c.first.pool).bank) (held (state_of C.model c.second.pool).bank) most_frames c.frame) }
{
    let Units {
        mut first,
        mut second,
    } = start_both(heap, one, first_calls, two, second_calls)?;
    let label = label_apart(heap, &mut first, first_calls, &mut second, second_calls)?;
    let frame = frames_differ(&mut first.pool, &mut second.pool);
    Ok(Compared {
        first,
        second,
        label,
        frame,
    })
}

// The lowest label that reads differently in two units. Each label is read in both, and fetched at its first address
// there, by the answers to these calls.
fn label_apart<B: Bank, P: Pairing, C: Bank, Q: Pairing>(
    heap: Global,
    first: &mut Unit<B, P>,
    first_calls: &[Call],
    second: &mut Unit<C, Q>,
    second_calls: &[Call],
) -> Result<Option<u8>, AllocError>
    ensures apart { IfOk result (λ label. FirstApart (heard (meaning_of P.pairs P.next) (told (map call_of first_calls.now) (map answer_of first.old.answers.items)) (state_of B.model first.old.pool)) (heard (meaning_of Q.pairs Q.next) (told (map call_of second_calls.now) (map answer_of second.old.answers.items)) (state_of C.model second.old.pool)) desktop.labels label) }
    ensures first { (first.new.answers ≡ first.old.answers) × (state_of B.model first.new.pool ≡ state_of B.model first.old.pool) }
    ensures second { (second.new.answers ≡ second.old.answers) × (state_of C.model second.new.pool ≡ state_of C.model second.old.pool) }
{
    let first_of_one = first_addresses(first_calls, &first.answers);
    let first_of_two = first_addresses(second_calls, &second.answers);
    reads_alike(
        heap,
        &mut first.pool,
        &first_of_one,
        &mut second.pool,
        &first_of_two,
    )
}
