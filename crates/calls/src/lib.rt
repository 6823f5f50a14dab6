// The calls of a pool as values, so that lists of them can be kept, passed and performed.
#![tactic(auto)]

ghost use Rattle.std.specs.Prelude.{◌≡◌, map, IfOk, OnErr, OnOk};
ghost use Rattle.model.specs.Geometry.{desktop};
ghost use Rattle.model.specs.Runs.{step as model_step, KnownLabel, KnownLabels};
ghost use Rattle.pool.specs.View.{state_of};
ghost use Rattle.pool.specs.Pairings.{meaning_of};
ghost use Rattle.calls.specs.Values.{call_of, answer_of, answered_by, RanAFront};

use bank::Bank;
use model::{Counts, Made, Meshed};
use pairing::Pairing;
use pool::Pool;
use refusal::Refusal;
use std::alloc::{AllocError, Global};

// A call with its arguments. A read and a fetch have the number of bytes asked for. A call is an enum and no closure:
// lists of calls are data, which are kept and passed, and which the laws compare.
#[derive(Drop)]
pub enum Call {
    New(u8, u32),
    Write(u8, u32, Vec<u8>),
    Read(u8, u32, u32),
    Fetch(u32, u32),
    Place(u8),
    Delete(u8),
    Mesh(u8),
    Count,
}

// What a call answers. An accepted read or fetch answers the bytes that it read.
#[derive(Drop)]
pub enum Answer {
    ToNew(Result<Made, Refusal>),
    ToWrite(Result<u32, Refusal>),
    ToRead(Result<Vec<u8>, Refusal>),
    ToFetch(Result<Vec<u8>, Refusal>),
    ToPlace(Result<u32, Refusal>),
    ToDelete(Result<bool, Refusal>),
    ToMesh(Result<Meshed, Refusal>),
    ToCount(Counts),
}

// Performs a call. Where there is no memory for what it answers, the pool is as it was.
pub fn perform<B: Bank, P: Pairing>(
    heap: Global,
    pool: &mut Pool<B, P>,
    call: &Call,
) -> Result<Answer, AllocError>
    ensures done { IfOk result (λ a. (answer_of a, state_of B.model pool.new) ≡ model_step desktop (meaning_of P.pairs P.next) (call_of call.now) (state_of B.model pool.old)) }
    ensures undone { OnErr result (state_of B.model pool.new ≡ state_of B.model pool.old) }
    ensures known { KnownLabel desktop (call_of call.now) }
{
    match *call {
        Call::New(label, length) => Ok(Answer::ToNew(pool.new(label, length))),
        Call::Write(label, offset, ref bytes) => Ok(Answer::ToWrite(pool.write(
            label,
            offset,
            bytes.as_slice(),
        ))),
        Call::Read(label, offset, count) => {
            let mut buffer = vec![in heap; 0; count as usize]?;
            let read = pool.read(label, offset, buffer.as_mut_slice());
            Ok(Answer::ToRead(read.map(|()| buffer)))
        }
        Call::Fetch(address, count) => {
            let mut buffer = vec![in heap; 0; count as usize]?;
            let fetched = pool.fetch(address, buffer.as_mut_slice());
            Ok(Answer::ToFetch(fetched.map(|()| buffer)))
        }
        Call::Place(label) => Ok(Answer::ToPlace(pool.place(label))),
        Call::Delete(label) => Ok(Answer::ToDelete(pool.delete(label))),
        Call::Mesh(class) => Ok(Answer::ToMesh(pool.mesh(class))),
        Call::Count => Ok(Answer::ToCount(pool.count())),
    }
}

// Performs a list of calls in order, and answers what each answered. Where memory fails on the way, the pool has
// performed a front of the list.
pub fn perform_all<B: Bank, P: Pairing>(
    heap: Global,
    pool: &mut Pool<B, P>,
    calls: &[Call],
) -> Result<Vec<Answer>, AllocError>
    ensures done { IfOk result (λ answers. (map answer_of answers.items, state_of B.model pool.new) ≡ answered_by (meaning_of P.pairs P.next) (map call_of calls.now) (state_of B.model pool.old)) }
    ensures undone { OnErr result (RanAFront (meaning_of P.pairs P.next) (map call_of calls.now) (state_of B.model pool.old) (state_of B.model pool.new)) }
    ensures known { OnOk result (KnownLabels desktop (map call_of calls.now)) }
{
    let mut answers = Vec::new(heap);
    for call in calls {
        answers.push(perform(heap, pool, call)?)?;
    }
    Ok(answers)
}
