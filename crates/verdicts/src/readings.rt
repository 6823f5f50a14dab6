// Whether two pools read alike, label for label.
//
// That a question leaves the pool as it was stands in each contract, since all calls of a pool and of a bank take `&mut
// self`, questions too: one form for every call. The heap stays beside the pool, which takes no memory from it.
ghost use Rattle.std.specs.Prelude.{◌≡◌, IfOk, Decides};
ghost use Rattle.model.specs.Geometry.{desktop, longest};
ghost use Rattle.laws.specs.Reading.{next_of, bytes_in, by_read, by_fetch, longest_read};
ghost use Rattle.calls.specs.Values.{answer_of};
ghost use Rattle.pool.specs.View.{state_of};
ghost use Rattle.pool.specs.Pairings.{meaning_of};
ghost use Rattle.verdicts.specs.Apart.{FirstApart};
ghost use Rattle.verdicts.specs.Hearing.{bytes_of, heard_of, addresses_in, reading_at};

use bank::Bank;
use calls::{Answer, Call, perform};
use pairing::Pairing;
use pool::Pool;
use std::alloc::{AllocError, Global};
use tables::geometry::LONGEST;

// What is heard of a label that is accepted: the length of its longest accepted read at offset 0, the bytes of that
// read, and those of a fetch as long at its first address. (These are the three parts that a reading has by definition.)
#[derive(PartialEq, Eq, Drop)]
pub struct Heard {
    pub length: u32,
    pub read: Option<Vec<u8>>,
    pub fetched: Option<Vec<u8>>,
}

// The bytes that an accepted read or fetch answered.
fn bytes_answered(answer: Answer) -> Option<Vec<u8>>
    ensures { bytes_of result ≡ bytes_in (answer_of answer) }
{
    match answer {
        Answer::ToRead(bytes) | Answer::ToFetch(bytes) => bytes.ok(),
        _ => None,
    }
}

// Reads so many bytes of a label's patch from its start.
fn read_start<B: Bank, P: Pairing>(
    heap: Global,
    pool: &mut Pool<B, P>,
    label: u8,
    count: u32,
) -> Result<Option<Vec<u8>>, AllocError>
    ensures bytes { IfOk result (λ read. bytes_of read ≡ by_read (next_of desktop (meaning_of P.pairs P.next) (state_of B.model pool.old)) label count) }
    ensures same { state_of B.model pool.new ≡ state_of B.model pool.old }
{
    let answer = perform(heap, pool, &Call::Read(label, 0, count))?;
    Ok(bytes_answered(answer))
}

// Fetches so many bytes from an address on, if there is one.
fn fetch_first<B: Bank, P: Pairing>(
    heap: Global,
    pool: &mut Pool<B, P>,
    first: Option<u32>,
    count: u32,
) -> Result<Option<Vec<u8>>, AllocError>
    ensures bytes { IfOk result (λ fetched. bytes_of fetched ≡ by_fetch (next_of desktop (meaning_of P.pairs P.next) (state_of B.model pool.old)) first count) }
    ensures same { state_of B.model pool.new ≡ state_of B.model pool.old }
{
    let Some(address) = first else {
        return Ok(None);
    };
    let answer = perform(heap, pool, &Call::Fetch(address, count))?;
    Ok(bytes_answered(answer))
}

// The length of the longest accepted read of a label at offset 0.
fn longest_read<B: Bank, P: Pairing>(
    heap: Global,
    pool: &mut Pool<B, P>,
    label: u8,
) -> Result<u32, AllocError>
    ensures length { IfOk result (λ n. n ≡ longest_read (next_of desktop (meaning_of P.pairs P.next) (state_of B.model pool.old)) (longest desktop) label) }
    ensures same { state_of B.model pool.new ≡ state_of B.model pool.old }
{
    for count in (1..=LONGEST).rev() {
        if read_start(heap, pool, label, count)?.is_some() {
            return Ok(count);
        }
    }
    Ok(0)
}

// What is heard of a label whose first address, if it has one, is this.
pub fn hear<B: Bank, P: Pairing>(
    heap: Global,
    pool: &mut Pool<B, P>,
    label: u8,
    first: Option<u32>,
) -> Result<Option<Heard>, AllocError>
    ensures heard { IfOk result (λ heard. heard_of heard ≡ reading_at (meaning_of P.pairs P.next) (state_of B.model pool.old) (λ _. first) label) }
    ensures same { state_of B.model pool.new ≡ state_of B.model pool.old }
{
    if read_start(heap, pool, label, 0)?.is_none() {
        return Ok(None);
    }
    let length = longest_read(heap, pool, label)?;
    let read = read_start(heap, pool, label, length)?;
    let fetched = fetch_first(heap, pool, first, length)?;
    Ok(Some(Heard {
        length,
        read,
        fetched,
    }))
}

// The first address of a label, by a list that has one for each label from 0 on.
fn first_at(firsts: &[Option<u32>], label: u8) -> Option<u32>
    ensures { result ≡ addresses_in firsts.now label }
{
    firsts.get(label as usize).copied().flatten()
}

// Whether the same was heard. (In a function of its own, since a wrong verdict is to be refused at its own line: with `==`
// in `same_reading` itself only a proof by hand closes, which was tried.)
fn same_heard(here: &Option<Heard>, there: &Option<Heard>) -> bool
    ensures { Decides result (heard_of here.now ≡ heard_of there.now) }
{
    here == there
}

// Whether a label reads alike in two pools. A pool and its first addresses stay apart, here and in `reads_alike`: a struct
// that borrows both would be made in the one and taken apart in the other, and would be no plainer.
fn same_reading<B: Bank, P: Pairing, C: Bank, Q: Pairing>(
    heap: Global,
    one: &mut Pool<B, P>,
    first_one: &[Option<u32>],
    two: &mut Pool<C, Q>,
    first_two: &[Option<u32>],
    label: u8,
) -> Result<bool, AllocError>
    ensures same { IfOk result (λ alike. Decides alike (reading_at (meaning_of P.pairs P.next) (state_of B.model one.old) (addresses_in first_one.now) label ≡ reading_at (meaning_of Q.pairs Q.next) (state_of C.model two.old) (addresses_in first_two.now) label)) }
    ensures one { state_of B.model one.new ≡ state_of B.model one.old }
    ensures two { state_of C.model two.new ≡ state_of C.model two.old }
{
    let here = hear(heap, one, label, first_at(first_one, label))?;
    let there = hear(heap, two, label, first_at(first_two, label))?;
    Ok(same_heard(&here, &there))
}

// The lowest label that reads differently in two pools, and none where all labels read alike. Each label is read in
// both pools, and fetched at its first address there.
pub fn reads_alike<B: Bank, P: Pairing, C: Bank, Q: Pairing>(
    heap: Global,
    one: &mut Pool<B, P>,
    first_one: &[Option<u32>],
    two: &mut Pool<C, Q>,
    first_two: &[Option<u32>],
) -> Result<Option<u8>, AllocError>
    ensures apart { IfOk result (λ apart. FirstApart (reading_at (meaning_of P.pairs P.next) (state_of B.model one.old) (addresses_in first_one.now)) (reading_at (meaning_of Q.pairs Q.next) (state_of C.model two.old) (addresses_in first_two.now)) desktop.labels apart) }
    ensures one { state_of B.model one.new ≡ state_of B.model one.old }
    ensures two { state_of C.model two.new ≡ state_of C.model two.old }
{
    // The search of `frames_differ` once more: one function for both would take a closure over the pools, and after `find`,
    // which was tried there, nothing is known of what the pools hold.
    for label in 0..=255u8 {
        if !same_reading(heap, one, first_one, two, first_two, label)? {
            return Ok(Some(label));
        }
    }
    Ok(None)
}
