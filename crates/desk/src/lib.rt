// The desk: a list of command bytes played on a unit, from its start to its listing.
#![tactic(auto)]

ghost use Rattle.std.specs.Prelude.{◌≡◌, map, IfOk, string_bytes};
ghost use Rattle.model.specs.Geometry.{desktop};
ghost use Rattle.model.specs.State.{opened as opened_pool};
ghost use Rattle.pool.specs.View.{state_of};
ghost use Rattle.pool.specs.Pairings.{meaning_of};
ghost use Rattle.calls.specs.Values.{call_of, answered_by};
ghost use Rattle.playback.specs.Playing.{played};
ghost use Rattle.model.specs.Runs.{told};
ghost use Rattle.units.specs.Promises.{Kept};
ghost use Rattle.desk.specs.Commands.{calls_in};
ghost use Rattle.desk.specs.Transcript.{transcript as transcript_of};

use bank::Bank;
use calls::Call;
use pairing::Pairing;
use playback::{Commands, Line, play};
use pool::Pool;
use std::alloc::{AllocError, Global};
use units::Setup;

// At most so many bytes of a list are played by the programs.
pub const MOST_BYTES: u64 = 65536;

// In the programs the memory of a unit's bank has so many bytes, which is 8 frames.
pub const MEMORY: usize = 8192;

// A unit that played a list of command bytes: its pool as it is now, and a line for each command.
#[derive(Drop)]
pub struct Played<B, P> {
    pub pool: Pool<B, P>,
    pub lines: Vec<Line>,
}

// Starts a unit and plays a list of command bytes on it. The lines and the pool are exactly what the definitions give
// for these bytes, and the laws hold of the pool, by the calls that the bytes ask for and what they answer.
pub fn play_on<B: Bank + Drop, P: Pairing + Drop>(
    heap: Global,
    setup: Setup<B, P>,
    input: &[u8],
) -> Result<Played<B, P>, AllocError>
    ensures lines { IfOk result (λ d. (d.lines.items, state_of B.model d.pool) ≡ played desktop (meaning_of P.pairs P.next) input.now (opened_pool desktop (B.model setup.bank) setup.pairing setup.seed)) }
    ensures laws { IfOk result (λ d. Kept (meaning_of P.pairs P.next) (told (calls_in input.now) (answered_by (meaning_of P.pairs P.next) (calls_in input.now) (opened_pool desktop (B.model setup.bank) setup.pairing setup.seed)).0) (state_of B.model d.pool)) }
{
    let mut pool = Pool::open(setup.bank, setup.pairing, setup.seed);
    let lines = play(heap, &mut pool, input)?;
    Ok(Played { pool, lines })
}

// The listing: the header, and the lines, each ended by a newline.
#[tactic(auto, unfolding(crate::specs::Transcript::transcript))]
pub fn transcript(heap: Global, lines: &[Line]) -> Result<String, AllocError>
    ensures { IfOk result (λ text. string_bytes text ≡ transcript_of lines.now) }
{
    let mut text = String::from_str(heap, "at cmd answer frames\n")?;
    for line in lines {
        writeln!(text, "{line}")?;
    }
    Ok(text)
}

// The calls that a list of command bytes asks for, in order, up to a fault in the list itself.
pub fn calls_of(heap: Global, input: &[u8]) -> Result<Vec<Call>, AllocError>
    ensures { IfOk result (λ calls. map call_of calls.items ≡ calls_in input.now) }
{
    let mut calls = Vec::new(heap);
    for (_, found) in Commands::new(input) {
        if let Ok(command) = found {
            calls.push(command.to_call(heap)?)?;
        }
    }
    Ok(calls)
}
