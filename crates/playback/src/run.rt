// The playing of a list.
ghost use Rattle.std.specs.Prelude.{◌≡◌, IfOk};
ghost use Rattle.model.specs.Geometry.{desktop};
ghost use Rattle.model.specs.Runs.{step as model_step};
ghost use Rattle.pool.specs.View.{state_of};
ghost use Rattle.pool.specs.Pairings.{meaning_of};
ghost use Rattle.playback.specs.Format.{called};
ghost use Rattle.playback.specs.Playing.{told_with, broken, played};

use crate::command::Command;
use crate::line::{Line, refused, tell};
use crate::list::Commands;
use bank::Bank;
use calls::perform;
use pairing::Pairing;
use pool::Pool;
use refusal::Refusal;
use std::alloc::{AllocError, Global};

// Performs a command, and tells of it.
fn perform_command<B: Bank, P: Pairing>(
    heap: Global,
    pool: &mut Pool<B, P>,
    at: usize,
    command: Command,
) -> Result<Line, AllocError>
    ensures { IfOk result (λ line. (line, state_of B.model pool.new) ≡ told_with desktop at command (model_step desktop (meaning_of P.pairs P.next) (called command) (state_of B.model pool.old))) }
{
    let answer = perform(heap, pool, &command.to_call(heap)?)?;
    Ok(Line {
        at,
        letter: command.letter(),
        outcome: tell(at, &answer),
        frames: pool.frames_out(),
    })
}

// Tells of a fault in the list itself.
fn tell_fault<B: Bank, P>(pool: &mut Pool<B, P>, at: usize, refusal: Refusal) -> Line
    ensures line { result ≡ broken desktop at refusal (state_of B.model pool.old) }
    ensures same { state_of B.model pool.new ≡ state_of B.model pool.old }
{
    Line {
        at,
        letter: '?',
        outcome: refused(at, refusal),
        frames: pool.frames_out(),
    }
}

// Plays a list of command bytes: a line for each command, in order. A fault in the list itself ends the run, and any
// other refusal does not.
pub fn play<B: Bank, P: Pairing>(
    heap: Global,
    pool: &mut Pool<B, P>,
    input: &[u8],
) -> Result<Vec<Line>, AllocError>
    ensures { IfOk result (λ lines. (lines.items, state_of B.model pool.new) ≡ played desktop (meaning_of P.pairs P.next) input.now (state_of B.model pool.old)) }
{
    let mut lines = Vec::new(heap);
    for (at, found) in Commands::new(input) {
        let line = match found {
            Ok(command) => perform_command(heap, pool, at, command)?,
            Err(refusal) => tell_fault(pool, at, refusal),
        };
        lines.push(line)?;
    }
    Ok(lines)
}
