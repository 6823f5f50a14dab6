// Lines: what is told of each command.
ghost use Rattle.std.specs.Prelude.{◌≡◌, Some};
ghost use Rattle.calls.specs.Values.{answer_of};
ghost use Rattle.playback.specs.Playing.{layer_of, fault_of, outcome_of};
ghost use Rattle.playback.specs.Text.{outcome_text, line_text};

use calls::Answer;
use model::{Counts, Made, Meshed};
use refusal::Refusal;
use std::fmt;

// The layer that found a fault. Its discriminant is its number in a line.
#[derive(Clone, Copy, PartialEq, Eq, Debug)]
pub enum Layer {
    Playback = 0,
    Pool = 1,
    Bank = 2,
}

// A refused command: the byte place where it begins, the layer that refused it, and the refusal.
#[derive(Clone, Copy, PartialEq, Eq, Debug)]
pub struct Fault {
    pub at: usize,
    pub layer: Layer,
    pub refusal: Refusal,
}

// What a command answered. (An enum of its own, since a `Result` could not have a `Display` from here, and the two places
// that print an outcome would have to match it.)
#[derive(Clone, Copy, PartialEq, Eq, Debug)]
pub enum Outcome {
    Made(Made),
    Written(u32),
    Byte(u8),
    Address(u32),
    Freed(bool),
    Merged(Meshed),
    Counted(Counts),
    Refused(Fault),
}

// The line of a command: its byte place, its letter (a question mark where the list itself is at fault), what it
// answered, and how many frames are out afterwards. (The letter is what is printed. With an `Option` its reader would have
// to turn `None` back into the question mark.)
#[derive(Clone, Copy, PartialEq, Eq, Debug)]
pub struct Line {
    pub at: usize,
    pub letter: char,
    pub outcome: Outcome,
    pub frames: u32,
}

impl From<Refusal> for Layer {
    ghost from_gives = { λ refusal layer. layer ≡ layer_of refusal };

    // The layer that finds a refusal.
    fn from(refusal: Refusal) -> Layer {
        match refusal {
            Refusal::Command | Refusal::Cut => Layer::Playback,
            Refusal::Frames => Layer::Bank,
            _ => Layer::Pool,
        }
    }
}

// The outcome of a command that is refused.
pub fn refused(at: usize, refusal: Refusal) -> Outcome
    ensures { result ≡ fault_of at refusal }
{
    Outcome::Refused(Fault {
        at,
        layer: Layer::from(refusal),
        refusal,
    })
}

// What a line tells of an answer. Of the bytes of a read or a fetch it is the first, or 0 where there is none.
pub fn tell(at: usize, answer: &Answer) -> Outcome
    ensures { result ≡ outcome_of at (answer_of answer.now) }
{
    match answer {
        Answer::ToNew(Ok(made)) => Outcome::Made(*made),
        Answer::ToWrite(Ok(count)) => Outcome::Written(*count),
        Answer::ToRead(Ok(bytes)) | Answer::ToFetch(Ok(bytes)) => {
            Outcome::Byte(bytes.first().copied().unwrap_or(0))
        }
        Answer::ToPlace(Ok(address)) => Outcome::Address(*address),
        Answer::ToDelete(Ok(emptied)) => Outcome::Freed(*emptied),
        Answer::ToMesh(Ok(meshed)) => Outcome::Merged(*meshed),
        Answer::ToCount(counts) => Outcome::Counted(*counts),
        Answer::ToNew(Err(refusal))
        | Answer::ToWrite(Err(refusal))
        | Answer::ToRead(Err(refusal))
        | Answer::ToFetch(Err(refusal))
        | Answer::ToPlace(Err(refusal))
        | Answer::ToDelete(Err(refusal))
        | Answer::ToMesh(Err(refusal)) => refused(at, *refusal),
    }
}

impl fmt::Display for Outcome {
    ghost output = { λ x. Some (outcome_text x) };

    fn fmt<W: fmt::Write>(&self, f: &mut fmt::Formatter<W>) -> fmt::Result {
        match self {
            Outcome::Made(Made { address, opened }) => {
                write!(f, "{address}/{}", u8::from(*opened))
            }
            Outcome::Written(count) => write!(f, "{count}"),
            Outcome::Byte(byte) => write!(f, "{byte}"),
            Outcome::Address(address) => write!(f, "{address}"),
            Outcome::Freed(emptied) => write!(f, "{}", u8::from(*emptied)),
            Outcome::Merged(Meshed { merges, bytes }) => write!(f, "{merges}/{bytes}"),
            Outcome::Counted(
                Counts {
                    frames,
                    spans,
                    labels,
                },
            ) => write!(f, "{frames}/{spans}/{labels}"),
            Outcome::Refused(Fault { layer, refusal, .. }) => {
                write!(f, "!{}.{}", *layer as u8, *refusal as u8)
            }
        }
    }
}

impl fmt::Display for Line {
    ghost output = { λ x. Some (line_text x) };

    fn fmt<W: fmt::Write>(&self, f: &mut fmt::Formatter<W>) -> fmt::Result {
        let Line {
            at,
            letter,
            outcome,
            frames,
        } = self;
        write!(f, "{at} {letter} {outcome} {frames}")
    }
}
