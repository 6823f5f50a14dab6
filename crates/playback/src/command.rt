// Commands: one letter, and then operands of fixed widths, high byte first.
ghost use Rattle.std.specs.Prelude.{◌≡◌, IfOk};
ghost use Rattle.calls.specs.Values.{call_of};
ghost use Rattle.playback.specs.Format.{Decodes, decoded, called, letter_of};

use calls::Call;
use refusal::Refusal;
use std::alloc::{AllocError, Global};

// A command of a list.
#[derive(Clone, Copy, PartialEq, Eq, Debug)]
pub enum Command {
    // Label and length.
    New(u8, u16),
    // Label, offset, count and value: as many copies of the value are written.
    Write(u8, u16, u16, u8),
    // Label and offset of one byte.
    Read(u8, u16),
    // Address of one byte.
    Fetch(u32),
    // Label.
    Place(u8),
    // Label.
    Delete(u8),
    // Class.
    Mesh(u8),
    Count,
}

// A command, and the bytes after it.
#[derive(Drop)]
pub struct Decoded<'a> {
    pub command: Command,
    pub rest: &'a [u8],
}

// Takes the first command from a list: COMMAND where it begins with no command letter, CUT where the list ends within
// its operands. (An empty list begins with no letter at all.)
pub fn decode(bytes: &[u8]) -> Result<Decoded<'_>, Refusal>
    ensures { Decodes 1 bytes.now (decoded bytes.now) result }
{
    match bytes {
        [b'N', label, high, low, rest @ ..] => Ok(Decoded {
            command: Command::New(*label, u16::from_be_bytes([*high, *low])),
            rest,
        }),
        [
            b'W',
            label,
            offset_high,
            offset_low,
            count_high,
            count_low,
            value,
            rest @ ..,
        ] => {
            let offset = u16::from_be_bytes([*offset_high, *offset_low]);
            let count = u16::from_be_bytes([*count_high, *count_low]);
            Ok(Decoded {
                command: Command::Write(*label, offset, count, *value),
                rest,
            })
        }
        [b'R', label, high, low, rest @ ..] => Ok(Decoded {
            command: Command::Read(*label, u16::from_be_bytes([*high, *low])),
            rest,
        }),
        [b'F', high, middle, low, rest @ ..] => Ok(Decoded {
            command: Command::Fetch(u32::from_be_bytes([0, *high, *middle, *low])),
            rest,
        }),
        [b'P', label, rest @ ..] => Ok(Decoded {
            command: Command::Place(*label),
            rest,
        }),
        [b'D', label, rest @ ..] => Ok(Decoded {
            command: Command::Delete(*label),
            rest,
        }),
        [b'M', class, rest @ ..] => Ok(Decoded {
            command: Command::Mesh(*class),
            rest,
        }),
        [b'C', rest @ ..] => Ok(Decoded {
            command: Command::Count,
            rest,
        }),
        [b'N' | b'W' | b'R' | b'F' | b'P' | b'D' | b'M', ..] => Err(Refusal::Cut),
        _ => Err(Refusal::Command),
    }
}

impl Command {
    // The letter of a command. (A method, since `char::from(command)` would not say which char that is.)
    pub fn letter(self) -> char
        ensures { result ≡ letter_of self }
    {
        match self {
            Command::New(_, _) => 'N',
            Command::Write(_, _, _, _) => 'W',
            Command::Read(_, _) => 'R',
            Command::Fetch(_) => 'F',
            Command::Place(_) => 'P',
            Command::Delete(_) => 'D',
            Command::Mesh(_) => 'M',
            Command::Count => 'C',
        }
    }

    // The call that a command asks for. (A method and no `From`, since a call takes memory.)
    pub fn to_call(self, heap: Global) -> Result<Call, AllocError>
        ensures { IfOk result (λ c. call_of c ≡ called self) }
    {
        Ok(match self {
            Command::New(label, length) => Call::New(label, u32::from(length)),
            Command::Write(label, offset, count, value) => Call::Write(
                label,
                u32::from(offset),
                vec![in heap; value; usize::from(count)]?,
            ),
            Command::Read(label, offset) => Call::Read(label, u32::from(offset), 1),
            Command::Fetch(address) => Call::Fetch(address, 1),
            Command::Place(label) => Call::Place(label),
            Command::Delete(label) => Call::Delete(label),
            Command::Mesh(class) => Call::Mesh(class),
            Command::Count => Call::Count,
        })
    }
}
