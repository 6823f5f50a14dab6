// Lists of command bytes: their commands, one after another.
ghost use Rattle.std.specs.Prelude.{◌≡◌, length};
ghost use Rattle.std.specs.Iterator.{YieldsFirst, item_count};
ghost use Rattle.playback.specs.Found.{left_in};

use crate::command::{Command, decode};
use refusal::Refusal;

// The commands of a list from a byte place on, each with the place where it begins. A fault in the list itself is the
// last of them.
#[derive(Drop)]
pub struct Commands<'a> {
    pub input: &'a [u8],
    pub at: usize,
}

impl<'a> Commands<'a> {
    // All commands of a list.
    pub fn new(input: &'a [u8]) -> Self
        ensures input { result.input.now ≡ input.now }
        ensures at { result.at ≡ 0 }
    {
        Commands { input, at: 0 }
    }

    // Goes to the end of the list: nothing is left of it.
    fn end(&mut self)
        ensures { self.new ≡ record self.old { at = length self.old.input.now } }
    {
        self.at = self.input.len();
    }
}

impl Iterator for Commands<'_> {
    type Item = (usize, Result<Command, Refusal>);

    ghost next_gives = { YieldsFirst left_in };

    ghost remaining = { item_count left_in };

    fn next(&mut self) -> Option<(usize, Result<Command, Refusal>)> {
        let at = self.at;
        let rest = self.input.get(at..)?;
        if rest.is_empty() {
            return None;
        }
        // By `match`, since the place moves in another way in each arm.
        match decode(rest) {
            Ok(decoded) => {
                self.at = self.input.len() - decoded.rest.len();
                Some((at, Ok(decoded.command)))
            }
            Err(refusal) => {
                self.end();
                Some((at, Err(refusal)))
            }
        }
    }
}
