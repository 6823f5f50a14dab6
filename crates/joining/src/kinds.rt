// The two kinds of elements that join.
ghost use Rattle.joining.specs.Kinds.{word_joined, empty_word, cell_joined, empty_cell};
ghost use Rattle.joining.specs.Masks.{word_commutes, word_groups};
ghost use Rattle.std.proofs.Common.{rules};

use crate::element::Join;

// 64 slot bits: bit s says that slot s is occupied.
#[derive(Clone, Copy, PartialEq, Eq, Debug)]
pub struct Word {
    pub bits: u64,
}

// Two words join when no bit is set in both, and the result has the bits of either.
impl Join for Word {
    ghost joined = { word_joined };

    ghost empty = { empty_word };

    ghost commuting = { word_commutes };

    ghost grouping = { word_groups };

    ghost leaving = { Prim.search rules };

    fn join(self, other: Word) -> Option<Word> {
        (self.bits & other.bits == 0).then_some(Word {
            bits: self.bits | other.bits,
        })
    }
}

// The content of one place: nothing, or one byte. A cell full with 0 is full.
// As an `Option<u8>`, a join would answer an `Option<Option<u8>>`, where `None` is a clash and `Some(None)` an empty cell.
#[derive(Clone, Copy, PartialEq, Eq, Debug, Default)]
pub enum Cell {
    #[default]
    Empty,
    Full(u8),
}

// Two cells join when at least one is empty, and the result is the other one.
impl Join for Cell {
    ghost joined = { cell_joined };

    ghost empty = { empty_cell };

    ghost commuting = { Prim.search rules };

    ghost grouping = { Prim.search rules };

    ghost leaving = { Prim.search rules };

    fn join(self, other: Cell) -> Option<Cell> {
        match (self, other) {
            (Cell::Empty, _) => Some(other),
            (Cell::Full(_), Cell::Empty) => Some(self),
            (Cell::Full(_), Cell::Full(_)) => None,
        }
    }
}
