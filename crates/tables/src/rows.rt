// The frame table: the row of each frame that is out.
ghost use Rattle.std.specs.Prelude.{◌≡◌, ℕ, ◌≤◌, true, length, set as set_at, replicate, is_some, IfSome, Some, None, nat_lt, slice_index_or};
ghost use Rattle.std.specs.Borrow.{sem, LendsIf};
ghost use Rattle.std.specs.contracts.option.Option.{the_row as option};
ghost use Rattle.model.specs.contracts.Row.{the_row as row_row};
ghost use Rattle.tables.specs.contracts.rows.Rows.{the_row as table_row};
ghost use Rattle.model.specs.Geometry.{desktop};
ghost use Rattle.model.specs.Calls.{tally, serving as best_serving, serves as row_serves, better as better_of};
ghost use Rattle.model.specs.Mesh.{of_class, mask_of, masks_of, listed};
ghost use Rattle.tables.specs.Views.{rows_of};

use crate::geometry::slots;
use crate::masks::occupied;
use arrayvec::ArrayVec;
use model::Row;
use std::marker::Model;

// A place for each frame that a bank can have, and in it the frame's row, if it is out. The places stand in an
// `ArrayVec`, which lends one of them: a proof does not follow an element of a plain array that `lend` would return back to
// its owner (tried).
#[derive(Drop)]
pub struct Rows {
    table: ArrayVec<Option<Row>, 64>,
}

// A table is the list of its 64 places.
impl Model for Rows {
    ghost use Rattle.std.specs.Prelude.{◌≡◌, List, Option, length};
    ghost use Rattle.model.specs.declared.Row.{Row as RowValue};

    ghost Value = { List (Option RowValue) };

    ghost view = { λ t. t.table.items };

    ghost invariant = { λ t. length t.table.items ≡ 64 };
}

impl Rows {
    // A table with a place for each frame, and no row.
    pub fn new() -> Rows
        ensures { rows_of result ≡ replicate desktop.frames None }
    {
        Rows {
            table: ArrayVec::from([None; 64]),
        }
    }

    // The row of a frame, if it has one.
    pub fn row(&self, frame: u32) -> Option<Row>
        ensures { result ≡ slice_index_or (rows_of self.now) frame None }
    {
        self.table.get(frame as usize).copied().flatten()
    }

    // Lends the place of one frame's row, to be changed there.
    pub fn lend(&mut self, frame: u32) -> Option<&mut Option<Row>>
        ensures* writes_back { sem 𝓛 (LendsIf table_row (option row_row) self.entry result (set_at (rows_of self.old) frame) self.old) }
        ensures places { length (rows_of self.old) ≡ desktop.frames }
        ensures facts { (is_some result ≡ nat_lt frame desktop.frames) × IfSome result (λ x. x.now ≡ slice_index_or (rows_of self.old) frame x.now) }
    {
        self.table.get_mut(frame as usize)
    }

    // Puts a row, or none, in a frame's place.
    pub fn set(&mut self, frame: u32, row: Option<Row>)
        ensures { rows_of self.new ≡ set_at (rows_of self.old) frame row }
    {
        if let Some(place) = self.lend(frame) {
            *place = row;
        }
    }

    // The frame that serves a class, with its row: of the frames of the class with a free slot, the one with most
    // occupied slots, and of equals the one with the lowest number.
    pub fn serving(&self, class: u8) -> Option<(u32, Row)>
        ensures best { result ≡ best_serving desktop class (rows_of self.now) }
        ensures serves { (f : ℕ) (row : Row) → result ≡ Some (f, row) → row_serves desktop class row ≡ true }
    {
        let mut best = None;
        for (frame, row) in self.table.iter().enumerate() {
            best = better(class, frame as u32, *row, best);
        }
        best
    }

    // The frames of a class, in rising number.
    pub fn list(&self, class: u8) -> ArrayVec<u32, 64>
        ensures frames { result.items ≡ listed desktop class (rows_of self.now) }
        ensures few { length result.items ≤ 64 }
    {
        let mut frames = ArrayVec::new();
        for (frame, row) in self.table.iter().enumerate() {
            if is_of_class(class, *row) {
                frames.push(frame as u32);
            }
        }
        frames
    }

    // The mask of a frame; one that has no row has no slot occupied.
    fn mask(&self, frame: u32) -> u64
        ensures { result ≡ mask_of (slice_index_or (rows_of self.now) frame None) }
    {
        self.row(frame).map_or(0, |row| row.mask)
    }

    // The masks of frames, in their order, into a buffer as long as their list. (The buffer is the caller's: a list of
    // any length may be passed, so one that is answered would need the heap.)
    pub fn masks(&self, frames: &[u32], masks: &mut [u64])
        requires { length masks.old ≡ length frames.now }
        ensures { masks.new ≡ masks_of (rows_of self.now) frames.now }
    {
        // By index, since after a loop over `iter_mut().zip(..)` a proof knows no element (tried in `joining`).
        for (i, mask) in masks.iter_mut().enumerate() {
            *mask = self.mask(frames[i]);
        }
    }

    // How many frames are out.
    pub fn out(&self) -> u32
        ensures { result ≡ tally desktop.frames (λ f. is_some (slice_index_or (rows_of self.now) f None)) }
    {
        self.table.iter().filter(|row| row.is_some()).count() as u32
    }
}

// Whether there is a row, of the class.
fn is_of_class(class: u8, row: Option<Row>) -> bool
    ensures { result ≡ of_class class row }
{
    row.is_some_and(|row| row.class == class)
}

// Whether a row is of the class and has a free slot.
fn serves(class: u8, row: Row) -> bool
    ensures { result ≡ row_serves desktop class row }
{
    row.class == class && occupied(row.mask) < slots(class)
}

// The better of the frame held so far and another one.
fn better(class: u8, frame: u32, row: Option<Row>, held: Option<(u32, Row)>) -> Option<(u32, Row)>
    ensures { result ≡ better_of desktop class frame row held }
{
    let Some(row) = row.filter(|row| serves(class, *row)) else {
        return held;
    };
    if held.is_none_or(|(_, best)| occupied(best.mask) < occupied(row.mask)) {
        Some((frame, row))
    } else {
        held
    }
}
