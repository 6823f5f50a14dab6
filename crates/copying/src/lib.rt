// What a pool does to the bytes of slots: clearing one, and copying those that a merge moves.
#![tactic(auto)]

ghost use Rattle.std.specs.Prelude.{◌≡◌, ℕ, ◌*◌, ◌≤◌, map, length, replicate, Ok};
ghost use Rattle.joining.specs.declared.kinds.Cell.TheVariants.{Empty, Full};
ghost use Rattle.bank.specs.Model.{read as read_step, write as write_step};
ghost use Rattle.model.specs.Geometry.{desktop, places};
ghost use Rattle.model.specs.Masks.{set_bits, set_places};
ghost use Rattle.copying.specs.Done.{done_of};
ghost use Rattle.model.specs.Mesh.{content, cells_read, copied, copies};

use bank::{Bank, FRAME_BYTES};
use joining::{Cell, join_rows};
use refusal::Refusal;
use tables::masks::{is_occupied, occupied};

// A slot has at most the bytes of a frame.
const MOST_BYTES: usize = FRAME_BYTES as usize;

// Puts zeros over a slot. A size stays a number in these contracts: callers have it from `slot_size`, whose contract
// bounds it, and a type for it would ask of callers of these public functions that they make one.
#[tactic(auto, using(crate::proofs::Slots::front_of))]
pub fn clear_slot<B: Bank>(bank: &mut B, frame: u32, offset: u32, size: u32) -> Result<(), Refusal>
    requires { size ≤ 1024 }
    ensures { (result, B.model bank.new) ≡ write_step frame offset (replicate size 0) (B.model bank.old) }
{
    let zeros = [0; MOST_BYTES];
    bank.write(frame, offset, &zeros[..size as usize])
}

// Makes a row the cells of an occupied slot: each is full with its byte, whatever the byte. (By index, here and in
// `fill_bytes`, since after a loop over `iter_mut().zip(..)` a proof knows no element (tried in `joining`).)
fn fill_cells(cells: &mut [Cell], bytes: &[u8])
    requires { length cells.old ≡ length bytes.now }
    ensures { cells.new ≡ map Full bytes.now }
{
    for (i, cell) in cells.iter_mut().enumerate() {
        *cell = Cell::Full(bytes[i]);
    }
}

// The byte of a cell, and 0 for an empty one. (No `From`: that an empty cell counts as 0 is true of a merge alone.)
fn byte_of(cell: Cell) -> u8
    ensures { result ≡ content cell }
{
    match cell {
        Cell::Empty => 0,
        Cell::Full(byte) => byte,
    }
}

// Makes a row the bytes of a row of cells. One function over a closure, for this and for `fill_cells`, would promise a
// relation at each place instead of an equation, and is no plainer.
fn fill_bytes(bytes: &mut [u8], cells: &[Cell])
    requires { length bytes.old ≡ length cells.now }
    ensures { bytes.new ≡ map content cells.now }
{
    for (i, byte) in bytes.iter_mut().enumerate() {
        *byte = byte_of(cells[i]);
    }
}

// Copies the slot at an offset from one frame to the same place of another, whose slot there is free: its cells are
// empty, the source's are full, and what is written is the joined row.
#[tactic(auto, using(crate::proofs::Slots::front_of))]
fn copy_slot<B: Bank>(
    bank: &mut B,
    size: u32,
    from: u32,
    to: u32,
    offset: u32,
) -> Result<(), Refusal>
    requires { size ≤ 1024 }
    ensures { (result, B.model bank.new) ≡ copied size from to offset (B.model bank.old) }
{
    let count = size as usize;
    let mut bytes = [0; MOST_BYTES];
    let mut source = [Cell::Empty; MOST_BYTES];
    let mut destination = [Cell::Empty; MOST_BYTES];
    copy_through(
        bank,
        from,
        to,
        offset,
        &mut bytes[..count],
        &mut source[..count],
        &mut destination[..count],
    )
}

// The same, by way of rows for the bytes and for the cells of both slots. (They are lent, as fronts of arrays: rows that
// are answered as `ArrayVec`s are made, cleared and moved whole for each slot, however short it is, and short slots took
// four times as long; `ArrayVec`s that are used again from slot to slot took up to 1.9 times as long (both tried).)
fn copy_through<B: Bank>(
    bank: &mut B,
    from: u32,
    to: u32,
    offset: u32,
    bytes: &mut [u8],
    source: &mut [Cell],
    destination: &mut [Cell],
) -> Result<(), Refusal>
    requires source { length source.old ≡ length bytes.old }
    requires destination { destination.old ≡ replicate (length bytes.old) Empty }
    ensures { (result, B.model bank.new) ≡ cells_read to offset (read_step from offset bytes.old (B.model bank.old)) (B.model bank.old) }
{
    bank.read(from, offset, bytes)?;
    fill_cells(source, bytes);
    join_rows(destination, source)?;
    fill_bytes(bytes, destination);
    bank.write(to, offset, bytes)
}

// Copies the slots that a mask has occupied, whole, from one frame to the same places of another, and answers how many
// bytes were copied. The size and the frames are parameters, as in the bank's own calls: a struct that is made for each
// merge and used in two functions is no plainer.
pub fn copy_slots<B: Bank>(
    bank: &mut B,
    size: u32,
    from: u32,
    to: u32,
    mask: u64,
) -> Result<u32, Refusal>
    requires { size ≤ 1024 }
    ensures step { (done_of result, B.model bank.new) ≡ copies size from to (set_places (places desktop) mask) (B.model bank.old) }
    ensures bytes { (n : ℕ) → result ≡ Ok n → n ≡ size * set_bits (places desktop) mask }
    ensures few { (n : ℕ) → result ≡ Ok n → n ≤ 65536 }
{
    for slot in 0..64u8 {
        if is_occupied(mask, slot) {
            copy_slot(bank, size, from, to, size * slot as u32)?;
        }
    }
    Ok(size * occupied(mask))
}
