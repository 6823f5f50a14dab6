// The calls of a pool. Each one answers, fills its buffer and leaves the pool exactly as its definition says, over
// every bank and every pairing, refusals included.
ghost use Rattle.std.specs.Prelude.{◌≡◌, ◌+◌, ◌<◌, ◌≤◌, Ok, Result, nat_le};
ghost use Rattle.refusal.specs.declared.Refusal.{Refusal as Refused};
ghost use Rattle.bank.specs.Model.{most_frames};
ghost use Rattle.bank.specs.Sound.{Proper};
ghost use Rattle.draws.specs.Draws.{next};
ghost use Rattle.model.specs.declared.Made.{Made as MadeOf};
ghost use Rattle.model.specs.Geometry.{desktop, slots as slots_of};
ghost use Rattle.model.specs.State.{State, opened as opened_pool, frame_of as frame_in};
ghost use Rattle.model.specs.Calls.{occupied as occupied_in, placed, opening, lowest_idle, new as new_step, write as write_step, read as read_step, fetch as fetch_step, place as place_step, count as count_step};
ghost use Rattle.tables.specs.Views.{spans_of};
ghost use Rattle.pool.specs.View.{state_of};
ghost use Rattle.pool.specs.Spots.{spot_in, spot_for};

use crate::Pool;
use crate::held::Held;
use bank::Bank;
use draws::Draws;
use model::{Counts, Made, Patch, Row};
use refusal::Refusal;
use tables::geometry::{ADDRESSES, LONGEST, address_of, class_of, slot_start, slots};
use tables::labels::Labels;
use tables::masks::{free_slot, occupied, with_slot};
use tables::rows::Rows;
use tables::spans::Spans;

// Whether a stretch ends within a patch.
fn within(offset: u32, count: usize, length: u16) -> bool
    ensures { result ≡ nat_le (offset + count) length }
{
    count
        .checked_add(offset as usize)
        .is_some_and(|end| end <= length as usize)
}

// A place in a frame: `offset` bytes from its start.
#[derive(Clone, Copy)]
struct Spot {
    frame: u32,
    offset: u32,
}

impl<B: Bank, P> Pool<B, P> {
    // Opens a pool: the bank is reset, no label is live, all spans are idle.
    pub fn open(mut bank: B, pairing: P, seed: u32) -> Pool<B, P>
        ensures opened { state_of B.model result ≡ opened_pool desktop (B.model bank) pairing seed }
        ensures few { (B.model bank).size ≤ most_frames }
        ensures proper { Proper (B.model bank).size (B.model bank).opening }
    {
        bank.reset();
        Pool {
            bank,
            pairing,
            draws: Draws::new(seed),
            labels: Labels::new(),
            spans: Spans::new(),
            rows: Rows::new(),
        }
    }

    // A new patch of `length` zeros under a label: its address, and whether a span was opened for it.
    //
    // SIZE for a length of 0 or above 512, TAKEN for a live label, SPANS where a span is needed and none is idle,
    // FRAMES where a frame is needed and none is spare.
    pub fn new(&mut self, label: u8, length: u32) -> Result<Made, Refusal>
        ensures { (result, state_of B.model self.new) ≡ new_step desktop label length (state_of B.model self.old) }
    {
        if length == 0 || length > LONGEST {
            return Err(Refusal::Size);
        }
        if self.labels.patch(label).is_some() {
            return Err(Refusal::Taken);
        }
        match self.rows.serving(class_of(length as u16)) {
            Some((frame, row)) => {
                Ok(self.take_slot(label, length as u16, Held { frame, row }, false))
            }
            None => self.open_span(label, length as u16),
        }
    }

    // Makes the lowest idle span the home of a frame that the bank grants, and the patch in it. (The label and the
    // length are passed on as `new` takes them: a struct for these two numbers alone would be no plainer.)
    fn open_span(&mut self, label: u8, length: u16) -> Result<Made, Refusal>
        ensures { (result, state_of B.model self.new) ≡ opening desktop label length (lowest_idle (state_of B.model self.old).spans desktop.spans) (state_of B.model self.old) }
    {
        let home = self.spans.lowest_idle().ok_or(Refusal::Spans)?;
        let frame = self.bank.grant()?;
        self.spans.open(home, frame);
        let row = Row {
            class: class_of(length),
            mask: 0,
            home,
        };
        Ok(self.take_slot(label, length, Held { frame, row }, true))
    }

    // Takes the free slot that one draw picks in a frame, for the label's patch.
    fn take_slot(&mut self, label: u8, length: u16, held: Held, opened: bool) -> Made
        requires { occupied_in desktop held.row < slots_of desktop held.row.class }
        ensures { ◌≡◌ {A = Result MadeOf Refused × State P} (Ok result, state_of B.model self.new) (placed desktop label length held.frame held.row opened (next self.old.draws.state) (state_of B.model self.old)) }
    {
        let row = held.row;
        let drawn = self.draws.draw();
        let free = slots(row.class) - occupied(row.mask);
        let slot = free_slot(row.mask, drawn % free);
        let taken = Row {
            mask: with_slot(row.mask, slot),
            ..row
        };
        self.rows.set(held.frame, Some(taken));
        let patch = Patch {
            span: row.home,
            slot,
            length,
        };
        self.labels.set(label, Some(patch));
        Made {
            address: address_of(patch),
            opened,
        }
    }

    // Where the bytes of a patch from the offset on lie, in the frame of its span. (In no run is the span of a live
    // patch idle.)
    fn spot_of(&self, patch: Patch, offset: u32) -> Result<Spot, Refusal>
        requires { offset < 131072 }
        ensures { result ≡ spot_in desktop patch offset (frame_in (spans_of self.now.spans patch.span)) }
    {
        let frame = self.spans.frame(patch.span).ok_or(Refusal::NotOut)?;
        Ok(Spot {
            frame,
            offset: slot_start(patch.length, patch.slot) + offset,
        })
    }

    // Where so many bytes of the label's patch lie, from the offset on.
    //
    // ABSENT for a label that is not live, PAST where they would pass the end of the patch.
    fn spot(&self, label: u8, offset: u32, count: usize) -> Result<Spot, Refusal>
        ensures { result ≡ spot_for desktop label offset count (state_of B.model self.now) }
    {
        let patch = self.labels.patch(label).ok_or(Refusal::Absent)?;
        if !within(offset, count, patch.length) {
            return Err(Refusal::Past);
        }
        self.spot_of(patch, offset)
    }

    // Puts the bytes over those of the label's patch from the offset on, and answers how many there were.
    // (Offset and bytes are two parameters, as in `Bank::write`: a struct for them would be made here only to be taken
    // apart in the next call.)
    //
    // ABSENT for a label that is not live, PAST where they would pass the end of the patch.
    pub fn write(&mut self, label: u8, offset: u32, bytes: &[u8]) -> Result<u32, Refusal>
        ensures { (result, state_of B.model self.new) ≡ write_step desktop label offset bytes.now (state_of B.model self.old) }
    {
        let spot = self.spot(label, offset, bytes.len())?;
        self.bank.write(spot.frame, spot.offset, bytes)?;
        Ok(bytes.len() as u32)
    }

    // Fills the buffer with the bytes of the label's patch from the offset on; refuses as `write` does.
    pub fn read(&mut self, label: u8, offset: u32, buffer: &mut [u8]) -> Result<(), Refusal>
        ensures step { (result, buffer.new) ≡ read_step desktop label offset buffer.old (state_of B.model self.old) }
        ensures same { state_of B.model self.new ≡ state_of B.model self.old }
    {
        let spot = self.spot(label, offset, buffer.len())?;
        self.bank.read(spot.frame, spot.offset, buffer)
    }

    // Fills the buffer with the bytes from an address on, which have to lie in one live patch.
    //
    // ADDRESS for an address past the last span, STRAY where no live patch holds the address and the whole stretch.
    pub fn fetch(&mut self, address: u32, buffer: &mut [u8]) -> Result<(), Refusal>
        ensures step { (result, buffer.new) ≡ fetch_step desktop address buffer.old (state_of B.model self.old) }
        ensures same { state_of B.model self.new ≡ state_of B.model self.old }
    {
        if address >= ADDRESSES {
            return Err(Refusal::Address);
        }
        let label = self
            .labels
            .owner(address, buffer.len())
            .ok_or(Refusal::Stray)?;
        let patch = self.labels.patch(label).ok_or(Refusal::Stray)?;
        let start = self.spot_of(patch, address.saturating_sub(address_of(patch)))?;
        self.bank.read(start.frame, start.offset, buffer)
    }

    // The address of the label's patch; ABSENT for a label that is not live.
    pub fn place(&mut self, label: u8) -> Result<u32, Refusal>
        ensures address { result ≡ place_step desktop label (state_of B.model self.old) }
        ensures same { state_of B.model self.new ≡ state_of B.model self.old }
    {
        let patch = self.labels.patch(label).ok_or(Refusal::Absent)?;
        Ok(address_of(patch))
    }

    // How many frames are out, how many spans are not idle, and how many labels are live.
    pub fn count(&mut self) -> Counts
        ensures counts { result ≡ count_step desktop (state_of B.model self.old) }
        ensures same { state_of B.model self.new ≡ state_of B.model self.old }
    {
        Counts {
            frames: self.rows.out(),
            spans: self.spans.taken(),
            labels: self.labels.live(),
        }
    }
}
