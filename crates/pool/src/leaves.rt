// The call that takes a patch out of the pool.
ghost use Rattle.std.specs.Prelude.{◌≡◌, Some};
ghost use Rattle.model.specs.Geometry.{desktop};
ghost use Rattle.model.specs.Calls.{delete as delete_step, clearing, freed, emptied};
ghost use Rattle.bank.specs.Model.{give_back as giving};
ghost use Rattle.pool.specs.View.{state_of};

use crate::Pool;
use crate::held::Held;
use bank::Bank;
use copying::clear_slot;
use model::{Patch, Row};
use refusal::Refusal;
use tables::geometry::{class_of, slot_size, slot_start};
use tables::masks::without_slot;

impl<B: Bank, P> Pool<B, P> {
    // Deletes the label's patch: its whole slot is cleared in the frame, and its bit in the mask. Answers whether the
    // frame was left empty; then it is given back, and its home and all its aliases are idle.
    //
    // ABSENT for a label that is not live.
    pub fn delete(&mut self, label: u8) -> Result<bool, Refusal>
        ensures { (result, state_of B.model self.new) ≡ delete_step desktop label (state_of B.model self.old) }
    {
        let patch = self.labels.patch(label).ok_or(Refusal::Absent)?;
        let frame = self.spans.frame(patch.span).ok_or(Refusal::NotOut)?;
        let held = self.held(frame).ok_or(Refusal::NotOut)?;
        self.clear(label, patch, held)
    }

    // Clears the slot of a patch, and its bit in the row of its frame.
    fn clear(&mut self, label: u8, patch: Patch, held: Held) -> Result<bool, Refusal>
        ensures { (result, state_of B.model self.new) ≡ clearing desktop label patch held.frame (Some held.row) (state_of B.model self.old) }
    {
        let size = slot_size(class_of(patch.length));
        clear_slot(
            &mut self.bank,
            held.frame,
            slot_start(patch.length, patch.slot),
            size,
        )?;
        let row = Row {
            mask: without_slot(held.row.mask, patch.slot),
            ..held.row
        };
        self.free(label, Held { row, ..held })
    }

    // Keeps what is left of a frame's row, or gives the frame back.
    fn free(&mut self, label: u8, left: Held) -> Result<bool, Refusal>
        ensures { (result, state_of B.model self.new) ≡ freed desktop label left.frame left.row (state_of B.model self.old) }
    {
        if left.row.mask == 0 {
            return self.give_up(label, left.frame);
        }
        self.labels.set(label, None);
        self.rows.set(left.frame, Some(left.row));
        Ok(false)
    }

    // Gives back a frame that holds no patch any more.
    fn give_up(&mut self, label: u8, frame: u32) -> Result<bool, Refusal>
        ensures { (result, state_of B.model self.new) ≡ emptied desktop label frame (giving frame (B.model self.old.bank)) (state_of B.model self.old) }
    {
        self.bank.give_back(frame)?;
        self.labels.set(label, None);
        self.spans.empty(frame);
        self.rows.set(frame, None);
        Ok(true)
    }
}
