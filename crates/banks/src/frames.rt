// A bank over a store of bytes. Flat and lane banks differ in their store alone.
ghost use Rattle.std.specs.Prelude.{◌≡◌, ℕ, ◌+◌, ◌*◌, ◌<◌, ◌≤◌, false, length, replicate, IfOk, Ok};
ghost use Rattle.std.specs.List.{range_with_len};
ghost use Rattle.bank.specs.Tables.{poke};
ghost use Rattle.banks.specs.Spares.{marked, listed};
ghost use Rattle.bank.specs.Model.{most_frames, reset as resetting, grant as granting, give_back as giving, read as reading, write as writing};
ghost use Rattle.bank.specs.Sound.{Proper};
ghost use Rattle.banks.specs.Frames.{frame_bank, placed};

use super::spares::Spares;
use super::store::Store;
use bank::{Bank, FRAME_BYTES};
use refusal::Refusal;

// A bank whose frames lie end to end in a store. Its calls promise, beside what every bank's do, that a store with no
// frames is left as it is; each says so of before and after the call, which no field can. It has no `impl Model`: what a
// bank means holds functions, and a function has no code (tried).
#[derive(Drop)]
pub struct FrameBank<S> {
    store: S,
    spares: Spares,
}

impl<S> FrameBank<S> {
    // The bank over a store whose frames hold zeros: none is out.
    pub(super) fn opened(store: S) -> FrameBank<S>
        ensures store { result.store ≡ store }
        ensures list { (n : ℕ) → n ≤ 64 → listed n result.spares ≡ range_with_len 0 n }
        ensures none { (n : ℕ) → marked n result.spares ≡ (λ f. false) }
    {
        FrameBank {
            store,
            spares: Spares::opening(),
        }
    }
}

impl<S: Store> FrameBank<S> {
    // Where so many bytes of a frame lie, from the offset on; EDGE where they would pass the end of the frame, NOT OUT
    // for a frame that is not out.
    fn place(&self, frame: u32, offset: u32, bytes: usize) -> Result<usize, Refusal>
        ensures answer { result ≡ placed (S.frames self.now.store) self.now.spares frame offset bytes }
        ensures within { IfOk result (λ at. at + bytes ≤ 1024 * S.frames self.now.store) }
        ensures few { S.frames self.now.store ≤ most_frames }
    {
        let count = self.store.frames();
        if (offset as usize).saturating_add(bytes) > FRAME_BYTES as usize {
            return Err(Refusal::Edge);
        }
        if !self.spares.is_out(count, frame) {
            return Err(Refusal::NotOut);
        }
        Ok(frame as usize * FRAME_BYTES as usize + offset as usize)
    }

    // Clears the frame that begins at a place of the store.
    fn clear_frame(&mut self, at: usize)
        requires { at + 1024 ≤ 1024 * S.frames self.old.store }
        ensures frames { S.frames self.new.store ≡ S.frames self.old.store }
        ensures bytes { S.byte self.new.store ≡ poke (S.byte self.old.store) at (replicate 1024 0) }
        ensures spares { self.new.spares ≡ self.old.spares }
    {
        self.store.clear(at, FRAME_BYTES as usize);
    }

    // Clears all frames. A store with none is left as it is.
    #[tactic(auto, using(crate::proofs::Stretches::zero_within))]
    fn clear_all(&mut self)
        ensures frames { S.frames self.new.store ≡ S.frames self.old.store }
        ensures zeros { (k : ℕ) → k < 1024 * S.frames self.old.store → S.byte self.new.store k ≡ 0 }
        ensures spares { self.new.spares ≡ self.old.spares }
        ensures few { S.frames self.old.store ≤ most_frames }
        ensures idle { S.frames self.old.store ≡ 0 → self.new.store ≡ self.old.store }
    {
        let count = self.store.frames();
        if count.frames > 0 {
            self.store.clear(0, count.bytes());
        }
    }
}

// The trait's clauses stand again, since a method's own replace them, and here neither `model` nor `Self.model` is a name.
impl<S: Store> Bank for FrameBank<S> {
    ghost model = { frame_bank S.frames S.byte };

    fn reset(&mut self)
        ensures after { frame_bank S.frames S.byte self.new ≡ resetting (frame_bank S.frames S.byte self.old) }
        ensures few { (frame_bank S.frames S.byte self.old).size ≤ most_frames }
        ensures proper { Proper (frame_bank S.frames S.byte self.old).size (frame_bank S.frames S.byte self.old).opening }
        ensures idle { S.frames self.old.store ≡ 0 → self.new.store ≡ self.old.store }
    {
        self.spares = Spares::opening();
        self.clear_all();
    }

    fn grant(&mut self) -> Result<u32, Refusal>
        ensures step { (result, frame_bank S.frames S.byte self.new) ≡ granting (frame_bank S.frames S.byte self.old) }
        ensures bound { (f : ℕ) → result ≡ Ok f → f < most_frames }
        ensures store { self.new.store ≡ self.old.store }
    {
        let count = self.store.frames();
        self.spares.take(count)
    }

    fn give_back(&mut self, frame: u32) -> Result<(), Refusal>
        ensures step { (result, frame_bank S.frames S.byte self.new) ≡ giving frame (frame_bank S.frames S.byte self.old) }
        ensures few { length (frame_bank S.frames S.byte self.old).spare ≤ most_frames }
        ensures idle { S.frames self.old.store ≡ 0 → self.new.store ≡ self.old.store }
    {
        let at = self.place(frame, 0, FRAME_BYTES as usize)?;
        self.clear_frame(at);
        self.spares.put_first(frame);
        Ok(())
    }

    #[tactic(auto, using(crate::proofs::Steps::read_placed))]
    fn read(&mut self, frame: u32, offset: u32, buffer: &mut [u8]) -> Result<(), Refusal>
        ensures step { (result, buffer.new) ≡ reading frame offset buffer.old (frame_bank S.frames S.byte self.old) }
        ensures same { frame_bank S.frames S.byte self.new ≡ frame_bank S.frames S.byte self.old }
        ensures store { self.new.store ≡ self.old.store }
    {
        let at = self.place(frame, offset, buffer.len())?;
        self.store.read(at, buffer);
        Ok(())
    }

    #[tactic(auto, using(crate::proofs::Steps::write_placed))]
    fn write(&mut self, frame: u32, offset: u32, buffer: &[u8]) -> Result<(), Refusal>
        ensures step { (result, frame_bank S.frames S.byte self.new) ≡ writing frame offset buffer.now (frame_bank S.frames S.byte self.old) }
        ensures idle { S.frames self.old.store ≡ 0 → self.new.store ≡ self.old.store }
    {
        let at = self.place(frame, offset, buffer.len())?;
        self.store.write(at, buffer);
        Ok(())
    }

    fn size(&mut self) -> u32
        ensures size { result ≡ (frame_bank S.frames S.byte self.old).size }
        ensures few { result ≤ most_frames }
        ensures same { frame_bank S.frames S.byte self.new ≡ frame_bank S.frames S.byte self.old }
        ensures store { self.new.store ≡ self.old.store }
    {
        self.store.frames().frames
    }
}
