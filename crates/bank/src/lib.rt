// The interface of every bank of frames.
#![tactic(auto)]

ghost use Rattle.std.specs.Prelude.{◌≡◌, ℕ, ◌<◌, ◌≤◌, length, Ok};
ghost use Rattle.bank.specs.Model.{BankState, most_frames, reset as resetting, grant as granting, give_back as giving, read as reading, write as writing};
ghost use Rattle.bank.specs.Sound.{Proper};
ghost use Rattle.bank.specs.Laws.{ResetSound, StaysSound, Regrants, GrantsZeros, RefusalsKeep};

use refusal::Refusal;

// A frame is the unit of memory that a bank hands out, and has this many bytes.
pub const FRAME_BYTES: u32 = 1024;

// A bank has at most this many frames.
pub const MOST_FRAMES: u32 = 64;

// A bank: a store of frames, each of `FRAME_BYTES` bytes, that are granted, read, written and given back.
//
// `model` is all that a bank means: how many frames it has, its opening list and its spare list, which frames are
// out, and the bytes of every frame. Each method answers and leaves exactly what the definition of its call says of
// the meaning, refusals included, and nothing else is promised or seen. Where several refusals apply, the one with
// the lowest number is answered, and a refused call changes neither the bank nor the buffer.
// All calls take `&mut self`, questions too, and say what stays: one form for every call.
// A frame and an offset stay two numbers: any pair of them may be passed, so a struct of both would promise nothing.
pub trait Bank {
    ghost model: { Self → BankState };

    // Clears all frames; none is out, and the spare list is the opening list: numbers of frames, none twice.
    fn reset(&mut self)
        ensures after { model self.new ≡ resetting (model self.old) }
        ensures few { (model self.old).size ≤ most_frames }
        ensures proper { Proper (model self.old).size (model self.old).opening };

    // Takes the first spare frame, marks it out and answers its number; FRAMES where none is spare.
    fn grant(&mut self) -> Result<u32, Refusal>
        ensures step { (result, model self.new) ≡ granting (model self.old) }
        ensures bound { (f : ℕ) → result ≡ Ok f → f < most_frames };

    // Clears a frame that is out and puts it first in the spare list, which is never longer than a bank can be; NOT
    // OUT for any other frame.
    fn give_back(&mut self, frame: u32) -> Result<(), Refusal>
        ensures step { (result, model self.new) ≡ giving frame (model self.old) }
        ensures few { length (model self.old).spare ≤ most_frames };

    // Fills the buffer with the bytes of a frame that is out, from the offset on; EDGE where they would pass the end
    // of the frame, NOT OUT for a frame that is not out.
    fn read(&mut self, frame: u32, offset: u32, buffer: &mut [u8]) -> Result<(), Refusal>
        ensures step { (result, buffer.new) ≡ reading frame offset buffer.old (model self.old) }
        ensures same { model self.new ≡ model self.old };

    // Puts the buffer over the bytes of a frame that is out, from the offset on; refuses as `read` does.
    fn write(&mut self, frame: u32, offset: u32, buffer: &[u8]) -> Result<(), Refusal>
        ensures { (result, model self.new) ≡ writing frame offset buffer.now (model self.old) };

    // How many frames there are.
    fn size(&mut self) -> u32
        ensures size { result ≡ (model self.old).size }
        ensures few { result ≤ most_frames }
        ensures same { model self.new ≡ model self.old };
}

// A bank is sound after a reset, and what each call leaves of a sound bank is sound.
pub fn soundness_stays()
    ensures reset { ResetSound }
    ensures calls { StaysSound }
{}

// A frame that was given back is the next that is granted.
pub fn given_back_is_next()
    ensures { Regrants }
{}

// A frame that a sound bank grants reads as zeros.
pub fn granted_reads_zeros()
    ensures { GrantsZeros }
{}

// A refused call changes neither the bank nor the buffer.
pub fn refusals_keep()
    ensures { RefusalsKeep }
{}
