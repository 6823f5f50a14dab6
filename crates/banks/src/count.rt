// How many frames a bank has.
ghost use Rattle.std.specs.Prelude.{◌≡◌, ◌*◌, ◌≤◌};
ghost use Rattle.bank.specs.Model.{most_frames};
ghost use Rattle.banks.specs.Memory.{whole_frames, checked, cleared, place};

use bank::{FRAME_BYTES, MOST_FRAMES};
use refusal::Refusal;

// A number of frames, which is never more than a bank can have.
#[derive(Clone, Copy)]
pub struct FrameCount {
    pub frames: u32,
    ghost few: { frames ≤ most_frames },
}

impl FrameCount {
    // How many frames a memory of so many bytes has. A memory that cannot be cut into frames has none, and is no refusal
    // here: a bank over it is a bank with no frames.
    pub fn of_bytes(bytes: usize) -> FrameCount
        ensures value { result.frames ≡ whole_frames bytes }
        ensures within { 1024 * result.frames ≤ bytes }
    {
        let frames = bytes / FRAME_BYTES as usize;
        if bytes % FRAME_BYTES as usize == 0 && frames <= MOST_FRAMES as usize {
            FrameCount {
                frames: frames as u32,
            }
        } else {
            FrameCount::none()
        }
    }

    // No frames.
    pub fn none() -> FrameCount
        ensures { result.frames ≡ 0 }
    {
        FrameCount { frames: 0 }
    }

    // How many bytes the frames have together.
    pub fn bytes(self) -> usize
        ensures { result ≡ place self.frames 0 }
    {
        self.frames as usize * FRAME_BYTES as usize
    }

    // What the check of a memory answers that has so many frames: ROW where it has none.
    pub fn check(self) -> Result<(), Refusal>
        ensures { result ≡ checked self.frames }
    {
        if self.frames == 0 {
            Err(Refusal::Row)
        } else {
            Ok(())
        }
    }

    // Clears a memory that has frames.
    pub fn clear(self, memory: &mut [u8])
        ensures { memory.new ≡ cleared self.frames memory.old }
    {
        if self.frames > 0 {
            memory.fill(0);
        }
    }
}
