// The lane bank: byte i of frame f lies at byte 512 × f + i / 2, of its first memory for even i, of its second for odd.
ghost use Rattle.std.specs.Prelude.{◌≡◌, ◌*◌, ◌<◌, ◌≤◌, length};
ghost use Rattle.bank.specs.Sound.{Sound};
ghost use Rattle.bank.specs.Tables.{put};
ghost use Rattle.banks.specs.Memory.{lane_frames, woven, checked, cleared};
ghost use Rattle.banks.specs.Frames.{lane_bank, fresh, LanesEndToEnd};

use super::count::FrameCount;
use super::frames::FrameBank;
use super::store::Store;
use refusal::Refusal;

// How many frames two memories have together.
fn lane_frames(first: &[u8], second: &[u8]) -> FrameCount
    ensures { result.frames ≡ lane_frames (length first.now) (length second.now) }
{
    if first.len() == second.len() {
        FrameCount::of_bytes(first.len() + second.len())
    } else {
        FrameCount::none()
    }
}

// Two memories that a caller lends, one for the bytes at even places and one for those at odd places.
#[derive(Drop)]
pub struct LaneMemory<'a> {
    first: &'a mut [u8],
    second: &'a mut [u8],
}

impl LaneMemory<'_> {
    // The byte at a place.
    fn get(&self, at: usize) -> u8
        requires { at < 1024 * lane_frames (length self.now.first.now) (length self.now.second.now) }
        ensures { result ≡ woven self.now.first.now self.now.second.now at }
    {
        if at % 2 == 0 {
            self.first[at / 2]
        } else {
            self.second[at / 2]
        }
    }

    // Puts a byte at a place.
    fn set(&mut self, at: usize, value: u8)
        requires { at < 1024 * lane_frames (length self.old.first.now) (length self.old.second.now) }
        ensures bytes { woven self.new.first.now self.new.second.now ≡ put (woven self.old.first.now self.old.second.now) at value }
        ensures first { length self.new.first.now ≡ length self.old.first.now }
        ensures second { length self.new.second.now ≡ length self.old.second.now }
    {
        if at % 2 == 0 {
            self.first[at / 2] = value;
        } else {
            self.second[at / 2] = value;
        }
    }
}

impl Store for LaneMemory<'_> {
    ghost frames = { λ s. lane_frames (length s.first.now) (length s.second.now) };

    ghost byte = { λ s. woven s.first.now s.second.now };

    fn frames(&self) -> FrameCount {
        lane_frames(self.first, self.second)
    }

    fn read(&self, at: usize, buffer: &mut [u8]) {
        for (i, byte) in buffer.iter_mut().enumerate() {
            *byte = self.get(at + i);
        }
    }

    fn write(&mut self, at: usize, buffer: &[u8]) {
        for (i, byte) in buffer.iter().enumerate() {
            self.set(at + i, *byte);
        }
    }

    fn clear(&mut self, at: usize, count: usize) {
        for place in at..at + count {
            self.set(place, 0);
        }
    }
}

pub type LaneBank<'a> = FrameBank<LaneMemory<'a>>;

impl<'a> LaneBank<'a> {
    // Whether two memories can be cut into frames: both of one length, 1 to 64 frames with no byte left over.
    pub fn check(first: &[u8], second: &[u8]) -> Result<(), Refusal>
        ensures { result ≡ checked (lane_frames (length first.now) (length second.now)) }
    {
        lane_frames(first, second).check()
    }

    // The bank over two memories, which are cleared. Memories that do not pass the check make a bank with no frames,
    // and are left as they are.
    pub fn new(first: &'a mut [u8], second: &'a mut [u8]) -> LaneBank<'a>
        ensures first { result.store.first.now ≡ cleared (lane_frames (length first.old) (length second.old)) first.old }
        ensures second { result.store.second.now ≡ cleared (lane_frames (length first.old) (length second.old)) second.old }
        ensures model { lane_bank result.store.first.now result.store.second.now result.spares ≡ fresh (lane_frames (length first.old) (length second.old)) }
        ensures sound { Sound (lane_bank result.store.first.now result.store.second.now result.spares) }
    {
        let frames = lane_frames(first, second);
        frames.clear(first);
        frames.clear(second);
        FrameBank::opened(LaneMemory { first, second })
    }
}

// The memories of a lane bank are its frames' lanes, after any call.
pub fn lanes_are_end_to_end()
    ensures { LanesEndToEnd }
{}
