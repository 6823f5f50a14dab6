// The flat bank: frame f lies at bytes 1,024 × f onward of one memory.
ghost use Rattle.std.specs.Prelude.{◌≡◌, length, slice_index};
ghost use Rattle.bank.specs.Sound.{Sound};
ghost use Rattle.banks.specs.Memory.{whole_frames, checked, cleared};
ghost use Rattle.banks.specs.Frames.{flat_bank, fresh, FlatEndToEnd};

use super::count::FrameCount;
use super::frames::FrameBank;
use super::store::Store;
use refusal::Refusal;

// One memory that a caller lends.
#[derive(Drop)]
pub struct FlatMemory<'a> {
    memory: &'a mut [u8],
}

impl Store for FlatMemory<'_> {
    ghost frames = { λ s. whole_frames (length s.memory.now) };

    ghost byte = { λ s k. slice_index s.memory.now k };

    fn frames(&self) -> FrameCount {
        FrameCount::of_bytes(self.memory.len())
    }

    fn read(&self, at: usize, buffer: &mut [u8]) {
        let end = at + buffer.len();
        buffer.copy_from_slice(&self.memory[at..end]);
    }

    fn write(&mut self, at: usize, buffer: &[u8]) {
        let end = at + buffer.len();
        self.memory[at..end].copy_from_slice(buffer);
    }

    fn clear(&mut self, at: usize, count: usize) {
        self.memory[at..at + count].fill(0);
    }
}

pub type FlatBank<'a> = FrameBank<FlatMemory<'a>>;

impl<'a> FlatBank<'a> {
    // Whether a memory can be cut into frames: 1 to 64 of them, with no byte left over.
    pub fn check(memory: &[u8]) -> Result<(), Refusal>
        ensures { result ≡ checked (whole_frames (length memory.now)) }
    {
        FrameCount::of_bytes(memory.len()).check()
    }

    // The bank over a memory, which is cleared. A memory that does not pass the check makes a bank with no frames, and
    // is left as it is.
    pub fn new(memory: &'a mut [u8]) -> FlatBank<'a>
        ensures memory { result.store.memory.now ≡ cleared (whole_frames (length memory.old)) memory.old }
        ensures model { flat_bank result.store.memory.now result.spares ≡ fresh (whole_frames (length memory.old)) }
        ensures sound { Sound (flat_bank result.store.memory.now result.spares) }
    {
        FrameCount::of_bytes(memory.len()).clear(memory);
        FrameBank::opened(FlatMemory { memory })
    }
}

// The memory of a flat bank is its frames end to end, after any call.
pub fn flat_is_end_to_end()
    ensures { FlatEndToEnd }
{}
