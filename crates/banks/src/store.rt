// What a bank keeps its bytes in.
ghost use Rattle.std.specs.Prelude.{◌≡◌, ℕ, ◌+◌, ◌*◌, ◌≤◌, length, replicate};
ghost use Rattle.bank.specs.Tables.{peek, poke};

use super::count::FrameCount;

// A row of bytes that frames lie in, end to end. Three calls ask that a stretch lies within it: that is a fact of their
// numbers and of the store together, so no struct of the numbers alone can have it.
pub trait Store {
    // how many frames it has
    ghost frames: { Self → ℕ };

    // the byte at each place
    ghost byte: { Self → ℕ → ℕ };

    fn frames(&self) -> FrameCount
        ensures { result.frames ≡ frames self.now };

    // Fills the buffer with the bytes from `at` on.
    fn read(&self, at: usize, buffer: &mut [u8])
        requires { at + length buffer.old ≤ 1024 * frames self.now }
        ensures { buffer.new ≡ peek (byte self.now) at (length buffer.old) };

    // Puts the buffer over the bytes from `at` on.
    fn write(&mut self, at: usize, buffer: &[u8])
        requires { at + length buffer.now ≤ 1024 * frames self.old }
        ensures frames { frames self.new ≡ frames self.old }
        ensures bytes { byte self.new ≡ poke (byte self.old) at buffer.now };

    // Puts zeros over `count` bytes from `at` on.
    fn clear(&mut self, at: usize, count: usize)
        requires { at + count ≤ 1024 * frames self.old }
        ensures frames { frames self.new ≡ frames self.old }
        ensures bytes { byte self.new ≡ poke (byte self.old) at (replicate count 0) };
}
