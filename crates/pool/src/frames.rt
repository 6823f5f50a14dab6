// What a pool's bank holds, for those who would see every byte of it.
ghost use Rattle.std.specs.Prelude.{◌≡◌};
ghost use Rattle.bank.specs.Model.{read as read_frame};
ghost use Rattle.model.specs.Geometry.{desktop};
ghost use Rattle.model.specs.Calls.{count};
ghost use Rattle.pool.specs.View.{state_of};

use crate::Pool;
use bank::Bank;
use refusal::Refusal;

impl<B: Bank, P> Pool<B, P> {
    // How many frames are out: the first number of `count`, alone.
    pub fn frames_out(&mut self) -> u32
        ensures out { result ≡ (count desktop (state_of B.model self.old)).frames }
        ensures same { state_of B.model self.new ≡ state_of B.model self.old }
    {
        self.rows.out()
    }

    // How many frames the pool's bank has.
    pub fn size(&mut self) -> u32
        ensures size { result ≡ (state_of B.model self.old).bank.size }
        ensures same { state_of B.model self.new ≡ state_of B.model self.old }
    {
        self.bank.size()
    }

    // Fills the buffer with the bytes of a frame that is out, from its start.
    //
    // EDGE where the buffer is longer than a frame, NOT OUT for a frame that is not out.
    pub fn frame(&mut self, frame: u32, buffer: &mut [u8]) -> Result<(), Refusal>
        ensures step { (result, buffer.new) ≡ read_frame frame 0 buffer.old (state_of B.model self.old).bank }
        ensures same { state_of B.model self.new ≡ state_of B.model self.old }
    {
        self.bank.read(frame, 0, buffer)
    }
}
