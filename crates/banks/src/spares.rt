// Which frames are out, and the order of the spare ones.
ghost use Rattle.std.specs.Prelude.{◌≡◌, ℕ, ◌+◌, ◌<◌, ◌≤◌, true, false, ◌∷◌, Ok, Some, slice_index_or};
ghost use Rattle.std.specs.List.{range_with_len};
ghost use Rattle.bank.specs.Tables.{put};
ghost use Rattle.banks.specs.Spares.{marked, listed, taken};

use super::count::FrameCount;
use refusal::Refusal;

// The spare frames as a list of links: `head` is the first spare frame, and the link of a spare frame is the one after
// it. A frame that is out has no link. The list ends at a number that is no frame, or at a frame that is out or was
// listed before. So every value of these fields means some list of frames, none of them out and none twice, and nothing
// has to be remembered about them.
// They are places in an array: of these links every value is a list, for any number of frames, and a stack of numbers has
// values with repeats, and ends at a number that it would have to keep.
// `head` is no `Option`: one opening list serves banks of every size, and ends where its numbers pass the bank's.
#[derive(Drop)]
pub struct Spares {
    head: u8,
    links: [Option<u8>; 64],
}

impl Spares {
    // No frame is out, and all are spare, in rising order.
    pub fn opening() -> Spares
        ensures list { (n : ℕ) → n ≤ 64 → listed n result ≡ range_with_len 0 n }
        ensures none { (n : ℕ) → marked n result ≡ (λ f. false) }
    {
        Spares {
            head: 0,
            links: rising(),
        }
    }

    // Whether a frame is out, of a bank with so many frames.
    pub fn is_out(&self, count: FrameCount, frame: u32) -> bool
        ensures { result ≡ marked count.frames self.now frame }
    {
        frame < count.frames && self.links[frame as usize].is_none()
    }

    // Takes the first spare frame and marks it out.
    #[tactic(auto, using(crate::proofs::Steps::taken_past, crate::proofs::Steps::taken_out, crate::proofs::Steps::taken_next))]
    pub fn take(&mut self, count: FrameCount) -> Result<u32, Refusal>
        ensures step { (result, listed count.frames self.new, marked count.frames self.new) ≡ taken (listed count.frames self.old) (marked count.frames self.old) }
        ensures below { (f : ℕ) → result ≡ Ok f → f < count.frames }
    {
        let head = self.head;
        let frame = u32::from(head);
        if frame >= count.frames {
            return Err(Refusal::Frames);
        }
        // By `let .. else`, which the check proves alone: with `ok_or(..)?` only a proof by hand closes, which was tried.
        let Some(next) = self.links[head as usize] else {
            return Err(Refusal::Frames);
        };
        self.links[head as usize] = None;
        self.head = next;
        Ok(frame)
    }

    // Puts a frame first in the list. In a bank where it was out, it is no more.
    pub fn put_first(&mut self, frame: u32)
        requires { frame < 64 }
        ensures list { (n : ℕ) → marked n self.old frame ≡ true → listed n self.new ≡ frame ∷ listed n self.old }
        ensures marks { (n : ℕ) → marked n self.old frame ≡ true → marked n self.new ≡ put (marked n self.old) frame false }
    {
        self.links[frame as usize] = Some(self.head);
        self.head = frame as u8;
    }
}

// The links of the rising list: after each frame comes the next number.
fn rising() -> [Option<u8>; 64]
    ensures { (k : ℕ) → k < 64 → slice_index_or result k (Some 0) ≡ Some (k + 1) }
{
    std::array::from_fn(|frame| Some(frame as u8 + 1))
}
