// A quota: any other bank, of which at most so many frames are out at a time.
ghost use Rattle.std.specs.Prelude.{◌≡◌, ℕ, ◌+◌, ◌<◌, ◌≤◌, length, Ok};
ghost use Rattle.bank.specs.Model.{most_frames, reset as resetting, grant as granting, give_back as giving, read as reading, write as writing};
ghost use Rattle.bank.specs.Sound.{Proper, Sound};
ghost use Rattle.banks.specs.Quota.{limited, quota_of, Balanced, KeepsQuota, QuotaSound};

use bank::Bank;
use refusal::Refusal;

// A bank below, and how many of its frames may be out. Its opening list is the front of the one below, `limit` entries
// long, and its spare list the front that is `left` long: the limit less the frames out. All else is as below. It has no
// `impl Model`: what a bank means holds functions, and a function has no code (tried). That the limit and the balance are
// kept stands in each contract, and in no ghost field, since every value of the fields is a quota over some bank.
#[derive(Drop)]
pub struct Quota<B> {
    below: B,
    limit: u8,
    left: u8,
}

impl<B: Bank> Quota<B> {
    // The quota over a bank, which is reset.
    #[tactic(auto, using(crate::proofs::Limits::marks_none))]
    pub fn new(mut below: B, limit: u8) -> Quota<B>
        ensures below { B.model result.below ≡ resetting (B.model below) }
        ensures model { quota_of B.model result ≡ resetting (limited limit limit (B.model below)) }
        ensures limit { result.limit ≡ limit }
        ensures balanced { Balanced limit result.left (B.model result.below) }
        ensures sound { Sound (B.model result.below) }
    {
        below.reset();
        Quota {
            below,
            limit,
            left: limit,
        }
    }

    // Counts one more frame that is out.
    fn count_out(&mut self)
        requires { 0 < self.old.left }
        ensures below { self.new.below ≡ self.old.below }
        ensures limit { self.new.limit ≡ self.old.limit }
        ensures left { self.new.left + 1 ≡ self.old.left }
    {
        self.left -= 1;
    }
}

// The trait's clauses stand again, since a method's own replace them, and here neither `model` nor `Self.model` is a name.
impl<B: Bank> Bank for Quota<B> {
    ghost model = { quota_of B.model };

    #[tactic(auto, using(crate::proofs::Limits::marks_none, crate::proofs::Limits::proper_front))]
    fn reset(&mut self)
        ensures after { quota_of B.model self.new ≡ resetting (quota_of B.model self.old) }
        ensures few { (quota_of B.model self.old).size ≤ most_frames }
        ensures proper { Proper (quota_of B.model self.old).size (quota_of B.model self.old).opening }
        ensures limit { self.new.limit ≡ self.old.limit }
        ensures balanced { Balanced self.old.limit self.new.left (B.model self.new.below) }
    {
        let Quota { below, limit, left } = self;
        below.reset();
        *left = *limit;
    }

    fn grant(&mut self) -> Result<u32, Refusal>
        ensures step { (result, quota_of B.model self.new) ≡ granting (quota_of B.model self.old) }
        ensures bound { (f : ℕ) → result ≡ Ok f → f < most_frames }
        ensures quota { KeepsQuota B.model self.old self.new }
    {
        if self.left == 0 {
            return Err(Refusal::Frames);
        }
        let frame = self.below.grant()?;
        self.count_out();
        Ok(frame)
    }

    #[tactic(auto, using(crate::proofs::Limits::quota_give_back))]
    fn give_back(&mut self, frame: u32) -> Result<(), Refusal>
        ensures step { (result, quota_of B.model self.new) ≡ giving frame (quota_of B.model self.old) }
        ensures few { length (quota_of B.model self.old).spare ≤ most_frames }
        ensures quota { KeepsQuota B.model self.old self.new }
    {
        self.below.give_back(frame)?;
        self.left = self.left.saturating_add(1);
        Ok(())
    }

    fn read(&mut self, frame: u32, offset: u32, buffer: &mut [u8]) -> Result<(), Refusal>
        ensures step { (result, buffer.new) ≡ reading frame offset buffer.old (quota_of B.model self.old) }
        ensures same { quota_of B.model self.new ≡ quota_of B.model self.old }
        ensures quota { KeepsQuota B.model self.old self.new }
    {
        self.below.read(frame, offset, buffer)
    }

    fn write(&mut self, frame: u32, offset: u32, buffer: &[u8]) -> Result<(), Refusal>
        ensures step { (result, quota_of B.model self.new) ≡ writing frame offset buffer.now (quota_of B.model self.old) }
        ensures quota { KeepsQuota B.model self.old self.new }
    {
        self.below.write(frame, offset, buffer)
    }

    fn size(&mut self) -> u32
        ensures size { result ≡ (quota_of B.model self.old).size }
        ensures few { result ≤ most_frames }
        ensures same { quota_of B.model self.new ≡ quota_of B.model self.old }
        ensures quota { KeepsQuota B.model self.old self.new }
    {
        self.below.size()
    }
}

// A quota over a sound bank is sound.
pub fn quota_sound()
    ensures { QuotaSound }
{}
