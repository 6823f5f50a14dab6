// The plain values of a pool, as the pool keeps them and as its definition in specs/ speaks of them.
#![tactic(auto)]

ghost use Rattle.std.specs.Prelude.{◌≡◌};
ghost use Rattle.model.specs.Mesh.{both};
ghost use Rattle.model.specs.Sums.{CanAdd};

use std::ops::Add;

// A live patch: the span and the slot where it stands, and how many bytes it has.
#[derive(Clone, Copy, PartialEq, Eq, Debug)]
pub struct Patch {
    pub span: u8,
    pub slot: u8,
    pub length: u16,
}

// The row of a frame that is out: the class of its slots, its mask of occupied slots (bit s is slot s), and its home
// span. A class is a number and no enum: it is an index into a geometry's list of slot sizes, of any length, and the
// definitions and the laws stand over every geometry. (A call that takes a class takes any number, too.)
#[derive(Clone, Copy, PartialEq, Eq, Debug)]
pub struct Row {
    pub class: u8,
    pub mask: u64,
    pub home: u8,
}

// A span is a stretch of addresses as long as a frame. It is idle, the home of a frame (the frame was granted for it)
// or an alias of one (a merge laid its own frame onto that one).
#[derive(Clone, Copy, PartialEq, Eq, Debug)]
pub enum Span {
    Idle,
    Home(u32),
    Alias(u32),
}

// What happens to the spans.
#[derive(Clone, Copy, PartialEq, Eq, Debug)]
pub enum Event {
    // An idle span becomes the home of this frame.
    Open(u32),
    // The first frame was laid onto the second: its home and its aliases become aliases of the second.
    Merge(u32, u32),
    // This frame holds no patch any more: its home and its aliases become idle.
    Empty(u32),
}

// What `new` answers: the address of the patch, and whether a span was opened for it. Both always say something, so
// they are one answer of two facts and no Option.
#[derive(Clone, Copy, PartialEq, Eq, Debug)]
pub struct Made {
    pub address: u32,
    pub opened: bool,
}

// What `mesh` answers: how many merges were made, and how many bytes they copied.
#[derive(Clone, Copy, PartialEq, Eq, Debug, Default)]
pub struct Meshed {
    pub merges: u32,
    pub bytes: u32,
}

// What two meshes did together.
impl Add for Meshed {
    type Output = Meshed;

    ghost can_add = { CanAdd };

    ghost add_gives = { λ a b r. r ≡ both a b };

    fn add(self, more: Meshed) -> Meshed {
        Meshed {
            merges: self.merges + more.merges,
            bytes: self.bytes + more.bytes,
        }
    }
}

// What `count` answers: frames out, spans that are not idle, live labels.
#[derive(Clone, Copy, PartialEq, Eq, Debug)]
pub struct Counts {
    pub frames: u32,
    pub spans: u32,
    pub labels: u32,
}
