// The sizes of the desktop unit: classes of slots, and where a slot lies in its frame.
ghost use Rattle.std.specs.Prelude.{◌≡◌, ◌*◌, ◌≤◌};
ghost use Rattle.model.specs.Geometry.{desktop, class_of as class_for, slot_size, slots as slots_of, slot_offset, address_of as address_in};

pub use bank::FRAME_BYTES;
use model::Patch;

// The addresses of all spans lie below this: there are 128, each as long as a frame.
pub const ADDRESSES: u32 = 128 * FRAME_BYTES;

// The longest patch, which fills a slot of the last class.
pub const LONGEST: u32 = 512;

// The bytes of a slot of each class.
const SLOT_SIZES: [u32; 6] = [16, 32, 64, 128, 256, 512];

// The least class whose slot holds a patch of this length: a match over ranges, since a table would need an entry for
// each of 513 lengths. A class is a number and no enum: it is an index into a geometry's list of slot sizes, which may
// have any length in the definitions and laws, and one past its end means a whole frame, so an enum would have to be
// turned into that number in every contract; and the public calls that take a class take any number.
#[tactic(auto, using(std::proofs::lemmas::Bool::Decides::nat_tests), unfolding(model::specs::Geometry::class_of))]
pub fn class_of(length: u16) -> u8
    ensures class { result ≡ class_for desktop length }
{
    match length {
        0..=16 => 0,
        17..=32 => 1,
        33..=64 => 2,
        65..=128 => 3,
        129..=256 => 4,
        257..=512 => 5,
        _ => 6,
    }
}

// The bytes of a slot of a class.
#[tactic(auto, unfolding(model::specs::Geometry::slot_size))]
pub fn slot_size(class: u8) -> u32
    ensures size { result ≡ slot_size desktop class }
    ensures low { 16 ≤ result }
    ensures high { result ≤ 1024 }
{
    SLOT_SIZES
        .get(class as usize)
        .copied()
        .unwrap_or(FRAME_BYTES)
}

// How many slots of a class a frame has.
pub fn slots(class: u8) -> u32
    ensures slots { result ≡ slots_of desktop class }
    ensures high { result ≤ 64 }
{
    FRAME_BYTES / slot_size(class)
}

// Where, in its frame, the slot of a patch begins. (Length and slot, and no `Patch`: where a slot begins in its frame has
// nothing to do with a span.)
pub fn slot_start(length: u16, slot: u8) -> u32
    ensures start { result ≡ slot_offset desktop length slot }
    ensures high { result ≤ 1024 * slot }
{
    slot_size(class_of(length)) * slot as u32
}

// The address of a patch: spans lie end to end, each as long as a frame.
pub fn address_of(patch: Patch) -> u32
    ensures address { result ≡ address_in desktop patch }
    ensures high { result ≤ 2048 * 255 }
{
    FRAME_BYTES * patch.span as u32 + slot_start(patch.length, patch.slot)
}
