// Masks of occupied slots: bit s is slot s.
ghost use Rattle.std.specs.Prelude.{◌≡◌, ◌<◌, ◌≤◌};
ghost use Rattle.model.specs.Geometry.{desktop, places};
ghost use Rattle.model.specs.Masks.{bit, set_bits, free_place, with_slot as with_bit, without_slot as without_bit};

// How many slots are occupied: the mask's own count of ones.
#[tactic(auto, using(model::proofs::Masks::set_bits_ones), unfolding(model::specs::Geometry::slot_size))]
pub fn occupied(mask: u64) -> u32
    ensures count { result ≡ set_bits (places desktop) mask }
    ensures high { result ≤ 64 }
{
    mask.count_ones()
}

// The free slot that has `below` free slots below it.
pub fn free_slot(mask: u64, below: u32) -> u8
    ensures slot { result ≡ free_place (places desktop) mask below }
    ensures high { result < 64 }
{
    (0..64u8)
        .filter(|slot| !is_occupied(mask, *slot))
        .nth(below as usize)
        .unwrap_or(0)
}

// The mask with one more slot occupied.
pub fn with_slot(mask: u64, slot: u8) -> u64
    requires { slot < 64 }
    ensures { result ≡ with_bit mask slot }
{
    mask | 1 << slot
}

// Whether a slot is occupied; a mask has no slots past its 64 bits.
#[tactic(auto, using(crate::proofs::Bits::bit_past))]
pub fn is_occupied(mask: u64, slot: u8) -> bool
    ensures { result ≡ bit mask slot }
{
    slot < 64 && mask >> slot & 1 == 1
}

// The mask with a slot free.
#[tactic(auto, using(crate::proofs::Bits::set_below))]
pub fn without_slot(mask: u64, slot: u8) -> u64
    ensures { result ≡ without_bit mask slot }
{
    if is_occupied(mask, slot) {
        mask - (1 << slot)
    } else {
        mask
    }
}
