// Whether two pools hold the same bytes in every frame. As in `readings`, each contract says that its pools stay as they were.
ghost use Rattle.std.specs.Prelude.{◌≡◌, Decides};
ghost use Rattle.bank.specs.Model.{most_frames};
ghost use Rattle.pool.specs.View.{state_of};
ghost use Rattle.verdicts.specs.Apart.{FirstApart};
ghost use Rattle.verdicts.specs.Held.{held};

use bank::{Bank, MOST_FRAMES};
use pool::Pool;

// The bytes of a frame; zeros for one that is not out.
fn frame_bytes<B: Bank, P>(pool: &mut Pool<B, P>, frame: u32) -> [u8; 1024]
    ensures bytes { result ≡ held (state_of B.model pool.old).bank frame }
    ensures same { state_of B.model pool.new ≡ state_of B.model pool.old }
{
    let mut bytes = [0; 1024];
    let _ = pool.frame(frame, &mut bytes);
    bytes
}

// Whether two pools hold the same bytes in a frame.
fn same_frame<B: Bank, P, C: Bank, Q>(
    one: &mut Pool<B, P>,
    two: &mut Pool<C, Q>,
    frame: u32,
) -> bool
    ensures same { Decides result (held (state_of B.model one.old).bank frame ≡ held (state_of C.model two.old).bank frame) }
    ensures one { state_of B.model one.new ≡ state_of B.model one.old }
    ensures two { state_of C.model two.new ≡ state_of C.model two.old }
{
    frame_bytes(one, frame) == frame_bytes(two, frame)
}

// The lowest frame in which two pools hold different bytes, of all that a bank can have; none where they hold the same
// in every frame. A frame that is not out, or that a bank does not have, counts as zeros.
pub fn frames_differ<B: Bank, P, C: Bank, Q>(
    one: &mut Pool<B, P>,
    two: &mut Pool<C, Q>,
) -> Option<u32>
    ensures apart { FirstApart (held (state_of B.model one.old).bank) (held (state_of C.model two.old).bank) most_frames result }
    ensures one { state_of B.model one.new ≡ state_of B.model one.old }
    ensures two { state_of C.model two.new ≡ state_of C.model two.old }
{
    // A chain with `find` was tried: its closure changes both pools, and after it nothing is known of what they hold.
    for frame in 0..MOST_FRAMES {
        if !same_frame(one, two, frame) {
            return Some(frame);
        }
    }
    None
}
