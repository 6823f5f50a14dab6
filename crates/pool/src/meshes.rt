// The call that tidies a class: frames whose patches fill different slots are laid onto one another.
ghost use Rattle.std.specs.Prelude.{◌≡◌, ◌≤◌, map, length, None, slice_index, slice_index_or};
ghost use Rattle.model.specs.Geometry.{desktop};
ghost use Rattle.model.specs.Mesh.{no_merge, merge as merge_step, merge_into as merging, merged, mesh as mesh_step};
ghost use Rattle.pool.specs.View.{state_of};
ghost use Rattle.pool.specs.Pairings.{meaning_of, places_of, Few};

use crate::Pool;
use crate::held::Held;
use bank::Bank;
use copying::copy_slots;
use joining::{Join, Word};
use model::{Meshed, Row};
use pairing::{Pair, Pairing};
use refusal::Refusal;
use tables::geometry::slot_size;

impl<B: Bank, P> Pool<B, P> {
    // Lays a frame onto another, if their masks join: the source's occupied slots are copied, the destination's mask
    // becomes the join, the source is given back, and its home and aliases become aliases of the destination.
    fn merge_into(&mut self, source: Held, destination: Held) -> Result<Meshed, Refusal>
        ensures step { (result, state_of B.model self.new) ≡ merging desktop source.frame source.row destination.frame destination.row (state_of B.model self.old) }
        ensures few { Few result }
    {
        let mask = Word {
            bits: destination.row.mask,
        };
        let Some(joined) = mask.join(Word {
            bits: source.row.mask,
        }) else {
            return Ok(Meshed::default());
        };
        let bytes = copy_slots(
            &mut self.bank,
            slot_size(source.row.class),
            source.frame,
            destination.frame,
            source.row.mask,
        )?;
        self.bank.give_back(source.frame)?;
        self.spans.merge(source.frame, destination.frame);
        let merged = Row {
            mask: joined.bits,
            ..destination.row
        };
        self.rows.set(destination.frame, Some(merged));
        self.rows.set(source.frame, None);
        Ok(Meshed { merges: 1, bytes })
    }

    // Merges two frames, the one with fewer occupied slots into the other.
    fn merge(&mut self, first: u32, second: u32) -> Result<Meshed, Refusal>
        ensures step { (result, state_of B.model self.new) ≡ merge_step desktop first second (slice_index_or (state_of B.model self.old).rows first None) (slice_index_or (state_of B.model self.old).rows second None) (state_of B.model self.old) }
        ensures few { Few result }
    {
        match (self.held(first), self.held(second)) {
            (Some(one), Some(other)) if one.receives(other) => self.merge_into(other, one),
            (Some(one), Some(other)) => self.merge_into(one, other),
            _ => Ok(Meshed::default()),
        }
    }

    // Merges pairs of frames in their order, and adds up what was done.
    fn merge_all(&mut self, frames: &[u32], pairs: &[Pair]) -> Result<Meshed, Refusal>
        requires { length pairs.now ≤ 32 }
        ensures { (result, state_of B.model self.new) ≡ merged desktop frames.now (map places_of pairs.now) no_merge (state_of B.model self.old) }
    {
        let mut done = Meshed::default();
        for pair in pairs {
            let more = self.merge(frame_at(frames, pair.left), frame_at(frames, pair.right))?;
            done = done + more;
        }
        Ok(done)
    }
}

impl<B: Bank, P: Pairing> Pool<B, P> {
    // Merges the frames of a class as the pairing proposes from their masks, and answers how many merges were made and
    // how many bytes they copied.
    //
    // CLASS for a class above 5.
    pub fn mesh(&mut self, class: u8) -> Result<Meshed, Refusal>
        ensures { (result, state_of B.model self.new) ≡ mesh_step desktop (meaning_of P.pairs P.next) class (state_of B.model self.old) }
    {
        if class > 5 {
            return Err(Refusal::Class);
        }
        let frames = self.rows.list(class);
        let mut masks = [0; 64];
        let masks = &mut masks[..frames.len()];
        self.rows.masks(&frames, masks);
        let mut buffer = [Pair::default(); 32];
        let pairs = propose(&mut self.pairing, masks, &mut buffer);
        self.merge_all(&frames, pairs)
    }
}

// The frame at a place of a list.
fn frame_at(frames: &[u32], place: u8) -> u32
    ensures { result ≡ slice_index frames.now place }
{
    frames.get(place as usize).copied().unwrap_or(0)
}

// Has a pairing propose pairs, and lends those that it wrote. (With so few masks and so much room it never refuses.)
fn propose<'a, P: Pairing>(pairing: &mut P, masks: &[u64], buffer: &'a mut [Pair; 32]) -> &'a [Pair]
    requires { length masks.now ≤ 64 }
    ensures pairs { result.now ≡ P.pairs pairing.old masks.now }
    ensures few { length result.now ≤ 32 }
    ensures after { pairing.new ≡ P.next pairing.old masks.now }
{
    let count = pairing.propose(masks, buffer).unwrap_or(0);
    &buffer[0..count]
}
