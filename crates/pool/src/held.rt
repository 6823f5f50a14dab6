// A frame that is out, as the calls of a pool find it and pass it on.
ghost use Rattle.std.specs.Prelude.{◌≡◌, None, slice_index_or};
ghost use Rattle.model.specs.Geometry.{desktop};
ghost use Rattle.model.specs.Mesh.{receives};
ghost use Rattle.pool.specs.View.{state_of};
ghost use Rattle.pool.specs.Held.{held_in};

use crate::Pool;
use bank::Bank;
use model::Row;
use tables::masks::occupied;

// A frame that is out, with its row.
#[derive(Clone, Copy)]
pub(crate) struct Held {
    pub(crate) frame: u32,
    pub(crate) row: Row,
}

impl Held {
    // Whether this frame is the destination of a merge with the other: it has more occupied slots, and of equals the
    // lower number.
    pub(crate) fn receives(self, other: Held) -> bool
        ensures { result ≡ receives desktop self.frame self.row other.frame other.row }
    {
        let here = occupied(self.row.mask);
        let there = occupied(other.row.mask);
        (there, self.frame) < (here, other.frame)
    }
}

impl<B: Bank, P> Pool<B, P> {
    // The frame with its row, if it is out.
    pub(crate) fn held(&self, frame: u32) -> Option<Held>
        ensures { result ≡ held_in frame (slice_index_or (state_of B.model self.now).rows frame None) }
    {
        self.rows.row(frame).map(|row| Held { frame, row })
    }
}
