// The label table: the patch of each live label.
ghost use Rattle.std.specs.Prelude.{◌≡◌, is_some, None};
ghost use Rattle.bank.specs.Tables.{put};
ghost use Rattle.model.specs.Geometry.{desktop};
ghost use Rattle.model.specs.Calls.{tally, holds as holds_in, owner as owner_of};
ghost use Rattle.tables.specs.Views.{labels_of};

use crate::geometry::address_of;
use model::Patch;

#[derive(Drop)]
pub struct Labels {
    table: [Option<Patch>; 256],
}

impl Labels {
    // No label is live.
    pub fn new() -> Labels
        ensures { labels_of result ≡ (λ _. None) }
    {
        Labels { table: [None; 256] }
    }

    // The patch of a label, if it is live.
    pub fn patch(&self, label: u8) -> Option<Patch>
        ensures { result ≡ labels_of self.now label }
    {
        self.table[label as usize]
    }

    // A label becomes live with this patch, or is live no more.
    pub fn set(&mut self, label: u8, patch: Option<Patch>)
        ensures { labels_of self.new ≡ put (labels_of self.old) label patch }
    {
        self.table[label as usize] = patch;
    }

    // How many labels are live.
    pub fn live(&self) -> u32
        ensures { result ≡ tally desktop.labels (λ l. is_some (labels_of self.now l)) }
    {
        self.table
            .iter()
            .map(|patch| u32::from(patch.is_some()))
            .sum()
    }

    // The lowest label whose patch holds so many bytes from the address on.
    pub fn owner(&self, address: u32, count: usize) -> Option<u8>
        ensures { result ≡ owner_of desktop address count (labels_of self.now) }
    {
        self.table
            .iter()
            .position(|patch| holds(*patch, address, count))
            .map(|label| label as u8)
    }
}

// Whether a patch's bytes include the address and so many bytes from there.
fn holds(patch: Option<Patch>, address: u32, count: usize) -> bool
    ensures { result ≡ holds_in desktop address count patch }
{
    patch.is_some_and(|patch| {
        let start = address_of(patch);
        let end = start + patch.length as u32;
        start <= address && address < end && count <= (end - address) as usize
    })
}
