//! Where the half of a slot was seen last in a worker's list, so that a look for it takes no longer where
//! many halves are held. Who looks there sees whether it is right, and searches if not.
ghost use Rattle.std.specs.Prelude.{◌≡◌, ◌≢◌, ℕ, Some, IsSome};
ghost use Rattle.worker_core.specs.Seeing.{noted_at};

use pc_base::Slot;
use std::alloc::Global;

/// By slot, the index at which its half was noted last.
#[derive(Drop)]
pub struct Seen {
    at: Vec<usize>,
}

impl Seen {
    /// None was seen.
    pub fn new(alloc: Global) -> Seen {
        Seen {
            at: Vec::new(alloc),
        }
    }

    /// Notes that the half of a slot stands at an index. Out of memory nothing is noted; where one of the slot was
    /// noted before, none is needed.
    pub fn note(&mut self, slot: Slot, index: usize)
        ensures here { IsSome (noted_at self.old slot) → noted_at self.new slot ≡ Some index }
        ensures others { (other at : ℕ) → other ≢ slot → noted_at self.old other ≡ Some at
            → noted_at self.new other ≡ Some at }
    {
        let at = slot.0 as usize;
        if self.at.len() <= at {
            let Ok(()) = self.at.resize(at + 1, 0) else {
                return;
            };
        }
        self.at[at] = index;
    }

    /// Where the half of a slot was noted last, if the list of notes reaches so far.
    pub fn noted(&self, slot: Slot) -> Option<usize>
        ensures { result ≡ noted_at self.now slot }
    {
        self.at.get(slot.0 as usize).copied()
    }
}
