//! The half as one that travels between slices.
ghost use Rattle.std.specs.Prelude.{◌≡◌, IfOk};
ghost use Rattle.lane_core.specs.Ends.{sent, taken, raised};
ghost use Rattle.worker_core.specs.Turns.{works_after};
ghost use Rattle.control_half.specs.Named.{slot_of};
ghost use Rattle.control_half.specs.Turns.{Grew};

use crate::ControlName;
use crate::half::ControlHalf;
use lane_core::{Carried, Did, NoMemory};
use pc_base::{SliceNo, Slot};
use std::sync::Wait;
use worker_core::Traveller;

impl ControlHalf {
    ghost use Rattle.control_half.specs.Half.{name_of, hop_of, turns_of, works_of, HalfEnded};

    /// A turn. The batch that is kept is sent, if there is one. Then commands are applied, as long as they
    /// come and fit: of this half's hop or an earlier one, and of the batch's floor, which has room for 16
    /// versions. Then the batch is sent, or kept.
    pub fn work<R: Wait>(&mut self, rt: &R) -> Result<Did, NoMemory>
        ensures name { name_of self.new ≡ name_of self.old }
        ensures hop { hop_of self.new ≡ hop_of self.old }
        ensures turns { turns_of self.new ≡ raised (turns_of self.old) }
        ensures works { works_of self.new ≡ works_after result (works_of self.old) }

        // Nothing is lost, whatever the answer.
        ensures taken { Grew (taken self.old.inner.value.commands) (taken self.new.inner.value.commands) }
        ensures sent { Grew (sent self.old.inner.value.versions) (sent self.new.inner.value.versions) }
        ensures noted { Grew self.old.inner.value.control.notes.items self.new.inner.value.control.notes.items }

        // Why each answer comes, and why no more was applied.
        ensures ended { IfOk result (λ did. HalfEnded self.old self.new did) }
    {
        self.inner.turn(rt)
    }
}

impl Carried for ControlHalf {}

impl Traveller for ControlHalf {
    ghost use Rattle.control_half.specs.Half.{name_of, done_of, hop_of, turns_of, works_of, HalfEnded};

    type Name = ControlName;

    ghost name = { name_of };

    ghost slot_of = { slot_of };

    ghost done_of = { done_of };

    ghost hop_of = { hop_of };

    ghost turns = { turns_of };

    ghost works = { works_of };

    ghost came_to = { λ grain did old new. HalfEnded old new did };

    fn slot(&self) -> Slot {
        self.slot
    }

    fn done(&self) -> u64 {
        self.inner.control.number
    }

    fn arrive(&mut self, hop: u64) {
        self.inner.hop = hop;
    }

    fn turn<R: Wait>(&mut self, rt: &R, _place: SliceNo, _grain: u32) -> Result<Did, NoMemory> {
        self.work(rt)
    }

    ghost free = { λ before half. tt };
}
