//! All halves come home.
ghost use Rattle.std.specs.Prelude.{◌≡◌, map, IfOk, IfErr};
ghost use Rattle.migration.specs.Places.{names_of};
ghost use Rattle.gather_home.specs.Homecomings.{somes, AreEnds, AtSlots};
ghost use Rattle.gather_home.specs.Words.{admitted_of};

use crate::HomeParts;
use migration::SideEnd;
use std::alloc::Global;
use std::sync::Wait;
use worker_core::{Traveller, WorkerEnd};

/// Finds each half that was admitted to a side, once, by slot. The ends are those of the workers of
/// its desks, in order. Where memory runs out what is left comes back.
pub fn gather<H: Traveller, R: Wait>(
    rt: &R,
    alloc: Global,
    side: SideEnd<H>,
    ends: Vec<WorkerEnd<H>>,
) -> Result<Vec<H>, HomeParts<H>>
    requires { AreEnds side.desks.items ends.items }

    // The names of the halves are those that were admitted, by slot.
    ensures home { IfOk result (λ halves. map H.name halves.items ≡ somes (names_of H.name side.places.items)) }
    ensures each { IfOk result (λ halves. AtSlots H.name H.slot_of side.places.items halves.items) }
    ensures parts { IfErr result (λ parts. admitted_of parts ≡ side.places.items) }
{
    HomeParts::new(alloc, side, ends).again(rt)
}
