//! All halves come home.
ghost use Rattle.std.specs.Prelude.{◌≡◌, map, IfOk, IfErr};
ghost use Rattle.gather_home.specs.Homecomings.{somes};
ghost use Rattle.migration.specs.DataPlaces.{names_of};
ghost use Rattle.gather_home.specs.DataHomecomings.{AreEnds, AtSlots, ComeToAccepted};
ghost use Rattle.gather_home.specs.DataPlaced.{AllPlaced, slices_served};
ghost use Rattle.gather_home.specs.DataWords.{admitted_of, slices_of};

use crate::DataParts;
use crate::data_home::Home;
use migration::DataSideEnd;
use std::alloc::Global;
use std::sync::Wait;
use worker_core::{DataEnd, DataTraveller};

/// Finds each half that was admitted to a side, once, by slot, with its items that are left. The ends
/// are those of the workers of its desks, in order. Where memory runs out what is left comes back.
pub fn gather_data<H: DataTraveller, R: Wait>(
    rt: &R,
    alloc: Global,
    side: DataSideEnd<H>,
    ends: Vec<DataEnd<H>>,
) -> Result<Vec<Home<H>>, DataParts<H>>
    requires { AreEnds side.desks.items ends.items }

    // The names of the halves are those that were admitted, by slot.
    ensures home { IfOk result (λ homes. map (λ home. H.name home.half) homes.items
        ≡ somes (names_of H.name side.places.items)) }
    ensures each { IfOk result (λ homes. AtSlots H.name H.slot_at side.places.items homes.items) }

    ensures items { IfOk result (λ homes. ComeToAccepted H.name H.slot_at H.handled side.places.items homes.items) }

    // Where the slices of all workers are below a number, so is each slice at which a half handled an item.
    ensures placed { IfOk result (λ homes. AllPlaced H.places (slices_served ends.items) homes.items) }

    ensures parts { IfErr result (λ parts. (admitted_of parts ≡ side.places.items)
        × (slices_of parts ≡ slices_served ends.items)) }
{
    DataParts::new(alloc, side, ends).again(rt)
}
