//! The halves come home. Where memory runs out, what was found is kept, and it is tried once more.
ghost use Rattle.std.specs.Prelude.{◌≡◌, map, IfOk};
ghost use Rattle.gather_home.specs.Homecomings as control_home;
ghost use Rattle.gather_home.specs.Homecomings.{somes};
ghost use Rattle.gather_home.specs.DataHomecomings as data_home_of;
ghost use Rattle.gather_home.specs.DataPlaced.{AllPlaced, slices_served};
ghost use Rattle.migration.specs.Places as control_place;
ghost use Rattle.migration.specs.DataPlaces as data_place;
ghost use Rattle.control_half.specs.Half as control_half_of;
ghost use Rattle.control_half.specs.Named as control_named;
ghost use Rattle.counter_half.specs.Half as data_half_of;
ghost use Rattle.counter_half.specs.Named as data_named;

use crate::NoMemory;
use control_half::ControlHalf;
use counter_half::DataHalf;
use gather_home::{Home, gather, gather_data};
use migration::{DataSideEnd, SideEnd};
use std::alloc::Global;
use std::sync::Wait;
use worker_core::{DataEnd, WorkerEnd};

/// The control halves, by slot.
pub(crate) fn controls_home<R: Wait>(
    rt: &R,
    alloc: Global,
    side: SideEnd<ControlHalf>,
    ends: Vec<WorkerEnd<ControlHalf>>,
) -> Result<Vec<ControlHalf>, NoMemory>
    requires { control_home.AreEnds side.desks.items ends.items }
    ensures home { IfOk result (λ halves. map control_half_of.name_of halves.items
        ≡ somes (control_place.names_of control_half_of.name_of side.places.items)) }
    ensures each { IfOk result (λ halves. control_home.AtSlots control_half_of.name_of control_named.slot_of
        side.places.items halves.items) }
{
    match gather(rt, alloc, side, ends) {
        Ok(halves) => Ok(halves),
        Err(parts) => match parts.again(rt) {
            Ok(halves) => Ok(halves),
            Err(_) => Err(NoMemory),
        },
    }
}

/// The data halves, by slot, with what is left of their packets.
pub(crate) fn datas_home<'p, R: Wait>(
    rt: &R,
    alloc: Global,
    side: DataSideEnd<DataHalf<'p>>,
    ends: Vec<DataEnd<DataHalf<'p>>>,
) -> Result<Vec<Home<DataHalf<'p>>>, NoMemory>
    requires { data_home_of.AreEnds side.desks.items ends.items }
    ensures home { IfOk result (λ homes. map (λ home. data_half_of.name_of home.half) homes.items
        ≡ somes (data_place.names_of data_half_of.name_of side.entry.places.items)) }
    ensures each { IfOk result (λ homes. data_home_of.AtSlots data_half_of.name_of data_named.slot_of
        side.entry.places.items homes.items) }
    ensures items { IfOk result (λ homes. data_home_of.ComeToAccepted data_half_of.name_of data_named.slot_of
        data_half_of.handled_by side.entry.places.items homes.items) }
    ensures placed { IfOk result (λ homes. AllPlaced data_half_of.places_of (slices_served ends.entry.items)
        homes.items) }
{
    match gather_data(rt, alloc, side, ends) {
        Ok(homes) => Ok(homes),
        Err(parts) => match parts.again(rt) {
            Ok(homes) => Ok(homes),
            Err(_) => Err(NoMemory),
        },
    }
}
