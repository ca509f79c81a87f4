//! An epoch is closed.
ghost use Rattle.std.specs.Prelude.{◌≡◌, All, map, IfOk};
ghost use Rattle.worker_core.specs.Workers as worker;
ghost use Rattle.worker_core.specs.DataWorkers as data_worker;
ghost use Rattle.front_core.specs.declared.taken.Taken.{Taken};
ghost use Rattle.front_core.specs.Entries.{took_of};
ghost use Rattle.front_core.specs.Words.{IsWhole, control_lanes, entries_in, data_lanes, opened_of, taken_by};
ghost use Rattle.front_core.specs.Words.{first_slices, fulls_in, latest_in, lines_in};
ghost use Rattle.gather_home.specs.DataPlaced.{slices_served};
ghost use Rattle.front_core.specs.Closing.{Closes};
ghost use Rattle.front_core.specs.Filled.{told_by, took_told};
ghost use Rattle.front_core.specs.Placed.{IsEntryBelow};

use crate::epoch::Ended;
use crate::filling::fill_all;
use crate::finishing::finish_all;
use crate::homes::{controls_home, datas_home};
use crate::told::ToldSlots;
use crate::{BothSides, Front, Halves, NoMemory};
use at_rest::{AtRest, Sizes};
use control_half::ControlHalf;
use counter_half::DataHalf;
use gate_model::sessions_keep_their_slot;
use slot_execution::ToldEpoch;
use std::sync::Wait;
use worker_core::{DataEnd, WorkerEnd};

/// Closes an epoch whose workers have stopped; their ends come in the order of slices. What is left to do is
/// done, and the gateway is at rest again. Out of memory, all is given up.
pub fn close<'p, R: Wait>(
    rt: &R,
    front: Front<'p>,
    controls: Vec<WorkerEnd<ControlHalf>>,
    datas: Vec<DataEnd<DataHalf<'p>>>,
) -> Result<Ended<'p>, NoMemory>
    requires whole { IsWhole front }
    requires controls { map worker.end_lanes controls.items ≡ control_lanes front }
    requires datas { map data_worker.end_lanes datas.items ≡ data_lanes front }
    requires places { slices_served datas.items ≡ first_slices (opened_of front).slices }

    ensures closes { IfOk result (λ ended. Closes (opened_of front.entry) (taken_by front.entry) ended.rest
        (told_by ended.epoch)) }
    ensures counts { IfOk result (λ ended. (ended.rest.lines ≡ lines_in front.entry)
        × (ended.rest.latest ≡ latest_in front.entry) × (ended.rest.fulls ≡ fulls_in front.entry)) }

    // Each entry says what was answered when its line was taken.
    ensures answered { IfOk result (λ ended. map took_told (told_by ended.epoch).lines
        ≡ map (λ (taken : Taken). took_of taken.open) (entries_in front.entry)) }

    // Each packet was handled at one of the slices, or as the epoch was closed.
    ensures placed { IfOk result (λ ended. All (IsEntryBelow (opened_of front.entry).slices)
        (told_by ended.epoch).lines) }
{
    sessions_keep_their_slot();
    let Front {
        alloc,
        slices,
        lane,
        book,
        mut subscribers,
        halves,
        entries,
        lines,
        latest,
        ..
    } = front;
    let Halves {
        alloc: _,
        room,
        lots,
        sides,
        fulls,
    } = halves;
    let BothSides {
        controls: control_side,
        datas: data_side,
        ..
    } = sides;
    let halves = controls_home(rt, alloc, control_side.into_end(), controls)?;
    let homes = datas_home(rt, alloc, data_side.into_end(), datas)?;
    let ToldSlots {
        mut answers,
        effects,
        rows,
    } = finish_all(rt, alloc, lots, halves, homes, subscribers.as_mut_slice())?;
    let first = lines - entries.len() as u64 + 1;
    let told = fill_all(alloc, first, entries, &mut answers)?;
    Ok(Ended {
        epoch: ToldEpoch {
            lines: told,
            effects,
            rows,
        },
        rest: AtRest {
            sizes: Sizes { slices, room, lane },
            book,
            subscribers,
            lines,
            latest,
            fulls,
        },
    })
}
