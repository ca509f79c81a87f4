//! The workers of slices: a turn of one, and their ends.
ghost use Rattle.std.specs.Prelude.{◌≡◌, map, IfOk};
ghost use Rattle.worker_core.specs.Workers as control_worker;
ghost use Rattle.worker_core.specs.DataWorkers as data_worker;
ghost use Rattle.gather_home.specs.DataPlaced.{slices_served};

use crate::stop::RowStop;
use control_half::ControlHalf;
use counter_half::DataHalf;
use std::alloc::{AllocError, Global};
use std::sync::Wait;
use worker_core::{DataEnd, DataWorker, Worker, WorkerEnd};

/// A turn of the worker of control halves at a slice.
pub fn turn_control<R: Wait>(
    rt: &R,
    workers: &mut Vec<Worker<ControlHalf>>,
    slice: usize,
) -> Result<(), RowStop>
    ensures { map control_worker.worker_lanes workers.new.items ≡ map control_worker.worker_lanes workers.old.items }
{
    if slice >= workers.len() {
        return Err(RowStop::Row);
    }
    let _did = workers[slice].turn(rt)?;
    Ok(())
}

/// A turn of the worker of data halves at a slice.
pub fn turn_data<R: Wait>(
    rt: &R,
    workers: &mut Vec<DataWorker<DataHalf<'_>>>,
    slice: usize,
) -> Result<(), RowStop>
    ensures lanes { map data_worker.worker_lanes workers.new.items ≡ map data_worker.worker_lanes workers.old.items }
    ensures places { map data_worker.place_of workers.new.items ≡ map data_worker.place_of workers.old.items }
{
    if slice >= workers.len() {
        return Err(RowStop::Row);
    }
    let _did = workers[slice].turn(rt)?;
    Ok(())
}

/// The ends of workers of control halves, in the same order.
pub fn control_ends(
    alloc: Global,
    mut workers: Vec<Worker<ControlHalf>>,
) -> Result<Vec<WorkerEnd<ControlHalf>>, AllocError>
    ensures { IfOk result (λ ends. map control_worker.end_lanes ends.items
        ≡ map control_worker.worker_lanes workers.items) }
{
    let mut ends = Vec::new(alloc);
    workers.reverse();
    while let Some(worker) = workers.pop() {
        ends.push(worker.into_end())?;
    }
    Ok(ends)
}

/// The ends of workers of data halves, in the same order.
pub fn data_ends<'p>(
    alloc: Global,
    mut workers: Vec<DataWorker<DataHalf<'p>>>,
) -> Result<Vec<DataEnd<DataHalf<'p>>>, AllocError>
    ensures lanes { IfOk result (λ ends. map data_worker.end_lanes ends.items
        ≡ map data_worker.worker_lanes workers.entry.items) }
    ensures places { IfOk result (λ ends. slices_served ends.items ≡ map data_worker.place_of workers.entry.items) }
{
    let mut ends: Vec<DataEnd<DataHalf<'p>>> = Vec::new(alloc);
    workers.reverse();
    while let Some(worker) = workers.pop() {
        ends.push(worker.into_end())?;
    }
    Ok(ends)
}
