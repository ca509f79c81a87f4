//! An epoch is opened: each slice gets a worker of each kind.
ghost use Rattle.std.specs.Prelude.{◌≡◌, ◌≤◌, All, IfOk, length, map, replicate};
ghost use Rattle.worker_core.specs.Desks.{lanes_of};
ghost use Rattle.worker_core.specs.Workers.{IsNewDesk, Lanes, place_of, worker_lanes};
ghost use Rattle.worker_core.specs.DataWorkers as data_worker;
ghost use Rattle.front_core.specs.Words.{first_slices};

use crate::{Front, NoMemory};
use control_half::ControlHalf;
use counter_half::DataHalf;
use pc_base::SliceNo;
use std::alloc::Global;
use worker_core::{DataDesk, DataWorker, Desk, Worker, data_pair, pair};

/// A front, and for each slice in order the worker of its control halves and that of its data halves.
#[derive(Drop)]
pub struct Opened<'p> {
    pub front: Front<'p>,
    pub controls: Vec<Worker<ControlHalf>>,
    pub datas: Vec<DataWorker<DataHalf<'p>>>,
}

/// The desks of workers, and these.
#[derive(Drop)]
pub(crate) struct Controls {
    pub(crate) desks: Vec<Desk<ControlHalf>>,
    pub(crate) workers: Vec<Worker<ControlHalf>>,
}

#[derive(Drop)]
pub(crate) struct Datas<'p> {
    pub(crate) desks: Vec<DataDesk<DataHalf<'p>>>,
    pub(crate) workers: Vec<DataWorker<DataHalf<'p>>>,
}

pub(crate) fn controls_of(alloc: Global, slices: u8) -> Result<Controls, NoMemory>
    requires { slices ≤ 64 }
    ensures count { IfOk result (λ made. length made.desks.items ≡ slices) }
    ensures lanes { IfOk result (λ made. lanes_of made.desks.items ≡ map worker_lanes made.workers.items) }
    ensures places { IfOk result (λ made. map place_of made.workers.items ≡ first_slices slices) }
    ensures new { IfOk result (λ made. All IsNewDesk made.desks.items) }
{
    let mut desks = Vec::new(alloc);
    let mut workers = Vec::new(alloc);
    for i in 0..slices {
        let (desk, worker) = pair(alloc, SliceNo(i))?;
        desks.push(desk)?;
        workers.push(worker)?;
    }
    Ok(Controls { desks, workers })
}

pub(crate) fn datas_of<'p>(alloc: Global, slices: u8, lane: u32) -> Result<Datas<'p>, NoMemory>
    requires few { slices ≤ 64 }
    requires lane { (1 ≤ lane) × (lane ≤ 16384) }
    ensures lanes { IfOk result (λ made. lanes_of made.desks.items ≡ map data_worker.worker_lanes made.workers.items) }
    ensures rooms { IfOk result (λ made. map (λ (lanes : Lanes). lanes.0.room) (lanes_of made.desks.items)
        ≡ replicate slices lane) }
    ensures places { IfOk result (λ made. map data_worker.place_of made.workers.items ≡ first_slices slices) }
    ensures new { IfOk result (λ made. All IsNewDesk made.desks.items) }
{
    let mut desks: Vec<DataDesk<DataHalf<'p>>> = Vec::new(alloc);
    let mut workers: Vec<DataWorker<DataHalf<'p>>> = Vec::new(alloc);
    for i in 0..slices {
        let (desk, worker) = data_pair::<DataHalf<'p>>(alloc, SliceNo(i), lane)?;
        desks.push(desk)?;
        workers.push(worker)?;
    }
    Ok(Datas { desks, workers })
}
