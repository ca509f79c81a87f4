//! What slices carry, as steps go.
ghost use Rattle.std.specs.Prelude.{◌≡◌, ℕ, ◌+◌, ◌-◌, ◌*◌, ◌<◌, ◌≤◌, ◌^◌, All, [], Some, None, get_or, set, length};
ghost use Rattle.std.specs.Prelude.{EachIndex, slice_index, IfOk, IfSome, MatchOption, sum_by, take};
ghost use Rattle.balance_plan.specs.Loads.{IsBelow, SlotsRise, loads_of, moved};
ghost use Rattle.balance_plan.specs.Steps.{goes, greatest, least, step_of, weight};
ghost use Rattle.balance_plan.specs.Shares.{HasShares, MayGo, changed, sent};
ghost use Rattle.balance_plan.specs.declared.load.Load.{Load};

use crate::{Load, Planned};
use pc_base::SliceNo;
use std::alloc::{AllocError, Global};

/// The loads of slots, and with them those of slices.
#[derive(Drop)]
pub(crate) struct Shares {
    loads: Vec<Load>,
    totals: Vec<u64>,
}

impl Shares {
    pub(crate) fn of(alloc: Global, loads: &[Load], slices: u8) -> Result<Shares, AllocError>
        requires rise { SlotsRise loads.now }
        requires below { All (IsBelow slices) loads.now }
        requires packets { sum_by (λ load. load.packets) loads.now < 2 ^ 63 }
        ensures shares { IfOk result (λ shares. HasShares shares slices) }
        ensures loads { IfOk result (λ shares. shares.loads.items ≡ loads.now) }
    {
        Ok(Shares {
            loads: Vec::from_slice(alloc, loads)?,
            totals: totals_of(alloc, loads, slices)?,
        })
    }

    // One step more, where there is one.
    pub(crate) fn step(&mut self) -> Option<Planned>
        requires some { 1 ≤ length self.old.totals.items }
        requires few { length self.old.totals.items ≤ 64 }
        requires shares { HasShares self.old (length self.old.totals.items) }
        ensures step { result ≡ step_of (length self.old.totals.items) self.old.loads.items }
        ensures moved { IfSome result (λ planned. self.new.loads.items ≡ moved planned self.old.loads.items) }
        ensures shares { HasShares self.new (length self.old.totals.items) }
        ensures as_many { length self.new.totals.items ≡ length self.old.totals.items }
    {
        let from = greatest(&self.totals);
        let to = least(&self.totals);
        let gap = self.totals[from] - self.totals[to];
        match heaviest(&self.loads, SliceNo(from as u8), gap) {
            None => None,
            Some(at) => Some(self.go(at, from, to)),
        }
    }

    // The slot at this place goes from a slice to another.
    fn go(&mut self, at: usize, from: usize, to: usize) -> Planned
        requires place { at < length self.old.loads.items }
        requires low { to ≤ 63 }
        requires from { from < length self.old.totals.items }
        requires to { to < length self.old.totals.items }
        requires fits { (none : Load) → 2 * (get_or self.old.loads.items at none).packets
            ≤ get_or self.old.totals.items from 0 - get_or self.old.totals.items to 0 }
        requires more { (none : Load) → 1 ≤ (get_or self.old.loads.items at none).packets }
        ensures planned { (none : Load) → result ≡ record {
          slot = (get_or self.old.loads.items at none).slot;
          slice = to;
        } }
        ensures loads { (none : Load) → self.new.loads.items
            ≡ set self.old.loads.items at (sent to (get_or self.old.loads.items at none)) }
        ensures totals { (none : Load) → self.new.totals.items
            ≡ changed self.old.totals.items from to (get_or self.old.loads.items at none).packets }
    {
        let load = self.loads[at];
        let slice = SliceNo(to as u8);
        self.loads[at] = Load { slice, ..load };
        self.totals[from] -= load.packets;
        self.totals[to] += load.packets;
        Planned {
            slot: load.slot,
            slice,
        }
    }
}

// One slot more on its slice.
fn add(totals: &mut Vec<u64>, load: &Load)
    requires within { load.now.slice < length totals.old.items }
    requires fits { get_or totals.old.items load.now.slice 0 + load.now.packets < 2 ^ 64 }
    ensures { totals.new.items ≡ set totals.old.items load.now.slice
        (get_or totals.old.items load.now.slice 0 + load.now.packets) }
{
    totals[usize::from(load.slice.0)] += load.packets;
}

// Nothing on each slice.
fn zeros(alloc: Global, slices: u8) -> Result<Vec<u64>, AllocError>
    ensures { IfOk result (λ totals. totals.items ≡ loads_of slices []) }
{
    let mut totals = Vec::new(alloc);
    for _ in 0..slices {
        totals.push(0)?;
    }
    Ok(totals)
}

// What each slice carries.
fn totals_of(alloc: Global, loads: &[Load], slices: u8) -> Result<Vec<u64>, AllocError>
    requires below { All (IsBelow slices) loads.now }
    requires packets { sum_by (λ load. load.packets) loads.now < 2 ^ 63 }
    ensures { IfOk result (λ totals. totals.items ≡ loads_of slices loads.now) }
{
    let mut totals = zeros(alloc, slices)?;
    for load in loads {
        add(&mut totals, load);
    }
    Ok(totals)
}

// The first of the greatest numbers.
fn greatest(numbers: &[u64]) -> usize
    requires { 0 < length numbers.now }
    ensures place { result ≡ greatest numbers.now }
    ensures within { result < length numbers.now }
    ensures most { EachIndex numbers.now (λ k. slice_index numbers.now k ≤ slice_index numbers.now result) }
{
    let mut best = 0;
    for i in 1..numbers.len() {
        if numbers[best] < numbers[i] {
            best = i;
        }
    }
    best
}

// The first of the least.
fn least(numbers: &[u64]) -> usize
    requires { 0 < length numbers.now }
    ensures place { result ≡ least numbers.now }
    ensures within { result < length numbers.now }
{
    let mut best = 0;
    for i in 1..numbers.len() {
        if numbers[i] < numbers[best] {
            best = i;
        }
    }
    best
}

// How many packets go with a slot, if it may go.
fn weight(load: &Load, from: SliceNo, gap: u64) -> u64
    ensures { result ≡ weight from gap load.now }
{
    if load.slice == from && load.packets <= gap / 2 {
        load.packets
    } else {
        0
    }
}

// The place of the slot that goes.
fn heaviest(loads: &[Load], from: SliceNo, gap: u64) -> Option<usize>
    ensures goes { MatchOption result (goes from gap loads.now ≡ None)
        (λ at. (none : Load) → goes from gap loads.now ≡ Some (get_or loads.now at none)) }
    ensures within { IfSome result (λ at. at < length loads.now) }
    ensures may { IfSome result (λ at. (none : Load) → MayGo from gap (get_or loads.now at none)) }
{
    let mut most = 0;
    let mut place = 0;
    for (i, load) in loads.iter().enumerate() {
        let packets = weight(load, from, gap);
        if most < packets {
            most = packets;
            place = i;
        }
    }
    if most == 0 { None } else { Some(place) }
}
