//! Which halves have something to do.
ghost use Rattle.std.specs.Prelude.{◌≡◌, vec_len, IfOk};

use crate::NoMemory;
use crossbeam_queue::ArrayQueue;
use crossbeam_utils::CachePadded;
use pc_base::Slot;
use std::alloc::Global;
use std::sync::Wait;
use std::sync::atomic::{AtomicBool, Ordering};

// How many calls wait at most.
const PLACES: usize = 1024;

/// The slots of a slice whose control halves were sent a command: the front puts them in, and the slice's thread takes
/// them out.
#[derive(Drop)]
pub struct Calls {
    slots: ArrayQueue<Slot>,
    /// Whether one found no place.
    missed: CachePadded<AtomicBool>,
}

impl Calls {
    /// None was called.
    pub fn new(alloc: Global) -> Result<Calls, NoMemory> {
        Ok(Calls {
            slots: ArrayQueue::new(alloc, PLACES)?,
            missed: CachePadded::new(AtomicBool::new(false)),
        })
    }

    /// Calls the half of a slot. Where 1,024 calls wait all halves of the worker are turned in its place.
    pub fn call<R: Wait>(&self, rt: &R, slot: Slot) {
        if let Err(_slot) = self.slots.push(rt, slot) {
            self.missed.store(true, Ordering::SeqCst);
        }
    }

    /// The slot that was called first.
    pub(crate) fn next<R: Wait>(&self, rt: &R) -> Option<Slot> {
        self.slots.pop(rt)
    }

    /// Whether a call found no place since this was asked last. Then those that wait are let go: all halves are to be
    /// turned.
    pub(crate) fn take_missed<R: Wait>(&self, rt: &R) -> bool {
        let missed = self.missed.load(Ordering::SeqCst);
        if missed {
            self.missed.store(false, Ordering::SeqCst);
            for _ in 0..PLACES {
                let _slot = self.slots.pop(rt);
            }
        }
        missed
    }
}

/// The calls of so many slices.
pub fn calls_of(alloc: Global, many: usize) -> Result<Vec<Calls>, NoMemory>
    ensures { IfOk result (λ calls. vec_len calls ≡ many) }
{
    let mut calls = Vec::with_capacity(alloc, many)?;
    for _ in 0..many {
        calls.push_reserved(Calls::new(alloc)?);
    }
    Ok(calls)
}
