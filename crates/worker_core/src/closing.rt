//! How a lane home is closed.
ghost use Rattle.std.specs.Prelude.{◌≡◌, ◌+◌, ◌++◌, ℕ, [], None, List, OnOk};
ghost use Rattle.std.specs.List.{sum_by};
ghost use Rattle.worker_core.specs.Opened.{IsRest, opened_sent, opened_taken};

use crate::HomeLane;
use lane_core::{Carried, NoMemory};
use std::alloc::Global;
use std::sync::Wait;

/// Closes a lane home: the halves that were left in it are in hand.
pub fn close_home<H: Carried, R: Wait>(
    rt: &R,
    alloc: Global,
    opened: &mut Option<HomeLane<H>>,
    held: &mut Vec<H>,
) -> Result<(), NoMemory>
    requires { held.old.items ≡ [] }
    ensures rest { (out : List H) → IsRest opened.new out → IsRest opened.old (held.new.items ++ out) }
    ensures weight { (f : H → ℕ) → sum_by f held.new.items + opened_sent f opened.new + opened_taken f opened.old
        ≡ sum_by f held.old.items + opened_sent f opened.old + opened_taken f opened.new }
    ensures closed { OnOk result (opened.new ≡ None) }
{
    let Some(lane) = opened.take() else {
        return Ok(());
    };
    let HomeLane { tx, rx } = lane;
    match lane_core::close(rt, alloc, tx, rx) {
        Ok(rest) => {
            *held = rest;
            Ok(())
        }
        Err(ends) => {
            *opened = Some(HomeLane {
                tx: ends.tx,
                rx: ends.rx,
            });
            Err(NoMemory)
        }
    }
}
