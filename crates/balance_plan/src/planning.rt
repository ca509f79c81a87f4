//! The plan.
ghost use Rattle.std.specs.Prelude.{◌≡◌, ◌<◌, ◌≤◌, ◌^◌, All, IfOk, sum_by};
ghost use Rattle.balance_plan.specs.Loads.{IsBelow, SlotsRise};
ghost use Rattle.balance_plan.specs.Plan.{plan_of};

use crate::shares::Shares;
use crate::{Load, Planned};
use std::alloc::{AllocError, Global};

/// At most so many moves, each of the heaviest slot that levels the slice of greatest load with that of least. Slots
/// rise, and slices are below their number, 1 to 64.
pub fn plan(
    alloc: Global,
    loads: &[Load],
    slices: u8,
    most: u32,
) -> Result<Vec<Planned>, AllocError>
    requires least { 1 ≤ slices }
    requires most { slices ≤ 64 }
    requires rise { SlotsRise loads.now }
    requires below { All (IsBelow slices) loads.now }
    requires packets { sum_by (λ load. load.packets) loads.now < 2 ^ 63 }
    ensures { IfOk result (λ planned. planned.items ≡ plan_of slices most loads.now) }
{
    let mut planned = Vec::new(alloc);
    let mut shares = Shares::of(alloc, loads, slices)?;
    for _ in 0..most {
        let Some(next) = shares.step() else {
            return Ok(planned);
        };
        planned.push(next)?;
    }
    Ok(planned)
}
