//! Halves are copied into a fresh roster, in their order and without the holes between them.
ghost use Rattle.std.specs.Prelude.{◌≡◌, ◌+◌, ◌≤◌, OnOk, take};
ghost use Rattle.epoch_schedule.specs.Rosters as roster;

use crate::roster::{Roster, half_at};
use crate::standing::HeldControl;
use std::alloc::AllocError;

/// Puts the halves between two indices behind those before them.
pub fn copy_part(
    halves: &[Option<HeldControl>],
    from: usize,
    to: usize,
    fresh: &mut Roster,
) -> Result<(), AllocError>
    requires few { from ≤ to }
    requires before { fresh.old.held ≡ roster.present (take from halves.now) }
    ensures { OnOk result (fresh.new ≡ record fresh.old { held = roster.present (take to halves.now) }) }
{
    for index in from..to {
        copy_one(halves, index, fresh)?;
    }
    Ok(())
}

/// Puts the half at an index, if one stands there, behind those before it.
fn copy_one(
    halves: &[Option<HeldControl>],
    index: usize,
    fresh: &mut Roster,
) -> Result<(), AllocError>
    requires { fresh.old.held ≡ roster.present (take index halves.now) }
    ensures { OnOk result (fresh.new ≡ record fresh.old { held = roster.present (take (index + 1) halves.now) }) }
{
    match half_at(halves, index) {
        None => Ok(()),
        Some(half) => {
            fresh.push(half)?;
            Ok(())
        }
    }
}
