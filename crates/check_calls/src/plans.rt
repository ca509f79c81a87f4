//! Plans of moves, worked by hand.
ghost use Rattle.std.specs.Prelude.{◌≡◌, ◌≤◌};

use balance_plan::{Load, Planned, plan};
use pc_base::{SliceNo, Slot};
use std::alloc::{AllocError, Global};
use text_fields::Text;

fn push_plan(text: &mut Text, planned: &[Planned]) -> Result<(), AllocError> {
    text.extend_from_slice(b"plan")?;
    for step in planned {
        text.push_number(u64::from(step.slot.0))?;
        text.push_number(u64::from(step.slice.0))?;
    }
    text.push(b'\n')?;
    Ok(())
}

fn on(slot: u32, slice: u8, packets: u64) -> Load
    requires slot { slot ≤ 65532 }
    requires slice { slice ≤ 63 }
    ensures { result ≡ record { slot = slot; slice = slice; packets = packets } }
{
    Load {
        slot: Slot(slot),
        slice: SliceNo(slice),
        packets,
    }
}

/// Of three slots on one slice of two the heaviest goes; one slot stays; of four slots on three slices two go, the
/// lowest of equals first.
pub fn push_plans(alloc: Global, text: &mut Text) -> Result<(), AllocError> {
    let three = plan(alloc, &[on(0, 0, 5), on(1, 0, 3), on(2, 0, 2)], 2, 4)?;
    push_plan(text, &three)?;
    let one = plan(alloc, &[on(0, 0, 9)], 2, 4)?;
    push_plan(text, &one)?;
    let four = plan(
        alloc,
        &[on(0, 1, 4), on(3, 1, 4), on(4, 1, 4), on(9, 2, 1)],
        3,
        4,
    )?;
    push_plan(text, &four)
}
