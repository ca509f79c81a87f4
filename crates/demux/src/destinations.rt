//! Where a subscriber is bound for.
ghost use Rattle.std.specs.Prelude.{◌≡◌, ◌≤◌, ◌<◌, ℕ, get_or, length, IfOk};
ghost use Rattle.demux.specs.Destinations.{start_slice};

use pc_base::{LAST_SLOT, NoMemory, SliceNo, Slot};
use std::alloc::Global;

/// The start slice of a slot, of 1 to 64: its destination until it is moved.
pub fn start_slice(slot: Slot, slices: u8) -> SliceNo
    requires least { 1 ≤ slices }
    requires most { slices ≤ 64 }
    ensures { result ≡ start_slice slices slot }
{
    SliceNo((slot.0 % u32::from(slices)) as u8)
}

/// The start slices of all slots that there can be, where there are so many slices, by slot.
pub fn start_slices(alloc: Global, slices: u8) -> Result<Vec<SliceNo>, NoMemory>
    requires least { 1 ≤ slices }
    requires most { slices ≤ 64 }
    ensures count { IfOk result (λ starts. length starts.items ≡ 65533) }
    ensures each { IfOk result (λ starts. (slot : ℕ) → slot < 65533
        → get_or starts.items slot 0 ≡ start_slice slices slot) }
{
    let mut bound = Vec::new(alloc);
    for slot in 0..LAST_SLOT + 1 {
        bound.push(start_slice(Slot(slot), slices))?;
    }
    Ok(bound)
}
