//! Lists that a side keeps by slot.
ghost use Rattle.std.specs.Prelude.{◌≡◌, ◌≤◌, ℕ, vec_len, vec_capacity, OnOk};
ghost use Rattle.worker_core.specs.BySlot.{Grown};

use lane_core::NoMemory;

/// Makes free places until there are so many.
pub fn grow<P: Drop>(places: &mut Vec<Option<P>>, len: usize) -> Result<(), NoMemory>
    ensures grown { Grown places.old.items places.new.items }
    ensures short { (most : ℕ) → len ≤ most → vec_len places.old ≤ most → vec_len places.new ≤ most }
    ensures enough { OnOk result (len ≤ vec_len places.new) }
{
    while places.len() < len {
        places.push(None)?;
    }
    Ok(())
}

/// Makes room for so many items.
pub fn widen<T>(items: &mut Vec<T>, room: usize) -> Result<(), NoMemory>
    ensures items { items.new.items ≡ items.old.items }
    ensures kept { vec_capacity items.old ≤ vec_capacity items.new }
    ensures wide { OnOk result (room ≤ vec_capacity items.new) }
{
    if items.len() < room {
        items.reserve(room - items.len())?;
    }
    Ok(())
}
