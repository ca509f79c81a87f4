//! Where the half of a slot stands in a worker's list. A guess by slot is looked at first, so that the
//! look takes no longer where many halves are held; that a guess is right is no fact of the type.
ghost use Rattle.std.specs.Prelude.{◌≡◌, ◌<◌, ◌==◌, false, length, IfSome, IsNone, slice_index_or};
ghost use Rattle.std.specs.List.{list_any, position};

use crate::{DataKind, Seen};
use pc_base::Slot;

// Where the half of a slot stands.
pub fn find<H: DataKind>(seen: &Seen, held: &[H], slot: Slot) -> Option<usize>
    ensures found { IfSome result (λ k. (k < length held.now)
        × ((none : H) → H.slot_of_half (slice_index_or held.now k none) ≡ slot)) }
    ensures none { IsNone result → list_any (λ half. H.slot_of_half half == slot) held.now ≡ false }
{
    match guess(seen, held, slot) {
        Some(at) => Some(at),
        None => first(held, slot),
    }
}

// The index that was noted, if it is right.
fn guess<H: DataKind>(seen: &Seen, held: &[H], slot: Slot) -> Option<usize>
    ensures { IfSome result (λ k. (k < length held.now)
        × ((none : H) → H.slot_of_half (slice_index_or held.now k none) ≡ slot)) }
{
    let at = seen.noted(slot)?;
    if at < held.len() && held[at].slot() == slot {
        Some(at)
    } else {
        None
    }
}

// The first half of a slot.
fn first<H: DataKind>(held: &[H], slot: Slot) -> Option<usize>
    ensures { result ≡ position (λ half. H.slot_of_half half == slot) held.now }
{
    held.iter().position(|half| half.slot() == slot)
}

// A half that stood at an index left: those behind it stand one further to the front.
pub fn moved_up<H: DataKind>(seen: &mut Seen, held: &[H], from: usize) {
    for index in from..held.len() {
        seen.note(held[index].slot(), index);
    }
}
