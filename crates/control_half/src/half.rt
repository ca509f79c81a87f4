//! The half that holds a subscriber's session.
ghost use Rattle.std.specs.Prelude.{◌≡◌};

use crate::inner::ControlInner;
use pc_base::Slot;

/// A subscriber's control half. What it holds lies behind one pointer, since halves are handed from slice to slice.
#[derive(Drop)]
pub struct ControlHalf {
    pub(crate) slot: Slot,
    pub(crate) inner: Box<ControlInner>,
    ghost of_slot: { slot ≡ inner.value.started.slot },
}
