//! The half that a subscriber's packets meet.
ghost use Rattle.std.specs.Prelude.{◌≡◌};

use crate::inner::DataInner;
use pc_base::Slot;

/// A subscriber's data half. What it holds lies behind one pointer, since halves are handed from slice to slice.
#[derive(Drop)]
pub struct DataHalf<'p> {
    pub(crate) slot: Slot,
    pub(crate) inner: Box<DataInner<'p>>,
    ghost of_slot: { slot ≡ inner.value.state.started.session.slot },
}
