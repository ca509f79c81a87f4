//! What attending comes to.
use pc_base::Slot;

/// What a worker did for the front.
#[derive(Clone, Copy, Debug, PartialEq, Eq)]
pub enum Attended {
    /// No order was there, and no half went home.
    Nothing,
    /// The half of this slot came.
    Came(Slot),
    /// A half is to leave, if it is held; or one went home.
    Left,
}
