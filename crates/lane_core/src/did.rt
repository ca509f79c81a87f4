//! What a turn of whoever serves lanes came to.

/// The answer of a turn.
#[derive(Clone, Copy, Debug, PartialEq, Eq)]
pub enum Did {
    /// There was nothing to do.
    Idle,
    /// What was ready could not be sent on.
    Held,
    /// Something was done.
    Worked,
}
