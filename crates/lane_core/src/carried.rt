//! What a lane carries.
ghost use Rattle.std.specs.Prelude.{List};

/// An item of a lane. It may go to another thread, and a lane that is given up may let it go.
pub trait Carried: Send + Drop {
    /// Which items may be sent after these. For most types any may.
    ghost follows: { List Self → Self → Type 0 } = { λ before item. Unit {0} };
}
