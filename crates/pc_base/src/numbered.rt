//! Values that have a number among their kind.
ghost use Rattle.std.specs.Prelude.{◌≡◌, ℕ};

/// A value with a number, as a version of a subscriber: the first one, the next one, and so on.
pub trait Numbered: Send {
    /// The value's number.
    ghost number_of: { Self → ℕ };

    fn number(&self) -> u64
        ensures { result ≡ number_of self.now };
}
