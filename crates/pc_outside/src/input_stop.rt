//! Why no more lines of an input come.

/// Why no more lines come.
#[derive(Clone, Copy, Debug, PartialEq, Eq)]
pub enum InputStop {
    /// The input ended.
    Ended,
    /// The source failed.
    ReadFault,
    /// A line has more than 132,000 octets.
    LineLong,
    /// The input has 2^40 octets or more.
    TooLong,
}
