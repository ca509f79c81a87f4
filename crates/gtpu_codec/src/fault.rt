//! Refusals.
use thiserror::Error;

/// Why octets are no message, in the order of looking.
#[derive(Clone, Copy, Debug, PartialEq, Eq, Error)]
pub enum UBad {
    /// Fewer octets than the mandatory header has.
    #[error("fewer octets than a GTP-U header has")]
    Short,
    /// Another version than 1.
    #[error("a version of GTP other than 1")]
    Version,
    /// The protocol type is GTP', which is for charging (TS 32.295).
    #[error("GTP' in the place of GTP")]
    NotGtp,
    /// The length passes the octets that are there, or a flag is set and it is below 4.
    #[error("the length doesn't fit the octets")]
    Length,
    /// An extension header has length 0 or passes the end.
    #[error("an extension header is empty or passes the end")]
    Extension,
    /// A type of message that isn't spoken here.
    #[error("a type of message that isn't spoken here")]
    Kind,
}
