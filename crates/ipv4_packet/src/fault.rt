//! Why octets are no IPv4 packet.
use thiserror::Error;

/// Why octets begin with no IPv4 packet, in the order of looking.
#[derive(Clone, Copy, Debug, PartialEq, Eq, Error)]
pub enum IpBad {
    /// Fewer octets than the shortest header has.
    #[error("fewer octets than an IPv4 header has")]
    Short,
    /// The version isn't 4.
    #[error("a version of the Internet Protocol other than 4")]
    Version,
    /// The header's length is below five words, or above the octets.
    #[error("the header's length is below five words, or passes the end")]
    Header,
    /// The total length is below the header's length, or above the octets.
    #[error("the total length ends within the header, or passes the end")]
    Total,
}
