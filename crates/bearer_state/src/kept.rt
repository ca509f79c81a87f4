//! The answer that is kept for repeats.
use pc_base::Octets;

/// The last answer to a request of the MME.
#[derive(Debug, Drop)]
pub struct Kept {
    /// The message type of the request.
    pub kind: u8,
    /// Its sequence number, below 2^24.
    pub seq: u32,
    /// The octets of the answer, at least one.
    pub reply: Octets,
}
