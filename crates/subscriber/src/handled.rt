//! What became of a packet that was lent.
use packet_steps::LentVerdict;

/// What became of a packet, with its octets lent.
#[derive(Debug, Drop)]
pub struct Handled<'a> {
    /// The packet's place among the subscriber's packets.
    pub number: u64,
    /// How many commands of the subscriber it met.
    pub commands: u64,
    pub judged: LentVerdict<'a>,
}
