//! What is told of an epoch.
use packet_steps::LentVerdict;
use slot_execution::{ToldEntry, ToldEpoch};

/// What is told of a line. The text of a note and the octets of a verdict lie in the line.
pub type DrivenEntry<'a> = ToldEntry<&'a [u8], LentVerdict<'a>>;

/// What is told of an epoch.
pub type DrivenEpoch<'a> = ToldEpoch<&'a [u8], LentVerdict<'a>>;
