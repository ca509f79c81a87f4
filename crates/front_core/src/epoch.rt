//! What is told of an epoch.
use at_rest::AtRest;
use counter_half::ToldVerdict;
use pc_base::Octets;
use slot_execution::{ToldEntry, ToldEpoch};

/// What is told of a line, the octets of its packet lent.
pub type FrontEntry<'p> = ToldEntry<Octets, ToldVerdict<'p>>;

/// What is told of an epoch.
pub type FrontEpoch<'p> = ToldEpoch<Octets, ToldVerdict<'p>>;

/// An epoch that is closed, and the gateway behind it.
#[derive(Drop)]
pub struct Ended<'p> {
    pub epoch: FrontEpoch<'p>,
    pub rest: AtRest,
}
