//! A verdict with the packet's octets lent: no list is made for them.
use pc_base::{Octets, Peer};

/// What became of a packet, as a `Verdict` says it, with the packet's own octets where they lie.
#[derive(Debug, Drop)]
pub enum LentVerdict<'a> {
    /// Forwarded to the internet, counted for this life of the bearer.
    Up {
        life: u64,
        octets: &'a [u8],
    },
    /// Forwarded to this eNodeB, in its tunnel.
    Down {
        life: u64,
        peer: Peer,
        octets: &'a [u8],
    },
    /// The subscriber has no such bearer.
    NoBearer,
    /// The source isn't the subscriber's own address.
    Spoof,
    /// The bearer has no eNodeB, and sixteen packets are held already.
    Idle {
        life: u64,
    },
    /// Held until its bearer has an eNodeB, with the Downlink Data Notification, where one is sent.
    Held {
        life: u64,
        message: Option<Octets>,
    },
    /// The bearer's rate is used up.
    Policed {
        life: u64,
    },
}
