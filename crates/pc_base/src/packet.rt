//! What becomes of a packet, and where it comes from and goes.
ghost use Rattle.std.specs.Prelude.{◌≡◌, IfOk};

use crate::{Addr4, Moment, NoMemory, Octets, SliceNo, Teid};

/// The other end of a GTP-U tunnel: where to send, and under which TEID.
#[derive(Clone, Copy, Debug, PartialEq, Eq)]
pub struct Peer {
    pub teid: Teid,
    pub addr: Addr4,
}

/// Where a subscriber's data half stands.
#[derive(Clone, Copy, Debug, PartialEq, Eq)]
pub enum Place {
    /// On this slice.
    At(SliceNo),
    /// At the end of an epoch, when every half goes home.
    Closing,
}

/// What a TEID of the gateway is for in its slot.
#[derive(Clone, Copy, Debug, PartialEq, Eq)]
pub enum TeidUse {
    /// The control plane (S11).
    Control,
    /// The user plane of the bearer of this index.
    Bearer(u8),
}

/// The direction of a packet.
#[derive(Clone, Copy, Debug, PartialEq, Eq)]
pub enum Way {
    /// From the subscriber, on the bearer of this index.
    Up(u8),
    /// To the subscriber.
    Down,
}

/// A packet of a subscriber.
#[derive(Clone, Debug, Drop, PartialEq, Eq)]
pub struct Packet {
    /// Its place among the subscriber's packets.
    pub number: u64,
    pub moment: Moment,
    pub way: Way,
    /// One IPv4 packet, of just its total length.
    pub octets: Octets,
}

impl Packet {
    /// A copy of the packet.
    pub fn try_clone(&self) -> Result<Packet, NoMemory>
        ensures { IfOk result (λ copy. copy ≡ self.now) }
    {
        self.clone()
    }
}

/// What became of a packet.
#[derive(Clone, Debug, Drop, PartialEq, Eq)]
pub enum Verdict {
    /// Forwarded to the internet, counted for this life of the bearer.
    Up {
        life: u64,
        octets: Octets,
    },
    /// Forwarded to this eNodeB as these octets of GTP-U.
    Down {
        life: u64,
        peer: Addr4,
        octets: Octets,
    },
    /// The subscriber has no such bearer.
    NoBearer,
    /// The source isn't the subscriber's own address.
    Spoof,
    /// The bearer has no eNodeB, and the packet isn't kept for it.
    Idle {
        life: u64,
    },
    /// Held until its bearer has an eNodeB. The message is the Downlink Data Notification, where one
    /// is sent (TS 23.401, section 5.3.4.3).
    Held {
        life: u64,
        message: Option<Octets>,
    },
    /// The bearer's rate is used up.
    Policed {
        life: u64,
    },
}

impl Verdict {
    /// A copy of the verdict.
    pub fn try_clone(&self) -> Result<Verdict, NoMemory>
        ensures { IfOk result (λ copy. copy ≡ self.now) }
    {
        self.clone()
    }
}
