//! The messages that are written.
ghost use Rattle.std.specs.Prelude.{◌≡◌, IfOk};

use pc_base::{Addr4, NoMemory, Octets, Teid};

/// A message of GTP-U (TS 29.281, section 7).
#[derive(Clone, Debug, Drop, PartialEq, Eq)]
pub enum GtpU {
    /// Asks whether the peer is alive (section 7.2.1).
    EchoRequest { seq: u16 },
    /// Answers that, with a restart counter of 0 (section 7.2.2).
    EchoResponse { seq: u16 },
    /// Tells the peer that there is no tunnel of this TEID at this address (section 7.3.1).
    ErrorIndication { seq: u16, teid: Teid, peer: Addr4 },
    /// Ends the payload of a tunnel (section 7.3.2).
    EndMarker { teid: Teid },
    /// A packet of a user, in the tunnel of this TEID.
    Gpdu { teid: Teid, payload: Octets },
}

impl GtpU {
    /// A copy of the message.
    pub fn try_clone(&self) -> Result<GtpU, NoMemory>
        ensures { IfOk result (λ copy. copy ≡ self.now) }
    {
        self.clone()
    }
}
