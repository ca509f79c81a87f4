//! What is decided of a packet before it is done.
ghost use Rattle.std.specs.Prelude.{◌≡◌, ◌<◌, ◌^◌, length, IfOk};
ghost use Rattle.packet_steps.specs.Lent.{verdict_of};
ghost use Rattle.packet_steps.specs.Plans.{verdict_by};

use crate::messages::gpdu;
use crate::{LentVerdict, NoMemory};
use bearer_state::ActiveBearer;
use pc_base::{Octets, Peer, Verdict};
use rate_policer::Bucket;
use std::alloc::Global;

/// What is to become of a packet. What was tried comes with the bucket that is left, and what passes with how many
/// octets the packet has.
#[derive(Debug, Drop)]
pub enum Plan {
    NoBearer,
    Spoof,
    Idle {
        life: u64,
    },
    Hold {
        life: u64,
        message: Option<Octets>,
    },
    Policed {
        bearer: ActiveBearer,
        up: bool,
        bucket: Bucket,
    },
    Up {
        bearer: ActiveBearer,
        bucket: Bucket,
        len: u32,
    },
    Down {
        bearer: ActiveBearer,
        peer: Peer,
        bucket: Bucket,
        len: u32,
    },
}

impl Plan {
    /// The verdict, of octets that are lent.
    #[inline(always)]
    pub(crate) fn lend<'a>(self, octets: &'a [u8]) -> LentVerdict<'a>
        ensures { verdict_of result ≡ verdict_by self octets.now }
    {
        match self {
            Plan::NoBearer => LentVerdict::NoBearer,
            Plan::Spoof => LentVerdict::Spoof,
            Plan::Idle { life } => LentVerdict::Idle { life },
            Plan::Hold { life, message } => LentVerdict::Held { life, message },
            Plan::Policed { bearer, .. } => LentVerdict::Policed { life: bearer.life },
            Plan::Up { bearer, .. } => LentVerdict::Up {
                life: bearer.life,
                octets,
            },
            Plan::Down { bearer, peer, .. } => LentVerdict::Down {
                life: bearer.life,
                peer,
                octets,
            },
        }
    }

    /// The verdict, with octets of its own.
    #[inline(always)]
    pub(crate) fn verdict(&self, alloc: Global, octets: &[u8]) -> Result<Verdict, NoMemory>
        requires { length octets.now < 2 ^ 16 }
        ensures { IfOk result (λ verdict. verdict ≡ verdict_by self.now octets.now) }
    {
        match self {
            Plan::NoBearer => Ok(Verdict::NoBearer),
            Plan::Spoof => Ok(Verdict::Spoof),
            Plan::Idle { life } => Ok(Verdict::Idle { life: *life }),
            Plan::Hold { life, message } => Ok(Verdict::Held {
                life: *life,
                message: copy_of(message)?,
            }),
            Plan::Policed { bearer, .. } => Ok(Verdict::Policed { life: bearer.life }),
            Plan::Up { bearer, .. } => Ok(Verdict::Up {
                life: bearer.life,
                octets: Octets::of(Vec::from_slice(alloc, octets)?),
            }),
            Plan::Down { bearer, peer, .. } => Ok(Verdict::Down {
                life: bearer.life,
                peer: peer.addr,
                octets: gpdu(alloc, *peer, octets)?,
            }),
        }
    }
}

fn copy_of(message: &Option<Octets>) -> Result<Option<Octets>, NoMemory>
    ensures { IfOk result (λ copy. copy ≡ message.now) }
{
    match message {
        Some(octets) => Ok(Some(octets.try_clone()?)),
        None => Ok(None),
    }
}
