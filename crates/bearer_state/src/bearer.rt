//! A bearer of a session.
use crate::{ActiveBearer, Qos};
use pc_base::Peer;
use tft_codec::BearerFilters;

/// How far a bearer is.
#[derive(Clone, Copy, Debug, PartialEq, Eq)]
pub enum Phase {
    /// The MME was asked for it, under this sequence number.
    Asked(u32),
    /// It carries packets, under this EPS bearer identity, 5 to 15.
    Active(u8),
}

/// A bearer of a session. Its index, 0 to 10, stands with its filters; index 0 is the default bearer.
#[derive(Debug, Drop)]
pub struct Bearer {
    /// Its number among all bearers that the slot ever had, from 0.
    pub life: u64,
    pub phase: Phase,
    pub qos: Qos,
    /// Where its downlink packets go; None while the subscriber is idle.
    pub enb: Option<Peer>,
    pub choice: BearerFilters,
}

impl Bearer {
    ghost use Rattle.std.specs.Prelude.{◌≡◌};
    ghost use Rattle.bearer_state.specs.Bearer.{is_active, is_asked};
    ghost use Rattle.bearer_state.specs.Lookup.{is_dedicated};
    ghost use Rattle.bearer_state.specs.Version.{active_in};

    /// What a version keeps of the bearer; None where it isn't active yet.
    pub fn active(&self) -> Option<ActiveBearer>
        ensures { result ≡ active_in self.now self.now.phase }
    {
        match self.phase {
            Phase::Asked(_) => None,
            Phase::Active(ebi) => Some(ActiveBearer {
                index: self.choice.index,
                life: self.life,
                ebi,
                qos: self.qos,
                enb: self.enb,
            }),
        }
    }

    /// Whether the bearer is active under an EBI.
    pub fn is_active(&self, ebi: u8) -> bool
        ensures { result ≡ is_active ebi self.now }
    {
        match self.phase {
            Phase::Asked(_) => false,
            Phase::Active(own) => own == ebi,
        }
    }

    /// Whether the bearer was asked for under a sequence number.
    pub fn is_asked(&self, seq: u32) -> bool
        ensures { result ≡ is_asked seq self.now }
    {
        match self.phase {
            Phase::Asked(own) => own == seq,
            Phase::Active(_) => false,
        }
    }

    /// Whether the bearer is active under an EBI and isn't the default bearer.
    pub fn is_dedicated(&self, ebi: u8) -> bool
        ensures { result ≡ is_dedicated ebi self.now }
    {
        self.is_active(ebi) && self.choice.index != 0
    }
}
