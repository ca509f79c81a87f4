//! A subscriber's session.
use crate::{ActiveBearer, Bearers, Kept, NoMemory, Version};
use pc_base::{Kbps, Peer, Slot};
use std::alloc::Global;
use std::marker::Model;

/// A count above this doesn't rise any more, so that none passes 2^61.
const MOST_COUNT: u64 = 0x2000_0000_0000_0000 - 20;

/// A subscriber's session, with the ranges that `IsSession` names.
#[derive(Debug, Drop)]
pub struct Session {
    pub slot: Slot,
    /// Whether the subscriber is attached: then the default bearer is there, else there is none.
    pub live: bool,
    /// Where requests go; None where no MME is known.
    pub mme: Option<Peer>,
    /// The APN-AMBR up and down, below 2^32 kbps.
    pub up: Kbps,
    pub down: Kbps,
    /// How often the APN-AMBR was set, at most 2^61.
    pub rates: u64,
    pub bearers: Bearers,
    /// How many bearers the slot ever had, at most 2^61; the next one's life.
    pub lives: u64,
    /// The last answer to a request.
    pub last: Option<Kept>,
}

impl Model for Session {
    ghost use Rattle.bearer_state.specs.Session.{SessionState, IsSession};

    ghost Value = { SessionState };

    ghost view = { λ session. record {
      slot = session.slot;
      live = session.live;
      mme = session.mme;
      up = session.up;
      down = session.down;
      rates = session.rates;
      bearers = session.bearers;
      lives = session.lives;
      last = session.last;
    } };

    ghost invariant = { λ session. IsSession (record {
      slot = session.slot;
      live = session.live;
      mme = session.mme;
      up = session.up;
      down = session.down;
      rates = session.rates;
      bearers = session.bearers;
      lives = session.lives;
      last = session.last;
    }) };
}

impl Session {
    ghost use Rattle.std.specs.Prelude.{◌≡◌, ◌≤◌, ◌^◌, ◌↔◌, IsTrue, IsSome, IfOk, IfSome};
    ghost use Rattle.bearer_state.specs.Session.{new_session, HasRoom, IsSession};
    ghost use Rattle.bearer_state.specs.Bearer.{AreBearers, IsEbi};
    ghost use Rattle.bearer_state.specs.Lookup.{default_of};
    ghost use Rattle.bearer_state.specs.Qos.{IsQos};
    ghost use Rattle.bearer_state.specs.Version.{version_of};

    /// The session of a slot before its first command.
    pub fn new(alloc: Global, slot: Slot) -> Session
        ensures { result ≡ new_session slot }
    {
        Session {
            slot,
            live: false,
            mme: None,
            up: Kbps(0),
            down: Kbps(0),
            rates: 0,
            bearers: Bearers::new(alloc),
            lives: 0,
            last: None,
        }
    }

    /// The ranges that every session keeps.
    pub fn known(&self)
        ensures session { IsSession self.now }
        ensures bearers { AreBearers self.now.bearers }
    {
        let _bearers = self.bearers.as_slice();
    }

    /// The default bearer, which a live session has, and no other.
    pub fn default_bearer(&self) -> Option<ActiveBearer>
        ensures value { result ≡ default_of self.now.bearers }
        ensures live { IsSome result ↔ IsTrue self.now.live }
        ensures valid { IfSome result (λ bearer. IsEbi bearer.ebi × IsQos bearer.qos) }
    {
        self.bearers.default_bearer()
    }

    /// Whether the counts of lives and of rates may rise: each is at most 2^61 − 20.
    pub fn has_room(&self) -> bool
        ensures { IsTrue result ↔ HasRoom self.now }
    {
        self.rates <= MOST_COUNT && self.lives <= MOST_COUNT
    }

    /// The version of the session under a number, at most 2^61: what its packets go by.
    pub fn version(&self, number: u64) -> Result<Version, NoMemory>
        requires { number ≤ 2 ^ 61 }
        ensures { IfOk result (λ version. version ≡ version_of self.now number) }
    {
        Version::of(self, number)
    }
}
