//! The version of a session that its packets go by.
ghost use Rattle.std.specs.Prelude.{◌≡◌, IfOk};
ghost use Rattle.bearer_state.specs.Version.{actives, rows_of};

use crate::{Bearer, NoMemory, Phase, Qos, Session};
use pc_base::{Kbps, Numbered, Peer, Slot};
use std::alloc::Global;
use std::marker::Model;
use tft_codec::BearerFilters;

/// What a version keeps of an active bearer.
#[derive(Clone, Copy, Debug, PartialEq, Eq)]
pub struct ActiveBearer {
    /// 0 to 10.
    pub index: u8,
    pub life: u64,
    /// 5 to 15.
    pub ebi: u8,
    pub qos: Qos,
    /// Where its downlink packets go; None while the subscriber is idle.
    pub enb: Option<Peer>,
}

/// A session as it stood after so many commands, with its active bearers alone, in order of index,
/// and beside them the rows from which a downlink packet chooses one.
#[derive(Debug, Drop)]
pub struct Version {
    /// How many commands were done before, at most 2^61.
    pub number: u64,
    pub slot: Slot,
    /// Whether the subscriber is attached; else there are no bearers.
    pub live: bool,
    /// Where a Downlink Data Notification goes; None where no MME is known.
    pub mme: Option<Peer>,
    /// The APN-AMBR up and down, below 2^32 kbps.
    pub up: Kbps,
    pub down: Kbps,
    /// How often the APN-AMBR was set, at most 2^61.
    pub rates: u64,
    actives: Vec<ActiveBearer>,
    rows: Vec<BearerFilters>,
}

impl Model for Version {
    ghost use Rattle.bearer_state.specs.Version.{VersionState, IsVersion};

    ghost Value = { VersionState };

    ghost view = { λ version. record {
      number = version.number;
      slot = version.slot;
      live = version.live;
      mme = version.mme;
      up = version.up;
      down = version.down;
      rates = version.rates;
      bearers = version.actives.items;
      rows = version.rows.items;
    } };

    ghost invariant = { λ version. IsVersion (record {
      number = version.number;
      slot = version.slot;
      live = version.live;
      mme = version.mme;
      up = version.up;
      down = version.down;
      rates = version.rates;
      bearers = version.actives.items;
      rows = version.rows.items;
    }) };
}

impl Numbered for Version {
    ghost number_of = { λ version. version.number };

    fn number(&self) -> u64 {
        self.number
    }
}

impl Version {
    ghost use Rattle.std.specs.Prelude.{◌≡◌, ◌≤◌, ◌^◌, IfOk};
    ghost use Rattle.std.specs.Option.{option_copied};
    ghost use Rattle.bearer_state.specs.Version.{version_of, bearer_at, IsVersion};

    /// The version of a session under a number.
    pub(crate) fn of(session: &Session, number: u64) -> Result<Version, NoMemory>
        requires { number ≤ 2 ^ 61 }
        ensures { IfOk result (λ version. version ≡ version_of session.now number) }
    {
        let alloc = session.bearers.allocator();
        let bearers = session.bearers.as_slice();
        Ok(Version {
            number,
            slot: session.slot,
            live: session.live,
            mme: session.mme,
            up: session.up,
            down: session.down,
            rates: session.rates,
            actives: actives_of(alloc, bearers)?,
            rows: rows_of(alloc, bearers)?,
        })
    }

    /// The active bearers, in order of index.
    pub fn bearers(&self) -> &[ActiveBearer]
        ensures value { result.now ≡ self.now.bearers }
        ensures valid { IsVersion self.now }
    {
        &self.actives
    }

    /// The filters of each, in the same order: what a downlink packet chooses from.
    pub fn rows(&self) -> &[BearerFilters]
        ensures value { result.now ≡ self.now.rows }
        ensures valid { IsVersion self.now }
    {
        &self.rows
    }

    /// The active bearer of an index.
    pub fn bearer_at(&self, index: u8) -> Option<&ActiveBearer>
        ensures value { option_copied result ≡ bearer_at self.now.bearers index }
        ensures valid { IsVersion self.now }
    {
        self.actives.iter().find(|bearer| bearer.index == index)
    }
}

/// What a version keeps of the active ones of bearers.
fn actives_of(alloc: Global, bearers: &[Bearer]) -> Result<Vec<ActiveBearer>, NoMemory>
    ensures { IfOk result (λ list. list.items ≡ actives bearers.now) }
{
    let mut list = Vec::with_capacity(alloc, bearers.len())?;
    for bearer in bearers {
        match bearer.active() {
            Some(active) => list.push(active)?,
            None => {}
        }
    }
    Ok(list)
}

/// The filters of the active ones of bearers.
fn rows_of(alloc: Global, bearers: &[Bearer]) -> Result<Vec<BearerFilters>, NoMemory>
    ensures { IfOk result (λ list. list.items ≡ rows_of bearers.now) }
{
    let mut list = Vec::with_capacity(alloc, bearers.len())?;
    for bearer in bearers {
        match bearer.phase {
            Phase::Asked(_) => {}
            Phase::Active(_) => list.push(bearer.choice.try_clone()?)?,
        }
    }
    Ok(list)
}
