//! A session with its bearers.
ghost use Rattle.std.specs.Prelude.{◌≡◌, ◌^◌, ◌&&◌, nat_lt, IfOk, IfSome};
ghost use Rattle.bearer_state.specs.Session.{IsKept};
ghost use Rattle.record_codec.specs.Read.{Reads, times, option_at, peer_at, kept_at, phase_at, qos_at, bearer_at};
ghost use Rattle.record_codec.specs.Read.{bearers_at, session_at, lives_below, is_active_phase, has_bearers_of};

use crate::fault::Fault;
use crate::fields::{Input, count_at, flag_at, measured_32, rate_at, u8_at, u32_at, u64_at};
use crate::filters::filters_at;
use bearer_state::{Bearer, Bearers, Kept, Phase, Qos, Session};
use pc_base::{Addr4, Kbps, Octets, Peer, Slot, Teid};
use std::alloc::Global;
use tft_codec::BearerFilters;

/// A sequence number of GTPv2-C is below this (TS 29.274, 5.1).
const SEQUENCES: u32 = 1 << 24;

/// The rates of an APN-AMBR are below this (TS 29.274, 8.7).
const AMBRS: u64 = 1 << 32;

#[tactic(auto, unfolding(crate::specs::Read::peer_at, crate::specs::Read::and_then))]
fn peer_at(input: &mut Input<'_>) -> Result<Peer, Fault>
    ensures { Reads (λ x. x) result (peer_at input.old.rest.now) input.new.rest.now }
{
    let teid = u32_at(input)?;
    let addr = u32_at(input)?;
    let peer = Peer {
        teid: Teid(teid),
        addr: Addr4(addr),
    };
    Ok(peer)
}

#[tactic(auto, unfolding(crate::specs::Read::option_at, crate::specs::Read::and_then))]
fn peer_or_none(input: &mut Input<'_>) -> Result<Option<Peer>, Fault>
    ensures { Reads (λ x. x) result (option_at peer_at input.old.rest.now) input.new.rest.now }
{
    let is_there = flag_at(input)?;
    if !is_there {
        return Ok(None);
    }
    let peer = peer_at(input)?;
    Ok(Some(peer))
}

#[tactic(auto, unfolding(crate::specs::Read::kept_at, crate::specs::Read::such, crate::specs::Read::and_then))]
fn kept_at(alloc: Global, input: &mut Input<'_>) -> Result<Kept, Fault>
    ensures read { Reads (λ x. x) result (kept_at input.old.rest.now) input.new.rest.now }
    ensures kept { IfOk result (λ kept. IsKept kept) }
{
    let kind = u8_at(input)?;
    let seq = u32_at(input)?;
    let reply = measured_32(input)?;
    if seq >= SEQUENCES || reply.is_empty() {
        return Err(Fault::NotState);
    }
    let kept = Kept {
        kind,
        seq,
        reply: Octets::of(Vec::from_slice(alloc, reply)?),
    };
    Ok(kept)
}

#[tactic(auto, unfolding(crate::specs::Read::option_at, crate::specs::Read::and_then))]
fn kept_or_none(alloc: Global, input: &mut Input<'_>) -> Result<Option<Kept>, Fault>
    ensures read { Reads (λ x. x) result (option_at kept_at input.old.rest.now) input.new.rest.now }
    ensures kept { IfOk result (λ last. IfSome last IsKept) }
{
    let is_there = flag_at(input)?;
    if !is_there {
        return Ok(None);
    }
    let kept = kept_at(alloc, input)?;
    Ok(Some(kept))
}

#[tactic(auto, unfolding(crate::specs::Read::phase_at, crate::specs::Read::and_then))]
fn phase_at(input: &mut Input<'_>) -> Result<Phase, Fault>
    ensures { Reads (λ x. x) result (phase_at input.old.rest.now) input.new.rest.now }
{
    let is_active = flag_at(input)?;
    if is_active {
        let ebi = u8_at(input)?;
        Ok(Phase::Active(ebi))
    } else {
        let seq = u32_at(input)?;
        Ok(Phase::Asked(seq))
    }
}

#[tactic(auto, unfolding(crate::specs::Read::qos_at, crate::specs::Read::and_then))]
fn qos_at(input: &mut Input<'_>) -> Result<Qos, Fault>
    ensures { Reads (λ x. x) result (qos_at input.old.rest.now) input.new.rest.now }
{
    let arp = u8_at(input)?;
    let qci = u8_at(input)?;
    let mbr_up = rate_at(input)?;
    let mbr_down = rate_at(input)?;
    let gbr_up = rate_at(input)?;
    let gbr_down = rate_at(input)?;
    let qos = Qos {
        arp,
        qci,
        mbr_up,
        mbr_down,
        gbr_up,
        gbr_down,
    };
    Ok(qos)
}

#[tactic(auto, unfolding(crate::specs::Read::bearer_at, crate::specs::Read::and_then))]
fn bearer_at(alloc: Global, input: &mut Input<'_>) -> Result<Bearer, Fault>
    ensures { Reads (λ x. x) result (bearer_at input.old.rest.now) input.new.rest.now }
{
    let index = u8_at(input)?;
    let life = u64_at(input)?;
    let phase = phase_at(input)?;
    let qos = qos_at(input)?;
    let enb = peer_or_none(input)?;
    let filters = filters_at(alloc, input)?;
    let bearer = Bearer {
        life,
        phase,
        qos,
        enb,
        choice: BearerFilters { index, filters },
    };
    Ok(bearer)
}

fn bearers_of(alloc: Global, count: u8, input: &mut Input<'_>) -> Result<Vec<Bearer>, Fault>
    ensures { Reads (λ xs. xs.items) result (times count bearer_at input.old.rest.now) input.new.rest.now }
{
    let mut bearers = Vec::new(alloc);
    for _ in 0..count {
        let bearer = bearer_at(alloc, input)?;
        bearers.push(bearer)?;
    }
    Ok(bearers)
}

/// Bearers behind their number, which may be those of a session.
#[tactic(auto, unfolding(crate::specs::Read::such, crate::specs::Read::listed_at, crate::specs::Read::and_then))]
fn bearers_at(alloc: Global, input: &mut Input<'_>) -> Result<Bearers, Fault>
    ensures { Reads (λ x. x) result (bearers_at input.old.rest.now) input.new.rest.now }
{
    let count = u8_at(input)?;
    let bearers = bearers_of(alloc, count, input)?;
    match Bearers::of(bearers) {
        Some(bearers) => Ok(bearers),
        None => Err(Fault::NotState),
    }
}

/// Whether each bearer's life is below the next one.
fn lives_below(lives: u64, bearers: &[Bearer]) -> bool
    ensures { result ≡ lives_below lives bearers.now }
{
    bearers.iter().all(|bearer| bearer.life < lives)
}

/// Whether bearers are those of a session that is live, or isn't.
fn has_bearers_of(live: bool, bearers: &[Bearer]) -> bool
    ensures { result ≡ has_bearers_of live bearers.now }
{
    if !live {
        return bearers.is_empty();
    }
    match bearers {
        [] => false,
        [first, ..] => first.choice.index == 0 && is_active(first.phase),
    }
}

fn is_active(phase: Phase) -> bool
    ensures { result ≡ is_active_phase phase }
{
    match phase {
        Phase::Asked(_) => false,
        Phase::Active(_) => true,
    }
}

/// The session of a slot, in the ranges of a session.
#[tactic(auto, unfolding(crate::specs::Read::session_at, crate::specs::Read::such, crate::specs::Read::and_then))]
pub(crate) fn session_at(alloc: Global, slot: Slot, input: &mut Input<'_>) -> Result<Session, Fault>
    ensures { Reads (λ x. x) result (session_at slot input.old.rest.now) input.new.rest.now }
{
    let live = flag_at(input)?;
    let mme = peer_or_none(input)?;
    let up = rate_at(input)?;
    let down = rate_at(input)?;
    let rates = count_at(input)?;
    let lives = count_at(input)?;
    let last = kept_or_none(alloc, input)?;
    let bearers = bearers_at(alloc, input)?;
    if !may_be_session(live, up, down, lives, bearers.as_slice()) {
        return Err(Fault::NotState);
    }
    let session = Session {
        slot,
        live,
        mme,
        up,
        down,
        rates,
        bearers,
        lives,
        last,
    };
    Ok(session)
}

fn may_be_session(live: bool, up: Kbps, down: Kbps, lives: u64, bearers: &[Bearer]) -> bool
    ensures { result ≡ (nat_lt up (2 ^ 32) && (nat_lt down (2 ^ 32)
        && (lives_below lives bearers.now && has_bearers_of live bearers.now))) }
{
    up.0 < AMBRS && down.0 < AMBRS && lives_below(lives, bearers) && has_bearers_of(live, bearers)
}
