//! The order for one bearer more (TS 23.401, 5.4.1).
ghost use Rattle.std.specs.Prelude.{◌≡◌, ◌<◌, ◌≤◌, ◌^◌, true, Some, is_some, IsTrue, IfOk, IfErr};
ghost use Rattle.bearer_state.specs.Bearer.{IsEbi, IsSeq};
ghost use Rattle.bearer_state.specs.Lookup.{default_of, least_free};
ghost use Rattle.bearer_state.specs.Qos.{IsQos};
ghost use Rattle.bearer_state.specs.Session.{HasRoom};
ghost use Rattle.control_steps.specs.Terms.{added_by};
ghost use Rattle.control_steps.specs.Row as rows;
ghost use Rattle.control_steps.specs.Row.{first_row, filters_given};
ghost use Rattle.control_steps.specs.Steps.{Does};

use crate::NoMemory;
use crate::answer::{octets_of, silent};
use crate::messages::{BearerAsked, create_bearer_request, tft_octets};
use bearer_state::{ActiveBearer, Qos, Session};
use pc_base::{Kbps, Outcome, Peer, Reply};
use std::alloc::Global;
use tft_codec::{Filters, Tft, TftNo, apply};

/// What a bearer is asked for with, but for its filters.
#[derive(Clone, Copy, Debug)]
pub struct BearerTerms {
    pub seq: u32,
    pub qci: u8,
    pub mbr_up: Kbps,
    pub mbr_down: Kbps,
    pub gbr_up: Kbps,
    pub gbr_down: Kbps,
}

/// The filters that a template gives to a new bearer.
fn filters_given(alloc: Global, tft: &Tft) -> Result<Option<Filters>, NoMemory>
    ensures given { IfOk result (λ filters. filters ≡ filters_given tft.now) }
    ensures memory { IfErr result (λ no_memory. is_some (filters_given tft.now) ≡ true) }
{
    match tft {
        Tft::Create(_) => match apply(alloc, &Filters::new(alloc), tft) {
            Ok(filters) => Ok(Some(filters)),
            Err(TftNo::NoMemory) => Err(NoMemory),
            Err(_) => Ok(None),
        },
        _ => Ok(None),
    }
}

/// What the order needs: the default bearer, an MME, a free index, and filters.
#[derive(Drop)]
struct Found {
    default: ActiveBearer,
    mme: Peer,
    index: u8,
    filters: Filters,
}

/// A rate, which is below 2^40.
fn known(rate: Kbps) -> Kbps
    ensures value { result ≡ rate }
    ensures range { result < 2 ^ 40 }
{
    Kbps(rate.0)
}

/// The quality of service that is asked for: its ARP is that of the default bearer.
fn qos_of(default: &ActiveBearer, asked: &BearerTerms) -> Qos
    requires { IsQos default.now.qos }
    ensures value { result ≡ record {
      arp = default.now.qos.arp;
      qci = asked.now.qci;
      mbr_up = asked.now.mbr_up;
      mbr_down = asked.now.mbr_down;
      gbr_up = asked.now.gbr_up;
      gbr_down = asked.now.gbr_down;
    } }
    ensures valid { IsQos result }
{
    let _qci = asked.qci;
    Qos {
        arp: default.qos.arp,
        qci: asked.qci,
        mbr_up: known(asked.mbr_up),
        mbr_down: known(asked.mbr_down),
        gbr_up: known(asked.gbr_up),
        gbr_down: known(asked.gbr_down),
    }
}

/// The MME is asked for one bearer more.
fn ask(
    alloc: Global,
    session: &mut Session,
    asked: &BearerTerms,
    tft: &Tft,
    found: Found,
) -> Result<Reply, NoMemory>
    requires seq { IsSeq asked.now.seq }
    requires room { HasRoom session.old }
    requires live { IsTrue session.old.live }
    requires default { default_of session.old.bearers ≡ Some found.default }
    requires ebi { IsEbi found.default.ebi }
    requires qos { IsQos found.default.qos }
    requires mme { session.old.mme ≡ Some found.mme }
    requires index { least_free session.old.bearers ≡ Some found.index }
    requires index_range { found.index ≤ 10 }
    requires filters { filters_given tft.now ≡ Some found.filters }
    ensures { Does rows.asked (added_by asked.now tft.now) session.old session.new result }
{
    let qos = qos_of(&found.default, asked);
    let bearer = BearerAsked {
        index: found.index,
        tft: tft_octets(alloc, tft)?,
        qos,
    };
    let message = create_bearer_request(
        alloc,
        session.slot,
        found.mme.teid.0,
        asked.seq,
        found.default.ebi,
        bearer,
    )?;
    let octets = octets_of(alloc, &message)?;
    session.ask(found.index, asked.seq, qos, found.filters)?;
    Ok(Reply {
        outcome: Outcome::Done,
        message: Some(octets),
    })
}

/// The order for one bearer more.
pub fn add_bearer(
    alloc: Global,
    session: &mut Session,
    asked: &BearerTerms,
    tft: &Tft,
) -> Result<Reply, NoMemory>
    requires seq { IsSeq asked.now.seq }
    requires room { HasRoom session.old }
    ensures { Does (first_row session.old (added_by asked.now tft.now))
        (added_by asked.now tft.now) session.old session.new result }
{
    let Some(default) = session.default_bearer() else {
        return Ok(silent(Outcome::No));
    };
    let Some(mme) = session.mme else {
        return Ok(silent(Outcome::No));
    };
    let Some(index) = session.bearers.least_free() else {
        return Ok(silent(Outcome::No));
    };
    let Some(filters) = filters_given(alloc, tft)? else {
        return Ok(silent(Outcome::No));
    };
    let found = Found {
        default,
        mme,
        index,
        filters,
    };
    ask(alloc, session, asked, tft, found)
}
