//! Orders that change a bearer or the rates (TS 23.401, 5.4.2 to 5.4.4). What the MME is to know is sent
//! where one is kept.
ghost use Rattle.std.specs.Prelude.{◌≡◌, true, is_some, IfOk, IfErr, IfSome};
ghost use Rattle.std.specs.Option.{option_map};
ghost use Rattle.std.specs.Result.{result_ok};
ghost use Rattle.pc_base.specs.declared.packet.Peer.{Peer};
ghost use Rattle.tft_codec.specs.Apply.{applied};
ghost use Rattle.tft_codec.specs.Spelling as templates;
ghost use Rattle.gtpv2_ie.specs.Validity.{IsOctets};
ghost use Rattle.gtpv2_msg.specs.Spelling.{spelling};
ghost use Rattle.bearer_state.specs.Bearer.{IsEbi, IsSeq};
ghost use Rattle.bearer_state.specs.Session.{HasRoom, IsAmbr};
ghost use Rattle.control_steps.specs.declared.command.CommandKind.TheVariants as commands;
ghost use Rattle.control_steps.specs.Messages.{update_bearer_request, delete_bearer_request};
ghost use Rattle.control_steps.specs.Row.{first_row, filters_made};
ghost use Rattle.control_steps.specs.Steps.{Does};

use crate::answer::{octets_of, silent};
use crate::{NoMemory, messages};
use bearer_state::{Bearers, Session};
use pc_base::{Kbps, Octets, Outcome, Peer, Reply};
use std::alloc::Global;
use tft_codec::{Filters, Tft, TftNo, apply};

/// What a template makes of filters; None where it doesn't apply.
fn applied(alloc: Global, filters: &Filters, tft: &Tft) -> Result<Option<Filters>, NoMemory>
    ensures made { IfOk result (λ made. made ≡ result_ok (applied filters.now tft.now)) }
    ensures memory { IfErr result (λ no_memory. is_some (result_ok (applied filters.now tft.now)) ≡ true) }
{
    match apply(alloc, filters, tft) {
        Ok(made) => Ok(Some(made)),
        Err(TftNo::NoMemory) => Err(NoMemory),
        Err(_) => Ok(None),
    }
}

/// What it makes of the filters of the active bearer of an EBI.
fn filters_made(
    alloc: Global,
    bearers: &Bearers,
    ebi: u8,
    tft: &Tft,
) -> Result<Option<Filters>, NoMemory>
    ensures made { IfOk result (λ made. made ≡ filters_made bearers.now ebi tft.now) }
    ensures memory { IfErr result (λ no_memory. is_some (filters_made bearers.now ebi tft.now) ≡ true) }
{
    match bearers.active(ebi) {
        Some(bearer) => applied(alloc, &bearer.choice.filters, tft),
        None => Ok(None),
    }
}

/// An Update Bearer Request to an MME, where one is kept.
fn update_order(
    alloc: Global,
    mme: Option<Peer>,
    seq: u32,
    ebi: u8,
    tft: Option<Octets>,
    up: Kbps,
    down: Kbps,
) -> Result<Option<Octets>, NoMemory>
    requires seq { IsSeq seq }
    requires ebi { IsEbi ebi }
    requires tft { IfSome tft (IsOctets 1000) }
    requires up { IsAmbr up }
    requires down { IsAmbr down }
    ensures { IfOk result (λ octets. octets ≡ option_map spelling
        (option_map (λ (peer : Peer). update_bearer_request peer.teid seq ebi tft up down) mme)) }
{
    match mme {
        Some(mme) => {
            let message = messages::update_bearer_request(
                alloc, mme.teid.0, seq, ebi, tft, up, down,
            )?;
            Ok(Some(octets_of(alloc, &message)?))
        }
        None => Ok(None),
    }
}

/// A Delete Bearer Request to an MME, where one is kept.
fn delete_order(
    alloc: Global,
    mme: Option<Peer>,
    seq: u32,
    ebi: u8,
) -> Result<Option<Octets>, NoMemory>
    requires seq { IsSeq seq }
    requires ebi { IsEbi ebi }
    ensures { IfOk result (λ octets. octets
        ≡ option_map spelling (option_map (λ (peer : Peer). delete_bearer_request peer.teid seq ebi) mme)) }
{
    match mme {
        Some(mme) => {
            let message = messages::delete_bearer_request(alloc, mme.teid.0, seq, ebi)?;
            Ok(Some(octets_of(alloc, &message)?))
        }
        None => Ok(None),
    }
}

/// The order of a template for the filters of a bearer.
pub fn refilter(
    alloc: Global,
    session: &mut Session,
    seq: u32,
    ebi: u8,
    tft: &Tft,
) -> Result<Reply, NoMemory>
    requires seq { IsSeq seq }
    requires ebi { IsEbi ebi }
    ensures { Does (first_row session.old (commands.Filters seq ebi tft.now))
        (commands.Filters seq ebi tft.now) session.old session.new result }
{
    if !session.live {
        return Ok(silent(Outcome::No));
    }
    let Some(filters) = filters_made(alloc, &session.bearers, ebi, tft)? else {
        return Ok(silent(Outcome::No));
    };
    let octets = messages::tft_octets(alloc, tft)?;
    let message = update_order(
        alloc,
        session.mme,
        seq,
        ebi,
        Some(octets),
        session.up,
        session.down,
    )?;
    session.set_filters(ebi, filters);
    Ok(Reply {
        outcome: Outcome::Done,
        message,
    })
}

/// The order that a bearer goes.
pub fn drop_bearer(
    alloc: Global,
    session: &mut Session,
    seq: u32,
    ebi: u8,
) -> Result<Reply, NoMemory>
    requires seq { IsSeq seq }
    requires ebi { IsEbi ebi }
    ensures { Does (first_row session.old (commands.Drop seq ebi))
        (commands.Drop seq ebi) session.old session.new result }
{
    if !session.live || !session.bearers.has_dedicated(ebi) {
        return Ok(silent(Outcome::No));
    }
    let message = delete_order(alloc, session.mme, seq, ebi)?;
    session.drop_bearer(ebi);
    Ok(Reply {
        outcome: Outcome::Done,
        message,
    })
}

/// The order of other rates.
pub fn rerate(
    alloc: Global,
    session: &mut Session,
    seq: u32,
    up: Kbps,
    down: Kbps,
) -> Result<Reply, NoMemory>
    requires seq { IsSeq seq }
    requires up { IsAmbr up }
    requires down { IsAmbr down }
    requires room { HasRoom session.old }
    ensures { Does (first_row session.old (commands.Ambr seq up down))
        (commands.Ambr seq up down) session.old session.new result }
{
    let Some(default) = session.default_bearer() else {
        return Ok(silent(Outcome::No));
    };
    let message = update_order(alloc, session.mme, seq, default.ebi, None, up, down)?;
    session.set_rates(up, down);
    Ok(Reply {
        outcome: Outcome::Done,
        message,
    })
}
