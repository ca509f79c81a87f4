//! What octets of the MME mean (S11, TS 29.274).
ghost use Rattle.std.specs.Prelude.{◌≡◌, ◌≢◌, ℕ, List, IfOk, MatchBool, option_map};
ghost use Rattle.bearer_state.specs.Bearer.{IsSeq};
ghost use Rattle.gtpv2_msg.specs.Refusal.{IsRefusal};
ghost use Rattle.gtpv2_msg.specs.Spelling.{spelling};
ghost use Rattle.control_steps.specs.Kinds.{IsAnswered};
ghost use Rattle.control_steps.specs.Messages.{cause_alone};
ghost use Rattle.demux.specs.Mme.{echo_response, echo_note, pool_note, no_context_reply, no_context_note};
ghost use Rattle.demux.specs.Mme.{create_or_unexpected, session_or_unexpected, message_asked, mme_asked};
ghost use Rattle.demux.specs.Resolved.{controller_in, resolved};

use crate::booking::{in_book, whose};
use crate::ends::control_slot;
use crate::requests::{creation, imsi_in, mme_in, session_command};
use crate::texts::{message_note, octets_note, reply_note, words};
use crate::{Decision, Whose};
use address_book::AddressBook;
use control_steps::CONTEXT_NOT_FOUND;
use gtpv2_ie::cause_value::ALL_DYNAMIC_ADDRESSES_ARE_OCCUPIED;
use gtpv2_ie::{CauseIe, Ie, IeValue};
use gtpv2_msg::{
    CBad, CREATE_SESSION_REQUEST, DOWNLINK_DATA_NOTIFICATION_ACKNOWLEDGE, ECHO_REQUEST,
    ECHO_RESPONSE, Ies, Msg, faults_or_spells, is_request, read, write,
};
use pc_base::{NoMemory, Octets, Slot, Teid};
use std::alloc::Global;

/// What octets of the MME mean.
#[inline(never)]
#[tactic(auto, unfolding(crate::specs::Resolved::resolved))]
pub fn decide_mme<'a>(
    alloc: Global,
    book: &AddressBook,
    octets: &[u8],
) -> Result<Decision<'a>, NoMemory>
    ensures { (slices : ℕ) → IfOk result (λ decision. decision ≡ resolved slices book.now (mme_asked octets.now)) }
{
    match read(alloc, octets) {
        Ok(message) => {
            // Octets that spell a message have no fault.
            faults_or_spells();
            decide_message(alloc, book, &message)
        }
        Err(bad) => decide_refused(alloc, octets, &bad),
    }
}

// Octets that are refused with a fault.
#[tactic(auto, unfolding(crate::specs::Resolved::resolved))]
fn decide_refused<'a>(alloc: Global, octets: &[u8], bad: &CBad) -> Result<Decision<'a>, NoMemory>
    requires { IsRefusal octets.now bad.now }
    ensures { (slices : ℕ) (book : List (List ℕ)) → IfOk result (λ decision. decision
        ≡ resolved slices book (mme_asked octets.now)) }
{
    if is_no_memory(bad) {
        return Err(NoMemory);
    }
    Ok(Decision::Note(message_note(alloc, octets, bad)?))
}

fn is_no_memory(bad: &CBad) -> bool
    ensures { MatchBool result (bad.now ≡ CBad.NoMemory) (bad.now ≢ CBad.NoMemory) }
{
    match bad {
        CBad::NoMemory => true,
        _ => false,
    }
}

#[tactic(auto, unfolding(crate::specs::Mme::message_asked, crate::specs::Resolved::resolved))]
fn decide_message<'a>(
    alloc: Global,
    book: &AddressBook,
    message: &Msg,
) -> Result<Decision<'a>, NoMemory>
    ensures { (slices : ℕ) → IfOk result (λ decision. decision ≡ resolved slices book.now (message_asked message.now)) }
{
    match message.kind {
        ECHO_REQUEST => Ok(Decision::Note(echo_note(alloc, message.seq)?)),
        ECHO_RESPONSE | DOWNLINK_DATA_NOTIFICATION_ACKNOWLEDGE => {
            Ok(Decision::Note(words(alloc, "s11 noted")?))
        }
        CREATE_SESSION_REQUEST => decide_creation(alloc, book, message),
        _ => decide_session(alloc, book, message),
    }
}

// A Create Session Request.
#[tactic(auto, unfolding(crate::specs::Mme::create_or_unexpected, crate::specs::Resolved::resolved))]
fn decide_creation<'a>(
    alloc: Global,
    book: &AddressBook,
    message: &Msg,
) -> Result<Decision<'a>, NoMemory>
    ensures { (slices : ℕ) → IfOk result (λ decision. decision
        ≡ resolved slices book.now (create_or_unexpected message.now)) }
{
    let (Some(imsi), Some(mme), Some(command)) = (
        imsi_in(message),
        mme_in(message),
        creation(message),
    ) else {
        return Ok(Decision::Note(words(alloc, "s11 unexpected")?));
    };
    match whose(book, imsi) {
        Some(whose) => Ok(Decision::Command { whose, command }),
        None => Ok(Decision::Note(pool_note(alloc, mme.teid, message.seq)?)),
    }
}

// A message to a session by the TEID in its header.
#[tactic(auto, unfolding(crate::specs::Mme::session_or_unexpected, crate::specs::Resolved::resolved))]
fn decide_session<'a>(
    alloc: Global,
    book: &AddressBook,
    message: &Msg,
) -> Result<Decision<'a>, NoMemory>
    ensures { (slices : ℕ) → IfOk result (λ decision. decision
        ≡ resolved slices book.now (session_or_unexpected message.now)) }
{
    let Some(command) = session_command(alloc, message)? else {
        return Ok(Decision::Note(words(alloc, "s11 unexpected")?));
    };
    match session_slot(book, message.teid) {
        Some(slot) => Ok(Decision::Command {
            whose: Whose::Known(slot),
            command,
        }),
        None => Ok(Decision::Note(no_context_note(alloc, message)?)),
    }
}

// The slot of the book whose control TEID it is.
fn session_slot(book: &AddressBook, teid: Option<u32>) -> Option<Slot>
    ensures { result ≡ controller_in book.now teid }
{
    let slot = control_slot(Teid(teid?))?;
    in_book(book, slot)
}

fn echo_response(alloc: Global, seq: u32) -> Result<Msg, NoMemory>
    requires { IsSeq seq }
    ensures { IfOk result (λ message. message ≡ echo_response seq) }
{
    let recovery = Ie {
        instance: 0,
        value: IeValue::Recovery(0),
    };
    Ok(Msg {
        kind: ECHO_RESPONSE,
        teid: None,
        seq,
        ies: Ies::of(vec![in alloc; recovery]?),
    })
}

fn echo_note(alloc: Global, seq: u32) -> Result<Octets, NoMemory>
    requires { IsSeq seq }
    ensures { IfOk result (λ note. note ≡ echo_note seq) }
{
    let message = echo_response(alloc, seq)?;
    octets_note(alloc, "s11 echo", &write(alloc, &message)?)
}

// The answer to a request that is a cause alone.
fn cause_alone(
    alloc: Global,
    teid: u32,
    request: u8,
    seq: u32,
    code: u8,
) -> Result<Vec<u8>, NoMemory>
    requires request { IsAnswered request }
    requires seq { IsSeq seq }
    ensures { IfOk result (λ reply. reply.items ≡ spelling (cause_alone teid request seq code)) }
{
    let cause = Ie {
        instance: 0,
        value: IeValue::Cause(CauseIe {
            cause: code,
            offending: None,
        }),
    };
    let message = Msg {
        kind: request + 1,
        teid: Some(teid),
        seq,
        ies: Ies::of(vec![in alloc; cause]?),
    };
    write(alloc, &message)
}

fn pool_note(alloc: Global, teid: Teid, seq: u32) -> Result<Octets, NoMemory>
    requires { IsSeq seq }
    ensures { IfOk result (λ note. note ≡ pool_note teid seq) }
{
    let reply = cause_alone(
        alloc,
        teid.0,
        CREATE_SESSION_REQUEST,
        seq,
        ALL_DYNAMIC_ADDRESSES_ARE_OCCUPIED,
    )?;
    octets_note(alloc, "s11 pool", &reply)
}

// The reply to a request of no session.
fn no_context_reply(alloc: Global, message: &Msg) -> Result<Option<Vec<u8>>, NoMemory>
    ensures { IfOk result (λ reply. option_map (λ v. v.items) reply ≡ no_context_reply message.now) }
{
    if is_request(message.kind) {
        Ok(Some(cause_alone(alloc, 0, message.kind, message.seq, CONTEXT_NOT_FOUND)?))
    } else {
        Ok(None)
    }
}

fn no_context_note(alloc: Global, message: &Msg) -> Result<Octets, NoMemory>
    ensures { IfOk result (λ note. note ≡ no_context_note message.now) }
{
    let reply = no_context_reply(alloc, message)?;
    reply_note(alloc, "s11 nocontext", &reply)
}
