//! Replies of GTPv2-C.
ghost use Rattle.std.specs.Prelude.{◌≡◌, ◌≢◌, ◌<◌, ◌^◌, ◌==◌, true, Some, None, if◌then◌else◌};
ghost use Rattle.gtpv2_msg.specs.Kinds as kinds;
ghost use Rattle.gtpv2_msg.specs.Refusal.{refusing};
ghost use Rattle.gtpv2_msg.specs.Spelling.{spelling};
ghost use Rattle.gtp_c.specs.Reply.{fault_said, silent_code, reply_to, WritesReply, echo_response, EchoAnswer};

use crate::gtpv2::{Gtpv2Head, head_of};
use gtp_c_base::code::{INCORRECT, MISSING, NO_REPLY, RANGE};
use gtp_c_base::put;
use gtpv2_ie::element_type::{CAUSE, RECOVERY};
use gtpv2_msg::{
    ECHO_REQUEST, ECHO_RESPONSE, MANDATORY_IE_INCORRECT, MANDATORY_IE_MISSING, is_request,
};
use wire_octets::be24_octets;

/// The type of the answer to a request.
#[tactic(auto, unfolding(gtpv2_msg::specs::Kinds::is_request))]
fn answer_of(request: u8) -> u8
    requires { kinds.is_request request ≡ true }
    ensures { result ≡ kinds.answer_of request }
{
    request + 1
}

/// The answer to a request that has a TEID in its header: a Cause alone.
fn refusing(request: u8, seq: u32, cause: u8, of: (u8, u8)) -> [u8; 22]
    requires request { kinds.is_request request ≡ true }
    requires teid { request ≢ 1 }
    requires seq { seq < 2 ^ 24 }
    ensures { result ≡ spelling (refusing request seq cause of) }
{
    let kind = answer_of(request);
    let [high, middle, low] = be24_octets(seq);
    let (of_kind, of_instance) = of;
    [
        0x48,
        kind,
        0,
        18,
        0,
        0,
        0,
        0,
        high,
        middle,
        low,
        0,
        CAUSE,
        0,
        6,
        0,
        cause,
        0,
        of_kind,
        0,
        0,
        of_instance,
    ]
}

/// The same to an Echo Request, which has none.
fn refusing_echo(seq: u32, cause: u8, of: (u8, u8)) -> [u8; 18]
    requires { seq < 2 ^ 24 }
    ensures { result ≡ spelling (refusing 1 seq cause of) }
{
    let [high, middle, low] = be24_octets(seq);
    let (of_kind, of_instance) = of;
    [
        0x40,
        ECHO_RESPONSE,
        0,
        14,
        high,
        middle,
        low,
        0,
        CAUSE,
        0,
        6,
        0,
        cause,
        0,
        of_kind,
        0,
        0,
        of_instance,
    ]
}

/// The cause of a fault of an element; None where the number is none of these.
fn cause_of(fault: u32) -> Option<u8>
    ensures { result ≡ (if fault == 10 then Some 70 else if fault == 11 then Some 69 else None) }
{
    match fault {
        MISSING => Some(MANDATORY_IE_MISSING),
        INCORRECT => Some(MANDATORY_IE_INCORRECT),
        _ => None,
    }
}

/// Writes the reply to a request whose element of this type and instance, below 16, is missing or incorrect
/// (`fault`): with that Cause, to its sequence number and header TEID 0 (TS 29.274, section 7.7).
#[unsafe(no_mangle)]
pub extern "C" fn gtp_c_gtpv2_refusal(
    request: &[u8],
    fault: u32,
    kind: u8,
    instance: u8,
    out: &mut [u8],
    needed: &mut usize,
) -> u32
    ensures { WritesReply (reply_to request.now (fault_said fault kind instance))
        (silent_code request.now (fault_said fault kind instance)) result out.old out.new needed.new }
{
    *needed = 0;
    if instance > 15 {
        return RANGE;
    }
    let Some(cause) = cause_of(fault) else {
        return RANGE;
    };
    let mut head = Gtpv2Head {
        ies_from: 0,
        ies_len: 0,
        teid: 0,
        seq: 0,
        has_teid: 0,
        kind: 0,
    };
    let bad = head_of(request, &mut head);
    if bad != 0 {
        return bad;
    }
    if !is_request(head.kind) {
        return NO_REPLY;
    }
    if head.kind == ECHO_REQUEST {
        return put(
            &refusing_echo(head.seq, cause, (kind, instance)),
            out,
            needed,
        );
    }
    put(
        &refusing(head.kind, head.seq, cause, (kind, instance)),
        out,
        needed,
    )
}

fn echo_response(seq: u32, counter: u8) -> [u8; 13]
    requires { seq < 2 ^ 24 }
    ensures { result ≡ spelling (echo_response seq counter) }
{
    let [high, middle, low] = be24_octets(seq);
    [
        0x40,
        ECHO_RESPONSE,
        0,
        9,
        high,
        middle,
        low,
        0,
        RECOVERY,
        0,
        1,
        0,
        counter,
    ]
}

/// Writes an Echo Response to a sequence number, below 2^24, with a restart counter (TS 29.274, section 7.1.2).
#[unsafe(no_mangle)]
pub extern "C" fn gtp_c_gtpv2_echo_response(
    seq: u32,
    counter: u8,
    out: &mut [u8],
    needed: &mut usize,
) -> u32
    ensures { EchoAnswer seq (spelling (echo_response seq counter)) result out.old out.new needed.new }
{
    *needed = 0;
    if seq >= 1 << 24 {
        return RANGE;
    }
    put(&echo_response(seq, counter), out, needed)
}
