//! GTP-U.
ghost use Rattle.std.specs.Prelude.{
  ◌≡◌,
  ◌+◌,
  ◌-◌,
  ◌<◌,
  ◌++◌,
  ◌==◌,
  length,
  drop,
  MatchOption,
  IfSome,
  IsSomeAnd,
  if◌then◌else◌,
  Some,
  None,
};
ghost use Rattle.gtpu_codec.specs.Message.{message_of};
ghost use Rattle.gtpu_codec.specs.Refusal.{first_fault};
ghost use Rattle.gtpu_codec.specs.Text.{gpdu_head, spelling};
ghost use Rattle.gtpu_codec.specs.declared.message.GtpU.TheVariants as messages;
ghost use Rattle.gtp_c.specs.Gtpu.{Says, code_of, bad_number, gpdu_code};
ghost use Rattle.gtp_c_base.specs.Buffer.{Writes};

use gtp_c_base::code::{EXTENSION, KIND, LENGTH, NO_ROOM, NOT_GTP, SHORT, TOO_LONG, VERSION};
use gtp_c_base::put;
use gtpu_codec::{GtpUKind, MANDATORY_LEN, UBad, gpdu_head, read};
use pc_base::Teid;
use wire_octets::{be16_at, be16_octets, be32_at, be32_octets};

/// Octets 1 and 2 of a G-PDU without flags: version 1 and GTP, and its type (TS 29.281, section 5.1).
const PLAIN_GPDU: u16 = 0x30ff;

/// A message's head, and where its body lies. `seq` counts where `has_seq` is 1.
#[repr(C)]
#[derive(Clone, Copy, Drop)]
pub struct GtpuHead {
    pub body_from: usize,
    pub body_len: usize,
    pub teid: u32,
    pub seq: u16,
    pub has_seq: u8,
    pub kind: u8,
}

fn bad_number(bad: UBad) -> u32
    ensures { result ≡ bad_number bad }
{
    match bad {
        UBad::Short => SHORT,
        UBad::Version => VERSION,
        UBad::NotGtp => NOT_GTP,
        UBad::Length => LENGTH,
        UBad::Extension => EXTENSION,
        UBad::Kind => KIND,
    }
}

/// The sequence number and whether there is one, as numbers.
fn seq_numbers(seq: Option<u16>) -> (u8, u16)
    ensures { seq ≡ (if result.0 == 0 then None else Some result.1) }
{
    match seq {
        Some(seq) => (1, seq),
        None => (0, 0),
    }
}

/// What is said of a G-PDU without flags, as user packets commonly come in; None of all else.
#[inline]
fn plain_gpdu(bytes: &[u8]) -> Option<GtpuHead>
    ensures faultless { IfSome result (λ _. first_fault bytes.now ≡ None) }
    ensures message { IfSome result (λ head. IsSomeAnd (message_of bytes.now) (λ m. Says head bytes.now m.0 m.1)) }
{
    if bytes.len() < MANDATORY_LEN || be16_at(bytes, 0) != PLAIN_GPDU {
        return None;
    }
    let body_len = usize::from(be16_at(bytes, 2));
    if body_len > bytes.len() - MANDATORY_LEN {
        return None;
    }
    Some(GtpuHead {
        body_from: MANDATORY_LEN,
        body_len,
        teid: be32_at(bytes, 4),
        seq: 0,
        has_seq: 0,
        kind: GtpUKind::Gpdu.octet(),
    })
}

/// The message at the start of some octets.
#[unsafe(no_mangle)]
pub extern "C" fn gtp_c_gtpu_read(bytes: &[u8], head: &mut GtpuHead) -> u32
    ensures code { result ≡ code_of (first_fault bytes.now) }
    ensures message { MatchOption (message_of bytes.now) (head.new ≡ head.old) (λ m. Says head.new bytes.now m.0 m.1) }
{
    // It wants fewer tests than all that a header may have.
    if let Some(plain) = plain_gpdu(bytes) {
        *head = plain;
        return 0;
    }
    match read(bytes) {
        Err(bad) => bad_number(bad),
        Ok((found, body)) => {
            let (has_seq, seq) = seq_numbers(found.seq);
            let counted = usize::from(be16_at(bytes, 2));
            *head = GtpuHead {
                body_from: MANDATORY_LEN + (counted - body.len()),
                body_len: body.len(),
                teid: found.teid.0,
                seq,
                has_seq,
                kind: found.kind.octet(),
            };
            0
        }
    }
}

/// Writes the eight octets before a payload of so many octets (TS 29.281, section 5.1).
#[unsafe(no_mangle)]
pub extern "C" fn gtp_c_gpdu_head(
    teid: u32,
    payload_len: usize,
    out: &mut [u8],
    needed: &mut usize,
) -> u32
    ensures code { result ≡ gpdu_code payload_len (length out.old) }
    ensures needed { needed.new ≡ 8 }
    ensures written { out.new ≡ (if result == 0 then gpdu_head teid payload_len ++ drop 8 out.old else out.old) }
{
    *needed = MANDATORY_LEN;
    if payload_len > 65_535 {
        return TOO_LONG;
    }
    put(&gpdu_head(Teid(teid), payload_len as u16), out, needed)
}

/// Octets 9 and 10, which a message with a sequence number has.
fn echo_request(seq: u16) -> [u8; 12]
    ensures { result ≡ spelling (messages.EchoRequest seq) }
{
    let [seq_high, seq_low] = be16_octets(seq);
    [0x32, 1, 0, 4, 0, 0, 0, 0, seq_high, seq_low, 0, 0]
}

fn echo_response(seq: u16) -> [u8; 14]
    ensures { result ≡ spelling (messages.EchoResponse seq) }
{
    let [seq_high, seq_low] = be16_octets(seq);
    [0x32, 2, 0, 6, 0, 0, 0, 0, seq_high, seq_low, 0, 0, 14, 0]
}

fn error_indication(seq: u16, teid: u32, peer: u32) -> [u8; 24]
    ensures { result ≡ spelling (messages.ErrorIndication seq teid peer) }
{
    let [seq_high, seq_low] = be16_octets(seq);
    let [teid_1, teid_2, teid_3, teid_4] = be32_octets(teid);
    let [peer_1, peer_2, peer_3, peer_4] = be32_octets(peer);
    [
        0x32, 26, 0, 16, 0, 0, 0, 0, seq_high, seq_low, 0, 0, 16, teid_1, teid_2, teid_3, teid_4,
        133, 0, 4, peer_1, peer_2, peer_3, peer_4,
    ]
}

fn end_marker(teid: u32) -> [u8; 8]
    ensures { result ≡ spelling (messages.EndMarker teid) }
{
    let [teid_1, teid_2, teid_3, teid_4] = be32_octets(teid);
    [0x30, 254, 0, 0, teid_1, teid_2, teid_3, teid_4]
}

/// Writes an Echo Request (TS 29.281, section 7.2.1).
#[unsafe(no_mangle)]
pub extern "C" fn gtp_c_echo_request(seq: u16, out: &mut [u8], needed: &mut usize) -> u32
    ensures { Writes (spelling (messages.EchoRequest seq)) result out.old out.new needed.new }
{
    put(&echo_request(seq), out, needed)
}

/// Writes the answer to one, with a restart counter of 0 (TS 29.281, section 7.2.2).
#[unsafe(no_mangle)]
pub extern "C" fn gtp_c_echo_response(seq: u16, out: &mut [u8], needed: &mut usize) -> u32
    ensures { Writes (spelling (messages.EchoResponse seq)) result out.old out.new needed.new }
{
    put(&echo_response(seq), out, needed)
}

/// Writes an Error Indication: there is no tunnel of this TEID at this address (TS 29.281, section 7.3.1).
#[unsafe(no_mangle)]
pub extern "C" fn gtp_c_error_indication(
    seq: u16,
    teid: u32,
    peer: u32,
    out: &mut [u8],
    needed: &mut usize,
) -> u32
    ensures { Writes (spelling (messages.ErrorIndication seq teid peer)) result out.old out.new needed.new }
{
    put(&error_indication(seq, teid, peer), out, needed)
}

/// Writes an End Marker (TS 29.281, section 7.3.2).
#[unsafe(no_mangle)]
pub extern "C" fn gtp_c_end_marker(teid: u32, out: &mut [u8], needed: &mut usize) -> u32
    ensures { Writes (spelling (messages.EndMarker teid)) result out.old out.new needed.new }
{
    put(&end_marker(teid), out, needed)
}
