//! Writing a message.
ghost use Rattle.std.specs.Prelude.{◌≡◌, ℕ, ◌^◌, ◌<◌, ◌++◌, List, length, IfOk, Some, None};
ghost use Rattle.gtpu_codec.specs.declared.message.GtpU.TheVariants.{Gpdu};
ghost use Rattle.gtpu_codec.specs.Text.{counted_len, gpdu_head, payload_len, spelling, text};

use crate::{GtpU, GtpUHead, GtpUKind, MANDATORY_LEN, OPTIONS_LEN};
use pc_base::{NoMemory, Octets, Teid};
use std::alloc::Global;
use wire_octets::{be16_octets, be32_octets};

/// Octet 1 with version 1, GTP and no flag, and with flag S (TS 29.281, section 5.1).
const PLAIN: u8 = 0x30;

const NUMBERED: u8 = 0x32;

/// The information elements that are written (TS 29.281, table 8.1-1).
const RECOVERY: u8 = 14;

const TEID_DATA_I: u8 = 16;

const PEER_ADDRESS: u8 = 133;

/// The one text of a message.
pub fn write(alloc: Global, message: &GtpU) -> Result<Octets, NoMemory>
    requires { payload_len message.now < 2 ^ 16 }
    ensures { IfOk result (λ octets. octets ≡ spelling message.now) }
{
    match message {
        GtpU::EchoRequest { seq } => spell(alloc, numbered(GtpUKind::EchoRequest, *seq), &[]),
        GtpU::EchoResponse { seq } => spell(
            alloc,
            numbered(GtpUKind::EchoResponse, *seq),
            &[RECOVERY, 0],
        ),
        GtpU::ErrorIndication { seq, teid, peer } => {
            let [teid_1, teid_2, teid_3, teid_4] = be32_octets(teid.0);
            let [addr_1, addr_2, addr_3, addr_4] = be32_octets(peer.0);
            let elements = [
                TEID_DATA_I,
                teid_1,
                teid_2,
                teid_3,
                teid_4,
                PEER_ADDRESS,
                0,
                4,
                addr_1,
                addr_2,
                addr_3,
                addr_4,
            ];
            spell(alloc, numbered(GtpUKind::ErrorIndication, *seq), &elements)
        }
        GtpU::EndMarker { teid } => spell(alloc, plain(GtpUKind::EndMarker, *teid), &[]),
        GtpU::Gpdu { teid, payload } => spell(
            alloc,
            plain(GtpUKind::Gpdu, *teid),
            payload.as_slice(),
        ),
    }
}

/// The text of a G-PDU, of a packet that isn't owned: one allocation, and none where it fails.
pub fn write_gpdu(alloc: Global, teid: Teid, payload: &[u8]) -> Result<Octets, NoMemory>
    requires { length payload.now < 2 ^ 16 }
    ensures { IfOk result (λ octets. octets ≡ spelling (Gpdu teid payload.now)) }
{
    spell(alloc, plain(GtpUKind::Gpdu, teid), payload)
}

/// The octets of a G-PDU before its payload of so many octets (TS 29.281, section 5.1): for a caller that
/// writes the payload itself.
#[inline]
pub fn gpdu_head(teid: Teid, payload_len: u16) -> [u8; MANDATORY_LEN]
    ensures head { result ≡ gpdu_head teid payload_len }

    // These octets and then the payload are the G-PDU's text.
    ensures text { (payload : List ℕ) → length payload ≡ payload_len
        → spelling (Gpdu teid payload) ≡ result ++ payload }
{
    let [length_high, length_low] = be16_octets(payload_len);
    let [teid_1, teid_2, teid_3, teid_4] = be32_octets(teid.0);
    let kind = GtpUKind::Gpdu.octet();
    [
        PLAIN,
        kind,
        length_high,
        length_low,
        teid_1,
        teid_2,
        teid_3,
        teid_4,
    ]
}

fn plain(kind: GtpUKind, teid: Teid) -> GtpUHead
    ensures { result ≡ record { kind = kind; teid = teid; seq = None } }
{
    GtpUHead {
        kind,
        teid,
        seq: None,
    }
}

fn numbered(kind: GtpUKind, seq: u16) -> GtpUHead
    ensures { result ≡ record { kind = kind; teid = 0; seq = Some seq } }
{
    GtpUHead {
        kind,
        teid: Teid(0),
        seq: Some(seq),
    }
}

fn spell(alloc: Global, head: GtpUHead, body: &[u8]) -> Result<Octets, NoMemory>
    requires { counted_len head.seq body.now < 2 ^ 16 }
    ensures { IfOk result (λ octets. octets ≡ text head.kind head.teid head.seq body.now) }
{
    let kind = head.kind.octet();
    let [teid_1, teid_2, teid_3, teid_4] = be32_octets(head.teid.0);
    let mut bytes = Vec::with_capacity(alloc, 12 + body.len())?;
    match head.seq {
        None => {
            let [length_high, length_low] = be16_octets(body.len() as u16);
            bytes.extend_from_slice(&[
                PLAIN,
                kind,
                length_high,
                length_low,
                teid_1,
                teid_2,
                teid_3,
                teid_4,
            ])?;
        }
        Some(seq) => {
            let [length_high, length_low] = be16_octets((body.len() + OPTIONS_LEN) as u16);
            let [seq_high, seq_low] = be16_octets(seq);
            bytes.extend_from_slice(&[
                NUMBERED,
                kind,
                length_high,
                length_low,
                teid_1,
                teid_2,
                teid_3,
                teid_4,
                seq_high,
                seq_low,
                0,
                0,
            ])?;
        }
    }
    bytes.extend_from_slice(body)?;
    Ok(Octets::of(bytes))
}
