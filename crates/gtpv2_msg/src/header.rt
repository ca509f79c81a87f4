ghost use Rattle.std.specs.Prelude.{◌≡◌, ◌+◌, ◌<◌, ◌≤◌, ◌^◌, length, IfOk, IfErr, Some, None, IfSome};
ghost use Rattle.gtpv2_msg.specs.Header as grammar;
ghost use Rattle.gtpv2_msg.specs.Header.{IsRight};
ghost use Rattle.gtpv2_msg.specs.Refusal.{header_fault};

use crate::fault::CBad;
use crate::kind::is_kind;
use wire_octets::{be16_at, be24_at, be32_at};

/// The header of a message (TS 29.274, 5.1).
/// 1: version (3) P T * (3)   2: type   3-4: length without the first four octets
/// With T: 5-8: TEID   9-11: sequence number   12: spare
/// Without: 5-7: sequence number   8: spare
/// The sequence number is below 2^24.
#[derive(Clone, Copy, Debug)]
pub struct Header {
    pub kind: u8,
    pub teid: Option<u32>,
    pub seq: u32,
    /// Where the elements begin and end.
    pub from: usize,
    pub to: usize,
}

/// Whether a TEID stands in the header.
fn has_teid(octets: &[u8]) -> bool
    requires { 8 ≤ length octets.now }
    ensures { result ≡ grammar.has_teid octets.now }
{
    (octets[0] >> 3) % 2 == 1
}

/// The octets of the whole header, with a TEID and without.
fn header_len(teid: bool) -> usize
    ensures { result ≡ grammar.header_len teid }
{
    if teid { 12 } else { 8 }
}

/// The place behind the message.
fn end_of(octets: &[u8]) -> usize
    requires { 8 ≤ length octets.now }
    ensures value { result ≡ grammar.end_of octets.now }
    ensures range { result < 4 + 2 ^ 16 }
{
    4 + usize::from(be16_at(octets, 2))
}

/// What is wrong with the header.
fn header_fault(octets: &[u8]) -> Option<CBad>
    ensures { result ≡ header_fault octets.now }
{
    if octets.len() < 8 {
        return Some(CBad::Short);
    }
    if octets[0] >> 5 != 2 {
        return Some(CBad::Version);
    }
    if (octets[0] >> 4) % 2 == 1 {
        return Some(CBad::Piggyback);
    }
    let end = end_of(octets);
    if octets.len() < end || end < header_len(has_teid(octets)) {
        return Some(CBad::Length);
    }
    if !is_kind(octets[1]) {
        return Some(CBad::Kind);
    }
    None
}

/// The TEID of a right header.
fn teid_of(octets: &[u8]) -> Option<u32>
    requires { IsRight octets.now }
    ensures value { result ≡ grammar.teid_of octets.now }
    ensures range { IfSome result (λ teid. teid < 2 ^ 32) }
{
    if has_teid(octets) {
        Some(be32_at(octets, 4))
    } else {
        None
    }
}

/// The sequence number of a right header.
pub fn seq_of(octets: &[u8]) -> u32
    requires { IsRight octets.now }
    ensures value { result ≡ grammar.seq_of octets.now }
    ensures range { result < 2 ^ 24 }
{
    if has_teid(octets) {
        be24_at(octets, 8)
    } else {
        be24_at(octets, 4)
    }
}

/// The header of the message at the start of the octets, or the first fault of it (TS 29.274, section 5.1). Takes no
/// memory.
pub fn read_header(octets: &[u8]) -> Result<Header, CBad>
    ensures refused { IfErr result (λ bad. header_fault octets.now ≡ Some bad) }
    ensures right { IfOk result (λ _. IsRight octets.now) }
    ensures fault { IfOk result (λ _. header_fault octets.now ≡ None) }
    ensures kind { IfOk result (λ header. header.kind ≡ grammar.kind_of octets.now) }
    ensures teid { IfOk result (λ header. header.teid ≡ grammar.teid_of octets.now) }
    ensures teid_range { IfOk result (λ header. IfSome header.teid (λ teid. teid < 2 ^ 32)) }
    ensures seq { IfOk result (λ header. header.seq ≡ grammar.seq_of octets.now) }
    ensures seq_range { IfOk result (λ header. header.seq < 2 ^ 24) }
    ensures from { IfOk result (λ header. header.from ≡ grammar.header_len (grammar.has_teid octets.now)) }
    ensures to { IfOk result (λ header. header.to ≡ grammar.end_of octets.now) }
    ensures order { IfOk result (λ header. header.from ≤ header.to) }
    ensures inside { IfOk result (λ header. header.to ≤ length octets.now) }
    ensures fits { IfOk result (λ header. header.to < 4 + 2 ^ 16) }
{
    if let Some(bad) = header_fault(octets) {
        return Err(bad);
    }
    Ok(Header {
        kind: octets[1],
        teid: teid_of(octets),
        seq: seq_of(octets),
        from: header_len(has_teid(octets)),
        to: end_of(octets),
    })
}
