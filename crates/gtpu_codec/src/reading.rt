//! Reading a message where it lies.
ghost use Rattle.std.specs.Prelude.{◌≡◌, ℕ, List, IfOk, IfErr, IfSome, IsOkAnd, MatchResult};
ghost use Rattle.gtpu_codec.specs.declared.head.GtpUHead.{GtpUHead};
ghost use Rattle.gtpu_codec.specs.Message.{message_of};
ghost use Rattle.gtpu_codec.specs.Place.{EndsCounted};
ghost use Rattle.gtpu_codec.specs.Spelling.{Spells};
ghost use Rattle.gtpu_codec.specs.Refusal.{first_fault};

use crate::head::{has_options, has_version, is_gtp, read_counted};
use crate::{GtpUHead, GtpUKind, MANDATORY_LEN, OPTIONS_LEN, UBad};
use pc_base::Teid;
use wire_octets::{be16_at, be32_at};

/// The head of the message at the start, and the octets behind its extension headers: the last ones that its length
/// counts. Octets past its length don't count (TS 29.281, section 5.1).
#[inline(always)]
pub fn read(bytes: &[u8]) -> Result<(GtpUHead, &[u8]), UBad>
    // What is read is spelled so, and what is spelled so is read.
    ensures found { IfOk result (λ r. Spells bytes.now r.0 r.1.now) }
    ensures only { (head : GtpUHead) (body : List ℕ) → Spells bytes.now head body
        → IsOkAnd result (λ r. (r.0 ≡ head) × (r.1.now ≡ body)) }

    // A refusal is the first fault, and each fault is refused.
    ensures refused { IfErr result (λ bad. first_fault bytes.now ≡ Some bad) }
    ensures fault { IfSome (first_fault bytes.now) (λ bad. result ≡ Err bad) }

    // It is the message that the octets are, and where they have a fault there is none.
    ensures message { MatchResult result
        (λ r. message_of bytes.now ≡ Some (r.0, r.1.now))
        (λ _. message_of bytes.now ≡ None) }

    // The body stands where the length ends.
    ensures place { IfOk result (λ r. EndsCounted bytes.now r.1.now) }
{
    parse(bytes)
}

#[inline(always)]
fn parse(bytes: &[u8]) -> Result<(GtpUHead, &[u8]), UBad>
    ensures found { IfOk result (λ r. Spells bytes.now r.0 r.1.now) }
    ensures refused { IfErr result (λ bad. first_fault bytes.now ≡ Some bad) }
{
    if bytes.len() < MANDATORY_LEN {
        return Err(UBad::Short);
    }
    let flags = bytes[0];
    if !has_version(flags) {
        return Err(UBad::Version);
    }
    if !is_gtp(flags) {
        return Err(UBad::NotGtp);
    }
    let length = usize::from(be16_at(bytes, 2));
    let (_, rest) = bytes.split_at(MANDATORY_LEN);
    if length > rest.len() || (has_options(flags) && length < OPTIONS_LEN) {
        return Err(UBad::Length);
    }
    let Some((seq, body)) = read_counted(flags, &rest[..length]) else {
        return Err(UBad::Extension);
    };
    let Some(kind) = GtpUKind::from_octet(bytes[1]) else {
        return Err(UBad::Kind);
    };
    let teid = Teid(be32_at(bytes, 4));
    Ok((GtpUHead { kind, teid, seq }, body))
}
