//! The octets before the body.
ghost use Rattle.std.specs.Prelude.{◌≡◌, ℕ, ◌≤◌, ◌↔◌, Option, List, length, IsTrue, IsNone, IfSome, IsSomeAnd};
ghost use Rattle.gtpu_codec.specs.Head.{has_version, is_gtp, has_extensions, has_seq, has_options};
ghost use Rattle.gtpu_codec.specs.Refusal.{breaks_chain};
ghost use Rattle.gtpu_codec.specs.Spelling.{SpellsCounted};

use crate::extension::skip_headers;
use crate::{GtpUKind, OPTIONS_LEN, VERSION};
use pc_base::Teid;
use wire_octets::be16_at;

/// What the octets before the body say.
#[derive(Clone, Copy, Debug, PartialEq, Eq)]
pub struct GtpUHead {
    pub kind: GtpUKind,
    pub teid: Teid,
    /// The sequence number, where flag S is set.
    pub seq: Option<u16>,
}

/// Whether octet 1 has this version in bits 8 to 6.
pub fn has_version(flags: u8) -> bool
    ensures { result ≡ has_version flags }
{
    flags / 32 == VERSION
}

/// Whether octet 1 has bit 5 set, the protocol type of GTP.
pub fn is_gtp(flags: u8) -> bool
    ensures { result ≡ is_gtp flags }
{
    flags / 16 % 2 == 1
}

/// Whether octet 1 has flag E set.
fn has_extensions(flags: u8) -> bool
    ensures { result ≡ has_extensions flags }
{
    flags / 4 % 2 == 1
}

/// Whether octet 1 has flag S set.
fn has_seq(flags: u8) -> bool
    ensures { result ≡ has_seq flags }
{
    flags / 2 % 2 == 1
}

/// Whether octet 1 has flag E, S or PN set.
pub fn has_options(flags: u8) -> bool
    ensures { result ≡ has_options flags }
{
    flags % 8 != 0
}

/// The sequence number and the body among the octets that the length counts; None where the chain of
/// extension headers breaks.
#[inline(always)]
pub fn read_counted(flags: u8, counted: &[u8]) -> Option<(Option<u16>, &[u8])>
    requires { IsTrue (has_options flags) → 4 ≤ length counted.now }
    ensures found { IfSome result (λ r. SpellsCounted flags (has_options flags) counted.now r.0 r.1.now) }
    ensures only { (seq : Option ℕ) (body : List ℕ) → SpellsCounted flags (has_options flags) counted.now seq body
        → IsSomeAnd result (λ r. (r.0 ≡ seq) × (r.1.now ≡ body)) }
    ensures broken { IsNone result ↔ IsTrue (breaks_chain flags counted.now) }
{
    if !has_options(flags) {
        return Some((None, counted));
    }
    let seq = if has_seq(flags) {
        Some(be16_at(counted, 0))
    } else {
        None
    };
    let (options, rest) = counted.split_at(OPTIONS_LEN);
    if !has_extensions(flags) {
        return Some((seq, rest));
    }
    match skip_headers(options[OPTIONS_LEN - 1], rest) {
        Some(body) => Some((seq, body)),
        None => None,
    }
}
