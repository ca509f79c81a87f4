//! Cutting a text in place.
ghost use Rattle.std.specs.Prelude.{◌≡◌, ◌<◌, ◌∷◌, [], length, IfSome, MatchOption};
ghost use Rattle.memchr.specs.Find.{IsFirstByte, is_byte};
ghost use Rattle.text_fields.specs.Fields.{pieces, has_empty_field, pieces_left};

use memchr::memchr;
use std::simd::prelude::*;

/// What stands before the first octet at which the text is cut, and what stands behind it.
pub fn cut(at: u8, text: &[u8]) -> (&[u8], Option<&[u8]>)
    ensures pieces { pieces at text.now ≡ result.0.now ∷ pieces_left at result.1 }
    ensures shorter { IfSome result.1 (λ rest. length rest.now < length text.now) }
{
    match first_place(at, text) {
        Some(place) => (&text[..place], Some(&text[place + 1..])),
        None => (text, None),
    }
}

// The first place of the octet. Most pieces end within sixteen octets, so these are looked at in place.
#[inline(always)]
fn first_place(at: u8, text: &[u8]) -> Option<usize>
    ensures { IsFirstByte (is_byte at) text.now result }
{
    if text.len() >= 16 {
        let here = u8x16::from_slice(text)
            .simd_eq(u8x16::splat(at))
            .to_bitmask();
        if here != 0 {
            return Some(here.trailing_zeros() as usize);
        }
    }
    memchr(at, text)
}

/// Whether a field of the text has no octet.
pub fn has_empty_field(text: &[u8]) -> bool
    ensures { result ≡ has_empty_field text.now }
{
    let mut left = text;
    loop {
        let (field, rest) = cut(b' ', left);
        if field.is_empty() {
            return true;
        }
        match rest {
            Some(rest) => left = rest,
            None => return false,
        }
    }
}

/// The next piece of what is left behind a cut, and what is left behind that.
pub fn next_piece(at: u8, left: Option<&[u8]>) -> Option<(&[u8], Option<&[u8]>)>
    ensures { MatchOption result (pieces_left at left.entry ≡ [])
        (λ piece. pieces_left at left.entry ≡ piece.0.now ∷ pieces_left at piece.1) }
{
    match left {
        Some(text) => Some(cut(at, text)),
        None => None,
    }
}
