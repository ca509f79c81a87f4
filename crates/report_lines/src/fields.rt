//! The next field of a report's line, as a value. Each call gives what is left behind it.
ghost use Rattle.std.specs.Prelude.{◌≤◌, ◌<◌, ◌^◌, Some, IfSome, IfOk};
ghost use Rattle.text_fields.specs.Fields.{space, pieces_left};
ghost use Rattle.text_fields.specs.Address.{address_of};
ghost use Rattle.text_fields.specs.Hexadecimal.{lower_octets_of};
ghost use Rattle.report_lines.specs.Reading.{Gives, next, number, counted, slot, message_of, moment_of};
ghost use Rattle.report_lines.specs.Records.{HasOctets};

use pc_base::{Addr4, LAST_MOMENT, LAST_SLOT, Moment, Octets, Slot};
use std::alloc::{AllocError as NoMemory, Global};
use text_fields::{next_piece, read_lower_octets, read_number};

// Lives, sequence numbers and packets are counted up to this one.
const LAST_COUNT: u64 = 1 << 61;

pub(crate) fn next_number(left: Option<&[u8]>, last: u64) -> Option<(u64, Option<&[u8]>)>
    ensures given { Gives result (number last (pieces_left space left.entry)) }
    ensures range { IfSome result (λ r. r.0 ≤ last) }
{
    let (text, rest) = next_piece(b' ', left)?;
    let number = read_number(text, 0, last)?;
    Some((number, rest))
}

pub(crate) fn next_count(left: Option<&[u8]>) -> Option<(u64, Option<&[u8]>)>
    ensures given { Gives result (counted (pieces_left space left.entry)) }
    ensures range { IfSome result (λ r. r.0 ≤ 2 ^ 61) }
{
    next_number(left, LAST_COUNT)
}

pub(crate) fn next_octet(left: Option<&[u8]>) -> Option<(u8, Option<&[u8]>)>
    ensures given { Gives result (number 255 (pieces_left space left.entry)) }
{
    let (octet, rest) = next_number(left, 255)?;
    Some((octet as u8, rest))
}

pub(crate) fn next_slot(left: Option<&[u8]>) -> Option<(Slot, Option<&[u8]>)>
    ensures given { Gives result (slot (pieces_left space left.entry)) }
{
    let (number, rest) = next_number(left, u64::from(LAST_SLOT))?;
    Some((Slot(number as u32), rest))
}

pub(crate) fn next_address(left: Option<&[u8]>) -> Option<(Addr4, Option<&[u8]>)>
    ensures given { Gives result (next address_of (pieces_left space left.entry)) }
{
    let (text, rest) = next_piece(b' ', left)?;
    let address = text_fields::read_address(text)?;
    Some((Addr4(address), rest))
}

// A moment, or a dash for none.
pub(crate) fn next_moment(left: Option<&[u8]>) -> Option<(Option<Moment>, Option<&[u8]>)>
    ensures given { Gives result (next moment_of (pieces_left space left.entry)) }
{
    let (text, rest) = next_piece(b' ', left)?;
    if text == b"-".as_slice() {
        return Some((None, rest));
    }
    let moment = read_number(text, 0, LAST_MOMENT)?;
    Some((Some(Moment(moment)), rest))
}

// Octets in hexadecimal.
#[tactic(auto, using(crate::proofs::KeepLemmas::octets_are_some))]
pub(crate) fn next_octets(
    alloc: Global,
    left: Option<&[u8]>,
) -> Result<Option<(Octets, Option<&[u8]>)>, NoMemory>
    ensures given { IfOk result (λ r. Gives r (next lower_octets_of (pieces_left space left.entry))) }
    ensures some { IfOk result (λ r. IfSome r (λ given. HasOctets given.0)) }
{
    let Some((text, rest)) = next_piece(b' ', left) else {
        return Ok(None);
    };
    match read_lower_octets(alloc, text)? {
        Some(octets) => Ok(Some((Octets::of(octets), rest))),
        None => Ok(None),
    }
}

// Octets in hexadecimal, or a dash for none.
pub(crate) fn next_message(
    alloc: Global,
    left: Option<&[u8]>,
) -> Result<Option<(Option<Octets>, Option<&[u8]>)>, NoMemory>
    ensures given { IfOk result (λ r. Gives r (next message_of (pieces_left space left.entry))) }
{
    let Some((text, rest)) = next_piece(b' ', left) else {
        return Ok(None);
    };
    if text == b"-".as_slice() {
        return Ok(Some((None, rest)));
    }
    match read_lower_octets(alloc, text)? {
        Some(octets) => Ok(Some((Some(Octets::of(octets)), rest))),
        None => Ok(None),
    }
}
