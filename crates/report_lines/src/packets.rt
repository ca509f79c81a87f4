//! Verdicts, fates and places, both ways.
ghost use Rattle.std.specs.Prelude.{◌≡◌, ◌≤◌, ◌++◌, ◌∷◌, Some, length, take, IfOk, OnOk, OnErr};
ghost use Rattle.text_fields.specs.Fields.{space, pieces_left, behind};
ghost use Rattle.report_lines.specs.Text.{place_fields};
ghost use Rattle.report_lines.specs.Words.{place_word};
ghost use Rattle.report_lines.specs.Reading.{Gives, down_of, up_of};
ghost use Rattle.report_lines.specs.Reading.{held_of, verdict_at, verdict_of as verdict_of_fields};
ghost use Rattle.report_lines.specs.Reading.{fate_at, fate_of, slice_at, place_at, place_of};

use crate::NoMemory;
use crate::fields::{next_address, next_message, next_number, next_octets};
use pc_base::{Addr4, Fate, Octets, Place, SliceNo, Verdict};
use std::alloc::Global;
use text_fields::{Head, Text, next_piece, read_number};

// What goes to an eNodeB: the life, the address and the octets.
fn next_down(
    alloc: Global,
    left: Option<&[u8]>,
) -> Result<Option<((u64, Addr4, Octets), Option<&[u8]>)>, NoMemory>
    ensures { IfOk result (λ r. Gives r (down_of (pieces_left space left.entry))) }
{
    let Some((life, left)) = next_number(left, u64::MAX) else {
        return Ok(None);
    };
    let Some((peer, left)) = next_address(left) else {
        return Ok(None);
    };
    let Some((octets, left)) = next_octets(alloc, left)? else {
        return Ok(None);
    };
    Ok(Some(((life, peer, octets), left)))
}

fn next_up(alloc: Global, left: Option<&[u8]>) -> Result<Option<(Verdict, Option<&[u8]>)>, NoMemory>
    ensures { IfOk result (λ r. Gives r (up_of (pieces_left space left.entry))) }
{
    let Some((life, left)) = next_number(left, u64::MAX) else {
        return Ok(None);
    };
    let Some((octets, left)) = next_octets(alloc, left)? else {
        return Ok(None);
    };
    Ok(Some((Verdict::Up { life, octets }, left)))
}

fn next_held(
    alloc: Global,
    left: Option<&[u8]>,
) -> Result<Option<(Verdict, Option<&[u8]>)>, NoMemory>
    ensures { IfOk result (λ r. Gives r (held_of (pieces_left space left.entry))) }
{
    let Some((life, left)) = next_number(left, u64::MAX) else {
        return Ok(None);
    };
    let Some((message, left)) = next_message(alloc, left)? else {
        return Ok(None);
    };
    Ok(Some((Verdict::Held { life, message }, left)))
}

pub(crate) fn next_verdict(
    alloc: Global,
    left: Option<&[u8]>,
) -> Result<Option<(Verdict, Option<&[u8]>)>, NoMemory>
    ensures { IfOk result (λ r. Gives r (verdict_of_fields (pieces_left space left.entry))) }
{
    match next_piece(b' ', left) {
        Some((word, left)) => verdict_of_word(alloc, word, left),
        None => Ok(None),
    }
}

fn verdict_of_word<'a>(
    alloc: Global,
    word: &[u8],
    left: Option<&'a [u8]>,
) -> Result<Option<(Verdict, Option<&'a [u8]>)>, NoMemory>
    ensures { IfOk result (λ r. Gives r (verdict_at word.now (pieces_left space left.entry))) }
{
    if word == b"up".as_slice() {
        next_up(alloc, left)
    } else if word == b"down".as_slice() {
        match next_down(alloc, left)? {
            Some(((life, peer, octets), left)) => Ok(Some((
                Verdict::Down { life, peer, octets },
                left,
            ))),
            None => Ok(None),
        }
    } else if word == b"nobearer".as_slice() {
        Ok(Some((Verdict::NoBearer, left)))
    } else if word == b"spoof".as_slice() {
        Ok(Some((Verdict::Spoof, left)))
    } else if word == b"idle".as_slice() {
        match next_number(left, u64::MAX) {
            Some((life, left)) => Ok(Some((Verdict::Idle { life }, left))),
            None => Ok(None),
        }
    } else if word == b"held".as_slice() {
        next_held(alloc, left)
    } else if word == b"policed".as_slice() {
        match next_number(left, u64::MAX) {
            Some((life, left)) => Ok(Some((Verdict::Policed { life }, left))),
            None => Ok(None),
        }
    } else {
        Ok(None)
    }
}

pub(crate) fn next_fate(
    alloc: Global,
    left: Option<&[u8]>,
) -> Result<Option<(Fate, Option<&[u8]>)>, NoMemory>
    ensures { IfOk result (λ r. Gives r (fate_of (pieces_left space left.entry))) }
{
    match next_piece(b' ', left) {
        Some((word, left)) => fate_of_word(alloc, word, left),
        None => Ok(None),
    }
}

fn fate_of_word<'a>(
    alloc: Global,
    word: &[u8],
    left: Option<&'a [u8]>,
) -> Result<Option<(Fate, Option<&'a [u8]>)>, NoMemory>
    ensures { IfOk result (λ r. Gives r (fate_at word.now (pieces_left space left.entry))) }
{
    if word == b"down".as_slice() {
        match next_down(alloc, left)? {
            Some(((life, peer, octets), left)) => Ok(Some((
                Fate::Down { life, peer, octets },
                left,
            ))),
            None => Ok(None),
        }
    } else if word == b"policed".as_slice() {
        match next_number(left, u64::MAX) {
            Some((life, left)) => Ok(Some((Fate::Policed { life }, left))),
            None => Ok(None),
        }
    } else if word == b"gone".as_slice() {
        match next_number(left, u64::MAX) {
            Some((life, left)) => Ok(Some((Fate::Gone { life }, left))),
            None => Ok(None),
        }
    } else {
        Ok(None)
    }
}

// The place that ends a line, if one does, and whether the packet was parked.
pub(crate) fn read_place(left: Option<&[u8]>) -> Option<(Option<Place>, bool)>
    ensures { result ≡ place_of (pieces_left space left.entry) }
{
    let Some((place, left)) = next_piece(b' ', left) else {
        return Some((None, false));
    };
    let Some((parked, left)) = next_piece(b' ', left) else {
        let place = place_at(place)?;
        return Some((Some(place), false));
    };
    let None = next_piece(b' ', left) else {
        return None;
    };
    if parked == b"p".as_slice() {
        let place = place_at(place)?;
        Some((Some(place), true))
    } else {
        None
    }
}

fn place_at(text: &[u8]) -> Option<Place>
    ensures { result ≡ place_at text.now }
{
    if text.is_empty() || text[0] != b'@' {
        return None;
    }
    place_of_slice(&text[1..])
}

fn place_of_slice(text: &[u8]) -> Option<Place>
    ensures { result ≡ slice_at text.now }
{
    if text == b"-".as_slice() {
        return Some(Place::Closing);
    }
    let slice = read_number(text, 0, 63)?;
    Some(Place::At(SliceNo(slice as u8)))
}

// Where a packet was handled, and whether it was parked.
fn place_head(place: Place, parked: bool) -> Head
    ensures { result ≡ behind (place_fields (Some place) parked) }
{
    let mut head = Head::new();
    if parked {
        head.put_word(b"p");
        put_place(&mut head, place);
        head
    } else {
        put_place(&mut head, place);
        head
    }
}

fn put_place(head: &mut Head, place: Place)
    requires { length head.old ≤ 8 }
    ensures { head.new ≡ 32 ∷ place_word place ++ head.old }
{
    match place {
        Place::At(slice) => {
            head.put_part(b'@', slice.0);
            head.put(b' ');
        }
        Place::Closing => head.put_word(b"@-"),
    }
}

fn push_place(out: &mut Text, place: Option<Place>, parked: bool) -> Result<(), NoMemory>
    ensures appended { OnOk result (out.new ≡ out.old ++ behind (place_fields place parked)) }
    ensures kept { OnErr result (out.new ≡ out.old) }
{
    match place {
        Some(place) => out.extend_from_slice(place_head(place, parked).as_slice()),
        None => Ok(()),
    }
}

/// Appends a place behind an entry that begins at `start`; where memory runs out, the entry goes too.
pub(crate) fn push_place_behind(
    out: &mut Text,
    start: usize,
    place: Option<Place>,
    parked: bool,
) -> Result<(), NoMemory>
    ensures appended { OnOk result (out.new ≡ out.old ++ behind (place_fields place parked)) }
    ensures kept { OnErr result (out.new ≡ take start out.old) }
{
    match push_place(out, place, parked) {
        Ok(()) => Ok(()),
        Err(none) => {
            out.truncate(start);
            Err(none)
        }
    }
}
