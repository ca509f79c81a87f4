//! The packet of a subscriber that a line is. Most lines are one, and it is small: so it is asked for first, and what
//! else a line may mean takes no place beside it.
ghost use Rattle.std.specs.Prelude.{◌≡◌, ℕ, IfSome};
ghost use Rattle.demux.specs.Resolved.{bearer_in, addressee_in, decided, resolved};
ghost use Rattle.demux.specs.Tunnel.{tunnel_asked, tunnelled, packet_asked};
ghost use Rattle.demux.specs.declared.decision.Decision.TheVariants as decision;

use crate::booking::in_book;
use crate::ends::{addressee, bearer_end};
use address_book::AddressBook;
use gtpu_codec::{GtpUKind, read};
use ipv4_packet::Ip4;
use pc_base::{Addr4, Slot, Teid, Way};
use trace_lines::{LineKind, TraceLine};

/// The packet that a line means, as `decide` would say: the slot of its subscriber, its way, and its octets; None where
/// the line means something else. Its moment is the line's: it is put together where it is used, since each call that
/// hands a whole one on copies it.
#[inline(always)]
#[tactic(auto, unfolding(crate::specs::Line::asked))]
pub fn packet_of<'a>(book: &AddressBook, line: &'a TraceLine) -> Option<(Slot, Way, Ip4<'a>)>
    ensures { (slices : ℕ) → IfSome result (λ found. decided slices book.now line.now
        ≡ decision.Packet found.0 (record { moment = line.now.moment; way = found.1; ip = found.2 })) }
{
    match &line.kind {
        LineKind::S1u => tunnelled(book, line.octets.as_slice()),
        LineKind::Sgi => delivered(book, line.octets.as_slice()),
        _ => None,
    }
}

// A packet that an eNodeB sent up.
#[inline(always)]
fn tunnelled<'a>(book: &AddressBook, octets: &'a [u8]) -> Option<(Slot, Way, Ip4<'a>)>
    ensures { (slices moment : ℕ) → IfSome result (λ found. resolved slices book.now (tunnel_asked moment octets.now)
        ≡ decision.Packet found.0 (record { moment = moment; way = found.1; ip = found.2 })) }
{
    match read(octets) {
        Ok((head, body)) => match head.kind {
            GtpUKind::Gpdu => carried(book, head.teid, body),
            _ => None,
        },
        Err(_) => None,
    }
}

// The same by the TEID of its tunnel.
#[inline(always)]
fn carried<'a>(book: &AddressBook, teid: Teid, payload: &'a [u8]) -> Option<(Slot, Way, Ip4<'a>)>
    ensures { (slices moment : ℕ) → IfSome result (λ found. resolved slices book.now (tunnelled moment teid payload.now)
        ≡ decision.Packet found.0 (record { moment = moment; way = found.1; ip = found.2 })) }
{
    match bearer_in_book(book, teid) {
        Some(end) => match Ip4::read(payload) {
            Ok(ip) => Some((end.0, Way::Up(end.1), ip)),
            Err(_) => None,
        },
        None => None,
    }
}

// A packet of the internet.
#[inline(always)]
fn delivered<'a>(book: &AddressBook, octets: &'a [u8]) -> Option<(Slot, Way, Ip4<'a>)>
    ensures { (slices moment : ℕ) → IfSome result (λ found. resolved slices book.now (packet_asked moment octets.now)
        ≡ decision.Packet found.0 (record { moment = moment; way = found.1; ip = found.2 })) }
{
    match Ip4::read(octets) {
        Ok(ip) => match addressee_in_book(book, Addr4(ip.destination())) {
            Some(slot) => Some((slot, Way::Down, ip)),
            None => None,
        },
        Err(_) => None,
    }
}

/// The slot of the book whose bearer TEID it is, and the bearer's index.
#[inline(always)]
pub(crate) fn bearer_in_book(book: &AddressBook, teid: Teid) -> Option<(Slot, u8)>
    ensures { result ≡ bearer_in book.now teid }
{
    let (slot, index) = bearer_end(teid)?;
    let slot = in_book(book, slot)?;
    Some((slot, index))
}

/// The slot of the book whose address it is.
#[inline(always)]
pub(crate) fn addressee_in_book(book: &AddressBook, addr: Addr4) -> Option<Slot>
    ensures { result ≡ addressee_in book.now addr }
{
    in_book(book, addressee(addr)?)
}
