//! The bearer that a downlink packet takes.
ghost use Rattle.std.specs.Prelude.{◌≡◌, ◌↔◌, IsTrue, IsFalse, ℕ, List, [], ◌∷◌, ◌++◌, Option, All};
ghost use Rattle.tft_codec.specs.declared.tft.BearerFilters.{BearerFilters};
ghost use Rattle.tft_match.specs.Choice.{IsBefore, HasDefault, NoCandidate, Takes};
ghost use Rattle.tft_match.specs.Chosen.{chosen};
ghost use Rattle.tft_match.specs.Ends.{AreEnds};
ghost use Rattle.tft_match.specs.Walk.{IsFirstRank, Leads};

use crate::direction::Direction;
use crate::ends::{PacketEnds, ends_of};
use crate::fitting::fits;
use ipv4_packet::Ip4;
use tft_codec::BearerFilters;

/// What orders the filters: the precedence, the bearer's index, the filter's identifier.
type Rank = (u8, u8, u8);

/// The index of the bearer that a downlink packet takes: the one whose filter comes first among those
/// that the packet fits, by precedence, then by index, then by identifier. A packet that fits none
/// takes the default bearer, of index 0, where that has no filters, and else none.
#[inline(always)]
pub fn choose(rows: &[BearerFilters], packet: &Ip4<'_>) -> Option<u8>
    // The answer is the bearer that the packet takes, and it takes no other.
    ensures taken { Takes rows.now packet.now result }
    ensures only { (answer : Option ℕ) → Takes rows.now packet.now answer → result ≡ answer }

    ensures chosen { result ≡ chosen rows.now packet.now }
{
    if have_filters(rows) {
        choose_by_filters(rows, packet)
    } else {
        default_of(rows)
    }
}

/// The same where there may be filters. Most subscribers have none, and the filters are not looked at then.
#[inline(never)]
fn choose_by_filters(rows: &[BearerFilters], packet: &Ip4<'_>) -> Option<u8>
    ensures { Takes rows.now packet.now result }
{
    match first_rank(rows, packet) {
        Some((_, index, _)) => Some(index),
        None => default_of(rows),
    }
}

/// The bearer of a packet that fits no filter.
#[inline(always)]
fn default_of(rows: &[BearerFilters]) -> Option<u8>
    ensures { (packet : List ℕ) → NoCandidate rows.now packet → Takes rows.now packet result }
{
    if has_default(rows) { Some(0) } else { None }
}

/// Whether a bearer has filters.
#[inline(always)]
fn have_filters(rows: &[BearerFilters]) -> bool
    ensures { IsFalse result ↔ All (λ row. row.filters ≡ []) rows.now }
{
    for row in rows {
        if !row.filters.as_slice().is_empty() {
            return true;
        }
    }
    false
}

/// The rank of the first filter that the packet fits.
fn first_rank(rows: &[BearerFilters], packet: &Ip4<'_>) -> Option<Rank>
    ensures { IsFirstRank rows.now packet.now result }
{
    let ends = ends_of(packet, Direction::Down);
    let mut first = None;
    for row in rows {
        first = first_with(first, row, packet, &ends);
    }
    first
}

/// The first rank of the rows so far, with one row more.
fn first_with(
    before: Option<Rank>,
    row: &BearerFilters,
    packet: &Ip4<'_>,
    ends: &PacketEnds,
) -> Option<Rank>
    requires ends { AreEnds packet.now ends.now }
    requires down { ends.now.direction ≡ Direction.Down }
    ensures { (rows : List BearerFilters) → IsFirstRank rows packet.now before
        → IsFirstRank (rows ++ row.now ∷ []) packet.now result }
{
    let mut first = before;
    for filter in row.filters.as_slice() {
        let rank = (filter.precedence, row.index, filter.id);
        // The order costs less than the components, so it is asked first.
        if leads(rank, first) && fits(filter, packet, ends) {
            first = Some(rank);
        }
    }
    first
}

/// Whether a rank is before the first one so far.
fn leads(rank: Rank, first: Option<Rank>) -> bool
    ensures { IsTrue result ↔ Leads rank first }
{
    match first {
        Some(first) => is_before(rank, first),
        None => true,
    }
}

fn is_before(rank: Rank, other: Rank) -> bool
    ensures { IsTrue result ↔ IsBefore rank other }
{
    let (precedence, index, id) = rank;
    let (other_precedence, other_index, other_id) = other;
    if precedence != other_precedence {
        return precedence < other_precedence;
    }
    if index != other_index {
        return index < other_index;
    }
    id < other_id
}

/// Whether the default bearer is there without filters.
#[inline(always)]
fn has_default(rows: &[BearerFilters]) -> bool
    ensures { IsTrue result ↔ HasDefault rows.now }
{
    for row in rows {
        if row.index == 0 && row.filters.as_slice().is_empty() {
            return true;
        }
    }
    false
}
