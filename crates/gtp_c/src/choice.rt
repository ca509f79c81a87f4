//! Filters in the caller's memory: which packets fit one, and the choice among them (TS 24.008, 10.5.6.12).
ghost use Rattle.std.specs.Prelude.{◌≡◌, ◌≢◌, ◌==◌, not, map, Some, None, MatchOption};
ghost use Rattle.std.specs.List.{list_all};
ghost use Rattle.ipv4_packet.specs.Packet.{packet_of};
ghost use Rattle.ipv4_packet.specs.Refusal.{first_fault};
ghost use Rattle.tft_match.specs.Chosen.{is_before, first_of, candidate_ranks, bearer_by};
ghost use Rattle.tft_match.specs.Ends.{AreEnds};
ghost use Rattle.tft_match.specs.Fit.{holds, fits};
ghost use Rattle.tft_match.specs.declared.direction.Direction.TheVariants as directions;
ghost use Rattle.gtp_c_base.specs.Filter.{component_said, filter_said};
ghost use Rattle.gtp_c.specs.Choice.{leads, rows_said, choose_code, direction_said};
ghost use Rattle.gtp_c.specs.Ip4.{code_of};

use crate::ip4::{bad_number, packet_at};
use gtp_c_base::code::{NO_BEARER, TOO_MANY};
use gtp_c_base::{TftComponent, TftFilter, component_said};
use ipv4_packet::Ip4;
use tft_match::{Direction, PacketEnds, counts_in, ends_of, holds};

/// As many filters as eleven bearers have.
const MOST_FILTERS: usize = 176;

type Rank = (u8, u8, u8);

fn all_hold(
    direction: Direction,
    said: &[TftComponent],
    packet: &Ip4<'_>,
    ends: &PacketEnds,
) -> bool
    requires ends { AreEnds packet.now ends.now }
    requires direction { ends.now.direction ≡ direction }
    ensures { result ≡ list_all (holds direction packet.now) (map component_said said.now) }
{
    match said {
        [] => true,
        [one, rest @ ..] => holds(&component_said(one), packet, ends)
            && all_hold(direction, rest, packet, ends),
    }
}

fn fits(direction: Direction, filter: &TftFilter, packet: &Ip4<'_>, ends: &PacketEnds) -> bool
    requires ends { AreEnds packet.now ends.now }
    requires direction { ends.now.direction ≡ direction }
    ensures { result ≡ fits direction packet.now (filter_said filter.now) }
{
    let count = usize::from(filter.count).min(9);
    counts_in(direction, filter.direction)
        && all_hold(direction, &filter.components[..count], packet, ends)
}

fn is_before(rank: Rank, other: Rank) -> bool
    ensures { result ≡ is_before rank other }
{
    let (precedence, index, id) = rank;
    let (other_precedence, other_index, other_id) = other;
    precedence < other_precedence
        || precedence == other_precedence
            && (index < other_index || index == other_index && id < other_id)
}

/// Whether a rank is before the first one so far.
fn leads(rank: Rank, first: Option<Rank>) -> bool
    ensures { result ≡ leads rank first }
{
    match first {
        Some(other) => is_before(rank, other),
        None => true,
    }
}

/// The rank of the first filter that a downlink packet fits.
fn first_rank(filters: &[TftFilter], packet: &Ip4<'_>, ends: &PacketEnds) -> Option<Rank>
    requires ends { AreEnds packet.now ends.now }
    requires down { ends.now.direction ≡ directions.Down }
    ensures { result ≡ first_of (candidate_ranks (rows_said filters.now) packet.now) }
{
    let mut first = None;
    for filter in filters {
        let rank = (filter.precedence, filter.bearer, filter.id);
        // The order costs less than the components, so it is asked first.
        if leads(rank, first) && fits(Direction::Down, filter, packet, ends) {
            first = Some(rank);
        }
    }
    first
}

fn direction_said(up: u32) -> Direction
    ensures { result ≡ direction_said up }
{
    if up == 0 {
        Direction::Down
    } else {
        Direction::Up
    }
}

/// Whether a packet that goes up, or, where `up` is 0, down, fits a filter, as a number.
fn fit_number(filter: &TftFilter, up: u32, packet: &Ip4<'_>) -> u8
    ensures { (result == 1) ≡ fits (direction_said up) packet.now (filter_said filter.now) }
{
    let direction = direction_said(up);
    let does_fit = fits(direction, filter, packet, &ends_of(packet, direction));
    u8::from(does_fit)
}

/// Whether a packet fits a filter: 1 or 0. It goes up, or, where `up` is 0, down.
#[unsafe(no_mangle)]
pub extern "C" fn gtp_c_tft_fits(
    filter: &TftFilter,
    up: u32,
    packet: &[u8],
    does_fit: &mut u8,
) -> u32
    ensures code { result ≡ code_of (first_fault packet.now) }
    ensures answer { MatchOption (first_fault packet.now)
        ((does_fit.new == 1) ≡ fits (direction_said up) (packet_of packet.now) (filter_said filter.now))
        (λ _. does_fit.new ≡ does_fit.old) }
{
    match packet_at(packet) {
        Err(bad) => bad_number(bad),
        Ok(packet) => {
            *does_fit = fit_number(filter, up, &packet);
            0
        }
    }
}

/// The bearer that a downlink packet takes by these filters, or else the default one, of index 0, where
/// `has_default` isn't 0.
#[unsafe(no_mangle)]
pub extern "C" fn gtp_c_tft_choose(
    filters: &[TftFilter],
    has_default: u32,
    packet: &[u8],
    index: &mut u8,
) -> u32
    ensures code { result ≡ choose_code filters.now has_default packet.now }
    ensures found { result ≡ 0
        → Some index.new ≡ bearer_by (first_of (candidate_ranks (rows_said filters.now) (packet_of packet.now)))
        (not (has_default == 0)) }
    ensures refused { result ≢ 0 → index.new ≡ index.old }
{
    if filters.len() > MOST_FILTERS {
        return TOO_MANY;
    }
    let packet = match packet_at(packet) {
        Err(bad) => return bad_number(bad),
        Ok(packet) => packet,
    };
    match first_rank(filters, &packet, &ends_of(&packet, Direction::Down)) {
        Some((_, bearer, _)) => {
            *index = bearer;
            0
        }
        None => {
            if has_default == 0 {
                return NO_BEARER;
            }
            *index = 0;
            0
        }
    }
}
