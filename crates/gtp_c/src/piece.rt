//! The counters of a charging record's piece, in the caller's memory.
ghost use Rattle.std.specs.Prelude.{◌≡◌, ◌==◌, not, MatchBool, Some, None, if◌then◌else◌};
ghost use Rattle.charging_book.specs.Counters.{with_packet, with_moment, next_piece, no_moments};
ghost use Rattle.gtp_c.specs.Piece.{counters_said, moments_said, is_wrong, count_code, next_code};

use charging_book::{Open, VOLUME_OCTETS};
use gtp_c_base::code::{FULL, RANGE};
use pc_base::LAST_MOMENT;

/// A piece: how many rows stand before it, its octets and packets each way, and the moments of its first and
/// its last packet in microseconds, which count where there are packets. All 0 is the first piece.
#[repr(C)]
#[derive(Clone, Copy, Drop)]
pub struct Piece {
    pub seq: u64,
    pub up_octets: u64,
    pub down_octets: u64,
    pub up_packets: u64,
    pub down_packets: u64,
    pub first: u64,
    pub last: u64,
}

const MOST_COUNT: u64 = 0x2000_0000_0000_0000 - 20;

/// The counters that a caller's numbers are; None where a count may not rise, or the piece is full.
fn open_of(piece: Piece) -> Option<Open>
    ensures { result ≡ (if is_wrong piece then None else Some (counters_said piece)) }
{
    if piece.seq > MOST_COUNT || piece.up_packets > MOST_COUNT || piece.down_packets > MOST_COUNT {
        return None;
    }
    if piece.up_octets >= VOLUME_OCTETS || piece.down_octets >= VOLUME_OCTETS - piece.up_octets {
        return None;
    }
    Some(Open {
        life: 0,
        ebi: 0,
        qci: 0,
        seq: piece.seq,
        up_octets: piece.up_octets,
        down_octets: piece.down_octets,
        up_packets: piece.up_packets,
        down_packets: piece.down_packets,
    })
}

/// Counts a packet of so many octets, up or, where `up` is 0, down.
#[unsafe(no_mangle)]
pub extern "C" fn gtp_c_piece_count(piece: &mut Piece, up: u32, octets: u32, at: u64) -> u32
    ensures code { result ≡ count_code piece.old (not (up == 0)) octets at }
    ensures counted { MatchBool (result == 23) (piece.new ≡ piece.old)
        ((counters_said piece.new ≡ with_packet (counters_said piece.old) (not (up == 0)) octets)
        × (moments_said piece.new ≡ with_moment (moments_said piece.old) at)) }
{
    if at > LAST_MOMENT {
        return RANGE;
    }
    let Some(open) = open_of(*piece) else {
        return RANGE;
    };
    let counted = open.with(up != 0, octets);
    let is_first = piece.up_packets == 0 && piece.down_packets == 0;
    *piece = Piece {
        seq: counted.seq,
        up_octets: counted.up_octets,
        down_octets: counted.down_octets,
        up_packets: counted.up_packets,
        down_packets: counted.down_packets,
        first: if is_first { at } else { piece.first },
        last: at,
    };
    if counted.is_full() { FULL } else { 0 }
}

/// Begins the next piece, once the row of this one is written.
#[unsafe(no_mangle)]
pub extern "C" fn gtp_c_piece_next(piece: &mut Piece) -> u32
    ensures code { result ≡ next_code piece.old }
    ensures next { MatchBool (result == 23) (piece.new ≡ piece.old)
        ((counters_said piece.new ≡ next_piece (counters_said piece.old)) × (moments_said piece.new ≡ no_moments)) }
{
    if piece.seq > MOST_COUNT {
        return RANGE;
    }
    *piece = Piece {
        seq: piece.seq + 1,
        up_octets: 0,
        down_octets: 0,
        up_packets: 0,
        down_packets: 0,
        first: 0,
        last: 0,
    };
    0
}
