//! The directions of packets, and the filters that count for each.
ghost use Rattle.std.specs.Prelude.{◌↔◌, IsTrue};
ghost use Rattle.tft_match.specs.Fit.{CountsIn};

use tft_codec::{BEFORE_RELEASE_7, BIDIRECTIONAL, DOWNLINK_ONLY, UPLINK_ONLY};

/// Where a packet goes: up from the user to the far end, or down to the user.
#[derive(Clone, Copy, Debug, PartialEq, Eq)]
pub enum Direction {
    Up,
    Down,
}

/// Whether filters with this direction field, 0 to 3, count for packets of a direction (TS 24.008, section 10.5.6.12).
pub fn counts_in(direction: Direction, field: u8) -> bool
    ensures { IsTrue result ↔ CountsIn direction field }
{
    match direction {
        Direction::Down => {
            field == BEFORE_RELEASE_7 || field == DOWNLINK_ONLY || field == BIDIRECTIONAL
        }
        Direction::Up => field == UPLINK_ONLY || field == BIDIRECTIONAL,
    }
}
