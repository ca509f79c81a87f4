//! Where an epoch ends.
ghost use Rattle.std.specs.Prelude.{◌≡◌, List, length};
ghost use Rattle.trace_lines.specs.Line.{Line};
ghost use Rattle.trace_lines.specs.Text.{line_text};
ghost use Rattle.trace_lines.specs.Epochs.{is_fence, octets_in, ends_epoch};

use crate::{LineKind, TraceLine};

// An epoch has at most this many lines, and ends with the line that brings its octets to the other.
const EPOCH_LINES: u64 = 65_536;

const EPOCH_OCTETS: u64 = 67_108_864;

/// Whether the line is the last of its epoch: `len` is the length of its text, `lines` and `octets` are
/// how many lines stand before it in the epoch, and how many octets they have.
pub fn ends_epoch(line: &TraceLine, len: u64, lines: u64, octets: u64) -> bool
    ensures { (before : List Line) → len ≡ length (line_text line.now) → lines ≡ length before
        → octets ≡ octets_in before
        → result ≡ ends_epoch before line.now }
{
    is_fence(line)
        || lines.saturating_add(1) >= EPOCH_LINES
        || octets.saturating_add(len) >= EPOCH_OCTETS
}

fn is_fence(line: &TraceLine) -> bool
    ensures { result ≡ is_fence line.now.kind }
{
    matches!(line.kind, LineKind::Fence)
}
