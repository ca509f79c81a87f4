//! The head of a record, and the moment of a line.
ghost use Rattle.std.specs.Prelude.{◌≡◌, ◌≤◌, length};
ghost use Rattle.pcap_form.specs.Record.{captured_of, time_of};
ghost use Rattle.pcap_form.specs.Trace.{moment_of};

use crate::CaptureHead;
use crate::numbers::number32_at;
use pc_base::{LAST_MOMENT, Moment};

/// How many octets the head of a record has.
pub const RECORD_LEN: usize = 16;

/// The most octets that a record may hold: a greater captured length is none.
pub const SNAPSHOT_MAX: u32 = 262_144;

/// What a record's head says: its time in microseconds, rounded down and below 2^53, and how many
/// octets were captured. The original length isn't looked at.
#[derive(Clone, Copy, Debug, Drop, PartialEq, Eq)]
pub struct RecordHead {
    pub time: u64,
    pub captured: u32,
}

/// The head at the start of a record.
#[inline]
pub fn read_record_head(head: &CaptureHead, bytes: &[u8]) -> RecordHead
    requires { 16 ≤ length bytes.now }
    ensures time { result.time ≡ time_of head.now bytes.now }
    ensures captured { result.captured ≡ captured_of head.now bytes.now }
{
    let seconds = number32_at(head.little, bytes, 0);
    let fraction = number32_at(head.little, bytes, 4);
    let micros = if head.nanos {
        fraction / 1000
    } else {
        fraction
    };
    RecordHead {
        time: 1_000_000 * u64::from(seconds) + u64::from(micros),
        captured: number32_at(head.little, bytes, 8),
    }
}

/// The moment of a record at a time, where the first record has another and the moment of the
/// record before is the least: the microseconds between, at least the least moment and at most the
/// last one.
#[inline]
pub fn moment_of(first: u64, least: Moment, time: u64) -> Moment
    ensures { result ≡ moment_of first least time }
{
    Moment(time.saturating_sub(first).max(least.0).min(LAST_MOMENT))
}
