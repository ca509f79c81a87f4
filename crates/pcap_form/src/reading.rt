//! The next record of a capture.
ghost use Rattle.std.specs.Prelude.{◌≡◌, ◌≤◌};
ghost use Rattle.pc_outside.specs.Faults.{Rises};
ghost use Rattle.pcap_form.specs.Ahead.{Gains};
ghost use Rattle.pcap_form.specs.Reading.{Finds};

use crate::block::{Block, Fill};
use crate::head::CaptureHead;
use crate::record::{RECORD_LEN, RecordHead, SNAPSHOT_MAX, read_record_head};
use pc_outside::Source;

/// What comes next in a capture.
#[derive(Clone, Copy, Debug, PartialEq, Eq)]
pub enum NextRecord {
    /// A record with this head is held whole.
    Record(RecordHead),
    /// A record's captured length is above the most.
    Broken,
    /// The source is at its end, within a record.
    Cut,
    /// The source is at its end, behind a record.
    End,
    /// 2^40 octets were taken, and no whole record of them is left.
    Full,
    /// The source failed.
    Fault,
}

/// Takes octets until the next record is held whole, or why it isn't is known.
pub fn next_record<S: Source>(head: &CaptureHead, source: &mut S, block: &mut Block) -> NextRecord
    ensures gains { Gains block.old block.new (S.left source.old) (S.left source.new) }
    ensures finds { Finds result head.now block.new (S.left source.new) }

    // A fault is the source's.
    ensures later { S.faults source.old ≤ S.faults source.new }
    ensures fault { result ≡ NextRecord.Fault → Rises (S.faults source.old) (S.faults source.new) }
{
    match block.fill(source, RECORD_LEN) {
        Fill::Enough => {}
        Fill::End if block.held().is_empty() => return NextRecord::End,
        Fill::End => return NextRecord::Cut,
        Fill::Full => return NextRecord::Full,
        Fill::Fault => return NextRecord::Fault,
    }
    let one = read_record_head(head, block.held());
    if one.captured > SNAPSHOT_MAX {
        return NextRecord::Broken;
    }
    match block.fill(source, RECORD_LEN + one.captured as usize) {
        Fill::Enough => NextRecord::Record(one),
        Fill::End => NextRecord::Cut,
        Fill::Full => NextRecord::Full,
        Fill::Fault => NextRecord::Fault,
    }
}
