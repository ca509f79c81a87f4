//! How reading a trace and writing its report end.
ghost use Rattle.std.specs.Prelude.{◌≡◌, ◌≤◌, Err, OnOk, OnErr};
ghost use Rattle.std.specs.Io.KnownBytes.{Appends};
ghost use Rattle.pc_outside.specs.Faults.{Rises};
ghost use Rattle.pc_outside.specs.Prefixes.{AppendsPrefix};
ghost use Rattle.trace_run.specs.Noted.{bad_at};
ghost use Rattle.trace_run.specs.Status.{status_at, status_without};

use crate::status::Status;
use pc_outside::{Sink, Unwritten, write_whole};
use trace_lines::LineBad;

/// Why no more lines are read.
#[derive(Clone, Copy)]
pub enum Ending {
    /// The source is at its end.
    Ended,
    /// The source failed.
    ReadFault,
    /// The next line can't be read.
    BadLine(LineBad),
    /// It has more than 132,000 octets.
    LineLong,
    /// The input has 2^40 octets or more.
    TooLong,
}

/// Writes these octets.
pub fn write_octets<K: Sink>(sink: &mut K, octets: &[u8]) -> Result<(), Unwritten>
    ensures moved { OnOk result (Appends (K.written sink.old) (K.written sink.new) octets.now) }
    ensures cut { OnErr result (AppendsPrefix (K.written sink.old) (K.written sink.new) octets.now) }
    ensures no_other { OnErr result (result ≡ Err Unwritten.WriteFault) }

    ensures later { K.faults sink.old ≤ K.faults sink.new }
    ensures fault { OnErr result (Rises (K.faults sink.old) (K.faults sink.new)) }
{
    if write_whole(sink, octets).is_err() {
        return Err(Unwritten::WriteFault);
    }
    Ok(())
}

/// Why the next line can't be read, where lines end so.
pub fn bad_at(ending: Ending) -> Option<LineBad>
    ensures { result ≡ bad_at ending }
{
    match ending {
        Ending::BadLine(why) => Some(why),
        Ending::Ended | Ending::ReadFault | Ending::LineLong | Ending::TooLong => None,
    }
}

/// The status of a run whose lines ended so.
pub fn status_at(ending: Ending) -> Status
    ensures { result ≡ status_at ending }
{
    match ending {
        Ending::Ended => Status::Ok,
        Ending::ReadFault => Status::ReadFault,
        Ending::BadLine(_) => Status::BadLine,
        Ending::LineLong => Status::LineLong,
        Ending::TooLong => Status::TooLong,
    }
}

/// The status of a run whose report is cut.
pub fn status_without(why: Unwritten) -> Status
    ensures { result ≡ status_without why }
{
    match why {
        Unwritten::WriteFault => Status::WriteFault,
        Unwritten::NoMemory => Status::NoMemory,
    }
}
