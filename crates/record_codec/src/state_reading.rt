//! A state before a trace, read line by line.
ghost use Rattle.std.specs.Prelude.{◌≡◌, ◌≢◌, ◌≤◌, ◌^◌, [], false, IfErr, IfOk, OnErr};
ghost use Rattle.std.specs.Io.KnownBytes.{prepend_known};
ghost use Rattle.pc_outside.specs.Faults.{Rises};
ghost use Rattle.pc_outside.specs.WhereTold.{WhereTold};
ghost use Rattle.record_codec.specs.StateReading.{Found, Stopped};

use crate::state_lines::{StateLines, StateSaid};
use crate::{NoMemory, StateFile};
use pc_outside::{LineBuf, LineRead, Source, read_line};
use std::alloc::Global;

/// What came of reading a state.
#[derive(Drop)]
pub enum StateRead {
    /// A state, and the line `TRACE`. What comes next is the trace.
    Found(StateFile),
    /// The lines are no state before a trace.
    BadState,
    /// The source failed before that was known.
    ReadFault,
    /// A line before it was known has more than 132,000 octets.
    LineLong,
    /// 2^40 octets were read before it was known.
    TooLong,
}

/// Reads a state before a trace, from the first line on; what comes behind it is left to the buffer and the source.
pub fn read_state<S: Source>(
    alloc: Global,
    source: &mut S,
    buf: &mut LineBuf,
) -> Result<StateRead, NoMemory>
    requires fresh { buf.old ≡ record { line = []; last = false; buffered = []; room = 2 ^ 40 } }

    // What stands behind a state that was found is ahead, in the buffer and in the source.
    ensures found { IfOk result (λ read. Found read (S.left source.old)
        (prepend_known buf.new.buffered (S.left source.new)) buf.new.room) }
    ensures room { IfOk result (λ read. buf.new.room ≤ 2 ^ 40) }

    // Why none was found.
    ensures stopped { IfOk result (λ read. Stopped read (S.left source.old) (S.left source.new)) }

    // Out of memory: a source that told its octets tells what is left.
    ensures cut { IfErr result (λ why. WhereTold (S.left source.old) (S.left source.new) (λ octets rest. Unit {0})) }

    ensures later { S.faults source.old ≤ S.faults source.new }
    ensures fault { IfOk result (λ read. read ≡ StateRead.ReadFault
        → Rises (S.faults source.old) (S.faults source.new)) }

    // A read that fails is told, and none is tried again.
    ensures no_fault { IfOk result (λ read. read ≢ StateRead.ReadFault
        → S.faults source.new ≡ S.faults source.old) }
    ensures no_fault_cut { OnErr result (S.faults source.new ≡ S.faults source.old) }
{
    let mut lines_heard = StateLines::new(alloc);
    loop {
        match read_line(source, buf) {
            LineRead::Line => match lines_heard.take(alloc, buf.line())? {
                StateSaid::Found(file) => return Ok(StateRead::Found(file)),
                StateSaid::BadState => return Ok(StateRead::BadState),
                StateSaid::More => {
                    if buf.is_last() {
                        return Ok(StateRead::BadState);
                    }
                }
            },
            LineRead::End => return Ok(StateRead::BadState),
            LineRead::LineLong => return Ok(StateRead::LineLong),
            LineRead::TooLong => return Ok(StateRead::TooLong),
            LineRead::ReadFault => return Ok(StateRead::ReadFault),
        }
    }
}
