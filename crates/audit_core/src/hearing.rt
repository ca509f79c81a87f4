//! The lines of an input, until no more come.
ghost use Rattle.std.specs.Prelude.{◌≡◌, ◌≢◌, ◌≤◌, ◌^◌, [], vec_len, false, IfOk, Ok, OnErr};
ghost use Rattle.pc_outside.specs.Faults.{Rises};
ghost use Rattle.pc_outside.specs.WhereTold.{WhereTold};
ghost use Rattle.audit_core.specs.Heard.{HasHeard};
ghost use Rattle.audit_core.specs.Progress.{Ends};

use crate::NoMemory;
use crate::heard::Heard;
use pc_outside::{InputStop, LineBuf, LineRead, Source, read_line};
use std::alloc::Global;

// Hears the lines of an input until no more come.
fn hear_lines<S: Source>(
    alloc: Global,
    source: &mut S,
    buf: &mut LineBuf,
    heard: &mut Heard,
) -> Result<InputStop, NoMemory>
    requires fresh { buf.old ≡ record { line = []; last = false; buffered = []; room = 2 ^ 40 } }
    requires nothing { HasHeard heard.old [] }
    requires none { vec_len heard.old.lines ≡ 0 }

    ensures ended { IfOk result (λ stop. Ends stop (S.left source.old) (S.left source.new) heard.new) }

    // A source that told its octets tells what is left.
    ensures told { WhereTold (S.left source.old) (S.left source.new) (λ octets rest. Unit {0}) }

    ensures later { S.faults source.old ≤ S.faults source.new }
    ensures fault { result ≡ Ok InputStop.ReadFault → Rises (S.faults source.old) (S.faults source.new) }
    ensures no_fault { result ≢ Ok InputStop.ReadFault → S.faults source.new ≡ S.faults source.old }
{
    loop {
        match read_line(source, buf) {
            LineRead::Line => {
                heard.take(alloc, buf.line())?;
                if buf.is_last() {
                    return Ok(InputStop::Ended);
                }
            }
            LineRead::End => return Ok(InputStop::Ended),
            LineRead::LineLong => return Ok(InputStop::LineLong),
            LineRead::TooLong => return Ok(InputStop::TooLong),
            LineRead::ReadFault => return Ok(InputStop::ReadFault),
        }
    }
}

/// Hears the lines of a trace, and of the report behind it, until no more come: what was heard, and why no more come.
pub fn hear<S: Source>(alloc: Global, source: &mut S) -> Result<(Heard, InputStop), NoMemory>
    ensures ended { IfOk result (λ told. Ends told.1 (S.left source.old) (S.left source.new) told.0) }

    // A source that told its octets tells what is left.
    ensures told { WhereTold (S.left source.old) (S.left source.new) (λ octets rest. Unit {0}) }

    ensures later { S.faults source.old ≤ S.faults source.new }
    ensures fault { IfOk result (λ told. told.1 ≡ InputStop.ReadFault
        → Rises (S.faults source.old) (S.faults source.new)) }

    // A read that fails is told, and none is tried again.
    ensures no_fault { IfOk result (λ told. told.1 ≢ InputStop.ReadFault
        → S.faults source.new ≡ S.faults source.old) }
    ensures no_fault_cut { OnErr result (S.faults source.new ≡ S.faults source.old) }
{
    let mut buf = LineBuf::new(alloc)?;
    let mut heard = Heard::new(alloc);
    let stop = hear_lines(alloc, source, &mut buf, &mut heard)?;
    Ok((heard, stop))
}
