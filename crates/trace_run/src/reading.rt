//! The next line of a trace.
ghost use Rattle.std.specs.Prelude.{◌≡◌, ◌≤◌};
ghost use Rattle.std.specs.Io.KnownBytes.{prepend_known};
ghost use Rattle.pc_outside.specs.Faults.{Rises};
ghost use Rattle.pc_outside.specs.Held.{Held, IsUnfinished};
ghost use Rattle.trace_lines.specs.Line.{Line};
ghost use Rattle.trace_run.specs.Next.{Gives, Tells, TakesRoom, given_as, refused_as, said_in};

use pc_base::Moment;
use pc_outside::{LineBuf, LineRead, Source, read_line};
use trace_lines::{LineBad, TraceLine, read_line_in};

/// What comes next in a trace. A line stands in the place that it was to be read into.
#[derive(Clone, Copy)]
pub enum Next {
    /// A line that a newline ends, and the length of its text.
    Line { len: usize },
    /// The last line: no newline ends it, and the source is at its end behind it.
    Last { len: usize },
    Bad(LineBad),
    End,
    LineLong,
    TooLong,
    ReadFault,
    NoMemory,
}

/// What gives the lines of a source, one behind another. It may hold octets that it read and hasn't given.
pub trait LineReader {
    ghost holds: { Self → Held };

    /// It can be asked for lines, and stays so.
    ghost is_ready: { Self → Type 0 };

    /// Gives the line of this number, which may have no moment below the least, in place of the one before.
    fn next<S: Source>(
        &mut self,
        source: &mut S,
        line: &mut TraceLine,
        number: u64,
        least: Moment,
    ) -> Next
        requires { is_ready self.old }

        ensures tells { Tells (said_in result line.new) number least (holds self.old).room (holds self.new).room
            (prepend_known (holds self.old).buffered (S.left source.old))
            (prepend_known (holds self.new).buffered (S.left source.new)) }
        ensures room { TakesRoom (said_in result line.new) (holds self.old).room (holds self.new).room }
        ensures given { Gives (said_in result line.new) number least }
        ensures ready { is_ready self.new }

        // A fault is the source's, and comes only where more octets of a line are needed.
        ensures later { S.faults source.old ≤ S.faults source.new }
        ensures fault { result ≡ Next.ReadFault → Rises (S.faults source.old) (S.faults source.new) }
        ensures unfinished { result ≡ Next.ReadFault → IsUnfinished (holds self.new) };
}

impl LineReader for LineBuf {
    ghost holds = { λ buf. buf };

    ghost is_ready = { λ buf. Unit {0} };

    #[inline(always)]
    fn next<S: Source>(
        &mut self,
        source: &mut S,
        line: &mut TraceLine,
        number: u64,
        least: Moment,
    ) -> Next {
        next_line(line, source, self, number, least)
    }
}

/// Reads the line of this number, which may have no moment below the least, in place of the one before.
#[inline(always)]
pub fn next_line<S: Source>(
    line: &mut TraceLine,
    source: &mut S,
    buf: &mut LineBuf,
    number: u64,
    least: Moment,
) -> Next
    ensures tells { Tells (said_in result line.new) number least buf.old.room buf.new.room
        (prepend_known buf.old.buffered (S.left source.old))
        (prepend_known buf.new.buffered (S.left source.new)) }
    ensures room { TakesRoom (said_in result line.new) buf.old.room buf.new.room }
    ensures given { Gives (said_in result line.new) number least }

    // A fault is the source's, and comes only where more octets of a line are needed.
    ensures later { S.faults source.old ≤ S.faults source.new }
    ensures fault { result ≡ Next.ReadFault → Rises (S.faults source.old) (S.faults source.new) }
    ensures unfinished { result ≡ Next.ReadFault → IsUnfinished buf.new }
{
    match read_line(source, buf) {
        LineRead::Line => {}
        LineRead::End => return Next::End,
        LineRead::LineLong => return Next::LineLong,
        LineRead::TooLong => return Next::TooLong,
        LineRead::ReadFault => return Next::ReadFault,
    }
    let text = buf.line();
    match read_line_in(line, text, number, least) {
        Ok(()) => given(text.len(), buf.is_last()),
        Err(why) => refused(why),
    }
}

/// What comes next where a line was read, whose text has this length, and whether it is the last one.
#[inline(always)]
pub fn given(len: usize, last: bool) -> Next
    ensures { (line : Line) → said_in result line ≡ given_as line len last }
{
    if last {
        Next::Last { len }
    } else {
        Next::Line { len }
    }
}

/// What comes next where a line can't be read: it is bad, unless memory ran out.
pub fn refused(why: LineBad) -> Next
    ensures { (line : Line) → said_in result line ≡ refused_as why }
{
    match why {
        LineBad::NoMemory => Next::NoMemory,
        LineBad::Field | LineBad::Number | LineBad::Kind | LineBad::Hex | LineBad::MomentBack => {
            Next::Bad(why)
        }
    }
}
