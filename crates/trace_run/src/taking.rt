//! The lines of a trace, one behind another, and what takes them.
ghost use Rattle.std.specs.Prelude.{◌≡◌, ◌≤◌, ◌<◌, ◌+◌, ◌^◌, ◌∷◌, ◌++◌, [], ℕ, List, Option, length, Err, OnOk, IfOk};
ghost use Rattle.std.specs.Prelude.{IfErr};
ghost use Rattle.std.specs.Io.KnownBytes.{prepend_known};
ghost use Rattle.pc_outside.specs.Faults.{Rises};
ghost use Rattle.pc_outside.specs.Limits.{input_max, line_max};
ghost use Rattle.trace_lines.specs.Line.{Line};
ghost use Rattle.trace_lines.specs.Text.{line_text};
ghost use Rattle.trace_run.specs.Beginnings.{behind};
ghost use Rattle.trace_run.specs.Takers.{IsNextFrom, LinesCut, LinesCutFrom, LinesEnd, LinesEndFrom};

use crate::ending::Ending;
use crate::reading::{LineReader, Next};
use pc_base::Moment;
use pc_outside::{LineBuf, Sink, Source, Unwritten};
use std::alloc::Global;
use trace_lines::TraceLine;

/// What a run does with each line of a trace.
pub trait LineTaker {
    /// What it was before the first line, and what it is behind these lines, where the last one has this moment (0
    /// before the first), and a sink told the former octets before the first line and tells the latter now.
    ghost represents: { Self → Self → List Line → ℕ → Option (List ℕ) → Option (List ℕ) → Type 0 };

    /// By what it was before the first line: the number of that line.
    ghost begins: { Self → ℕ };

    /// By what it was before the first line: the sink failed at the last of these lines.
    ghost breaks: { Self → List Line → Option (List ℕ) → Option (List ℕ) → Type 0 };

    /// Takes the next line, whose text has this length; it may leave any other in its place. After an error it may
    /// only be dropped.
    fn take<K: Sink>(
        &mut self,
        line: &mut TraceLine,
        len: usize,
        sink: &mut K,
    ) -> Result<(), Unwritten>
        requires next { (first : Self) × (done : List Line) × (latest : ℕ) × (old : Option (List ℕ))
            × represents first self.old done latest old (K.written sink.old)
            × IsNextFrom (begins first) done latest line.old }
        requires long { len ≡ length (line_text line.old) }
        requires short { len ≤ line_max }

        ensures taken { (first : Self) (done : List Line) (latest : ℕ) (old : Option (List ℕ))
            → represents first self.old done latest old (K.written sink.old)
            → IsNextFrom (begins first) done latest line.old
            → OnOk result (represents first self.new (done ++ line.old ∷ []) line.old.moment old (K.written sink.new)) }
        ensures broken { (first : Self) (done : List Line) (latest : ℕ) (old : Option (List ℕ))
            → represents first self.old done latest old (K.written sink.old)
            → IsNextFrom (begins first) done latest line.old
            → result ≡ Err Unwritten.WriteFault → breaks first (done ++ line.old ∷ []) old (K.written sink.new) }
        ensures kept { result ≡ Err Unwritten.NoMemory → K.written sink.new ≡ K.written sink.old }

        ensures later { K.faults sink.old ≤ K.faults sink.new }
        ensures fault { result ≡ Err Unwritten.WriteFault → Rises (K.faults sink.old) (K.faults sink.new) };
}

/// Reads the lines of an input and has them taken until no more come: why, and how many they were.
pub fn run_lines<S: Source, K: Sink, T: LineTaker>(
    alloc: Global,
    source: &mut S,
    sink: &mut K,
    taker: &mut T,
) -> Result<(Ending, u64), Unwritten>
    requires first { T.represents taker.old taker.old [] 0 (K.written sink.old) (K.written sink.old) }
    requires begins { T.begins taker.old ≡ 1 }

    ensures ended { IfOk result (λ end. LinesEnd (T.represents taker.old taker.new) end.0 end.1
        (S.left source.old) (S.left source.new) (K.written sink.old) (K.written sink.new)) }
    ensures cut { IfErr result (λ why. LinesCut (T.represents taker.old) (T.breaks taker.old) why (S.left source.old)
        (S.left source.new) (K.written sink.old) (K.written sink.new)) }

    ensures source_later { S.faults source.old ≤ S.faults source.new }
    ensures sink_later { K.faults sink.old ≤ K.faults sink.new }
    ensures read_fault { IfOk result (λ end. end.0 ≡ Ending.ReadFault
        → Rises (S.faults source.old) (S.faults source.new)) }
    ensures write_fault { result ≡ Err Unwritten.WriteFault → Rises (K.faults sink.old) (K.faults sink.new) }
{
    let mut buf = LineBuf::new(alloc)?;
    run_lines_by(&mut buf, alloc, source, sink, taker)
}

/// The same by a reader that nothing was read into.
pub fn run_lines_by<L: LineReader, S: Source, K: Sink, T: LineTaker>(
    reader: &mut L,
    alloc: Global,
    source: &mut S,
    sink: &mut K,
    taker: &mut T,
) -> Result<(Ending, u64), Unwritten>
    requires reader { ((L.holds reader.old).buffered ≡ []) × ((L.holds reader.old).room ≡ input_max) }
    requires ready { L.is_ready reader.old }
    requires taker { T.represents taker.old taker.old [] 0 (K.written sink.old) (K.written sink.old) }
    requires begins { T.begins taker.old ≡ 1 }

    ensures ended { IfOk result (λ end. LinesEnd (T.represents taker.old taker.new) end.0 end.1
        (S.left source.old) (S.left source.new) (K.written sink.old) (K.written sink.new)) }
    ensures cut { IfErr result (λ why. LinesCut (T.represents taker.old) (T.breaks taker.old) why (S.left source.old)
        (S.left source.new) (K.written sink.old) (K.written sink.new)) }

    ensures source_later { S.faults source.old ≤ S.faults source.new }
    ensures sink_later { K.faults sink.old ≤ K.faults sink.new }
    ensures read_fault { IfOk result (λ end. end.0 ≡ Ending.ReadFault
        → Rises (S.faults source.old) (S.faults source.new)) }
    ensures write_fault { result ≡ Err Unwritten.WriteFault → Rises (K.faults sink.old) (K.faults sink.new) }
{
    run_lines_behind(reader, alloc, source, sink, taker, 0, Moment(0))
}

/// The same of what a reader and a source have left of an input, behind so many lines, the last of which has this
/// moment: why no more come, and how many they are with those before.
pub fn run_lines_behind<L: LineReader, S: Source, K: Sink, T: LineTaker>(
    reader: &mut L,
    alloc: Global,
    source: &mut S,
    sink: &mut K,
    taker: &mut T,
    lines: u64,
    least: Moment,
) -> Result<(Ending, u64), Unwritten>
    requires first { T.represents taker.old taker.old [] least (K.written sink.old) (K.written sink.old) }
    requires begins { T.begins taker.old ≡ lines + 1 }
    requires low { lines < 2 ^ 51 }
    requires ready { L.is_ready reader.old }
    requires room { (L.holds reader.old).room ≤ 2 ^ 40 }

    ensures ended { IfOk result (λ end. LinesEndFrom (behind (L.holds reader.old).room lines least)
        (T.represents taker.old taker.new) end.0 end.1 (prepend_known (L.holds reader.old).buffered (S.left source.old))
        (S.left source.new) (K.written sink.old) (K.written sink.new)) }
    ensures cut { IfErr result (λ why. LinesCutFrom (behind (L.holds reader.old).room lines least)
        (T.represents taker.old) (T.breaks taker.old) why
        (prepend_known (L.holds reader.old).buffered (S.left source.old)) (S.left source.new) (K.written sink.old)
        (K.written sink.new)) }

    ensures source_later { S.faults source.old ≤ S.faults source.new }
    ensures sink_later { K.faults sink.old ≤ K.faults sink.new }
    ensures read_fault { IfOk result (λ end. end.0 ≡ Ending.ReadFault
        → Rises (S.faults source.old) (S.faults source.new)) }
    ensures write_fault { result ≡ Err Unwritten.WriteFault → Rises (K.faults sink.old) (K.faults sink.new) }
{
    let mut line = TraceLine::new(alloc);
    let mut lines = lines;
    let mut least = least;
    loop {
        match reader.next(source, &mut line, lines + 1, least) {
            Next::Line { len } => {
                least = line.moment;
                lines += 1;
                taker.take(&mut line, len, sink)?;
            }
            Next::Last { len } => {
                taker.take(&mut line, len, sink)?;
                return Ok((Ending::Ended, lines + 1));
            }
            Next::Bad(why) => return Ok((Ending::BadLine(why), lines)),
            Next::End => return Ok((Ending::Ended, lines)),
            Next::LineLong => return Ok((Ending::LineLong, lines)),
            Next::TooLong => return Ok((Ending::TooLong, lines)),
            Next::ReadFault => return Ok((Ending::ReadFault, lines)),
            Next::NoMemory => return Err(Unwritten::NoMemory),
        }
    }
}
