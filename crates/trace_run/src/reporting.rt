//! The report of a trace, told epoch by epoch.
ghost use Rattle.std.specs.Io.KnownBytes.{prepend_known};
ghost use Rattle.std.specs.Prelude.{◌≡◌, ◌≤◌, ◌<◌, ◌+◌, ◌^◌, ◌∷◌, ◌++◌, [], ℕ, Bool, List, length, Ok, OnOk};
ghost use Rattle.std.specs.Prelude.{IfOk};
ghost use Rattle.pc_outside.specs.Faults.{Rises};
ghost use Rattle.pc_outside.specs.Limits.{input_max, line_max};
ghost use Rattle.trace_lines.specs.Input.{Input};
ghost use Rattle.trace_lines.specs.Line.{Line};
ghost use Rattle.trace_lines.specs.Text.{line_text};
ghost use Rattle.lawful_run.specs.Cut.{IsCut};
ghost use Rattle.lawful_run.specs.Report.{Report};
ghost use Rattle.trace_run.specs.Report.{Runs, RunsFrom};
ghost use Rattle.trace_run.specs.Beginnings.{behind};
ghost use Rattle.trace_run.specs.Reporting.{AnsweredFrom, IsDueFrom, SaysEpochs, Standing, StandingFrom};
ghost use Rattle.trace_run.specs.Takers.{IsNextFrom};

use crate::ending::{Ending, status_at, status_without};
use crate::epoch::Size;
use crate::reading::LineReader;
use crate::status::Status;
use crate::taking::{LineTaker, run_lines_behind};
use pc_base::Moment;
use pc_outside::{LineBuf, Sink, Source, Unwritten, write_text};
use std::alloc::{AllocError, Global};
use text_fields::Text;
use trace_lines::TraceLine;

/// Answers the lines of a trace, epoch by epoch, and tells its report. After an error it may only be dropped.
pub trait Reporter: Drop {
    /// The reports that it may tell of an input, by what it was before the first line, and whether their texts
    /// tell places.
    ghost may_have: { Self → Input → Report → Type 0 };

    ghost places: { Self → Bool };

    /// By what it was before the first line: the number of that line.
    ghost begins: { Self → ℕ };

    /// What it was before the first line, and what it is behind these lines, where the last one has this moment (0
    /// before the first): they are these whole epochs, whose text is the former, and those of the open one, whose
    /// text is the latter so far.
    ghost represents: { Self → Self → List Line → ℕ → List (List Line) → List Line → List ℕ → List ℕ → Type 0 };

    /// Takes the next line. It may leave any other in its place, so that a line that is kept needn't be copied.
    fn take(&mut self, line: &mut TraceLine, text: &mut Text) -> Result<(), AllocError>
        requires { (first : Self) × (done : List Line) × (latest : ℕ) × (closed : List (List Line))
            × (open_ : List Line) × (sent : List ℕ)
            × represents first self.old done latest closed open_ sent text.old
            × IsNextFrom (begins first) done latest line.old }

        ensures { (first : Self) (done : List Line) (latest : ℕ) (closed : List (List Line))
            (open_ : List Line) (sent : List ℕ)
            → represents first self.old done latest closed open_ sent text.old
            → IsNextFrom (begins first) done latest line.old
            → OnOk result (represents first self.new (done ++ line.old ∷ []) line.old.moment closed
            (open_ ++ line.old ∷ []) sent text.new) };

    /// Ends an epoch that its last line ended: the text is whole then.
    fn close(&mut self, text: &mut Text) -> Result<(), AllocError>
        requires { (first : Self) × (done : List Line) × (latest : ℕ) × (closed : List (List Line))
            × (open_ : List Line) × (sent : List ℕ)
            × represents first self.old done latest closed open_ sent text.old
            × IsCut done (closed ++ open_ ∷ []) [] }

        ensures closed { (first : Self) (done : List Line) (latest : ℕ) (closed : List (List Line))
            (open_ : List Line) (sent : List ℕ)
            → represents first self.old done latest closed open_ sent text.old
            → IsCut done (closed ++ open_ ∷ []) []
            → OnOk result (represents first self.new done latest (closed ++ open_ ∷ []) [] (sent ++ text.new) []) }
        ensures says { (first : Self) (done : List Line) (latest : ℕ) (closed : List (List Line))
            (open_ : List Line) (sent : List ℕ)
            → represents first self.old done latest closed open_ sent text.old
            → IsCut done (closed ++ open_ ∷ []) []
            → OnOk result (SaysEpochs (may_have first) (places first) (closed ++ open_ ∷ []) (sent ++ text.new)) };

    /// Ends the last epoch and the report, where so many lines were read and ended so. A bad line's note stands
    /// behind the entries of the lines before it.
    fn finish(&mut self, ending: Ending, lines: u64, text: &mut Text) -> Result<(), AllocError>
        requires reported { (first : Self) × (done : List Line) × (latest : ℕ) × (closed : List (List Line))
            × (open_ : List Line) × (sent : List ℕ)
            × represents first self.old done latest closed open_ sent text.old × IsCut done closed open_
            × (lines + 1 ≡ length done + begins first) }
        requires few { lines ≤ 2 ^ 60 }

        ensures { (first : Self) (done : List Line) (latest : ℕ) (closed : List (List Line))
            (open_ : List Line) (sent : List ℕ)
            → represents first self.old done latest closed open_ sent text.old → IsCut done closed open_
            → lines + 1 ≡ length done + begins first
            → OnOk result (IsDueFrom (begins first) (may_have first) (places first) ending done (sent ++ text.new)) };
}

/// A reporter, how large the open epoch is, and the text of what stands in it.
#[derive(Drop)]
pub struct Epochs<R> {
    pub reporter: R,
    pub size: Size,
    pub text: Text,
}

impl<R: Reporter> Epochs<R> {
    /// Before the first line of an input.
    pub fn new(alloc: Global, reporter: R) -> Epochs<R>
        ensures same { result.reporter ≡ reporter }
        ensures stands { R.begins reporter ≡ 1 → R.represents reporter reporter [] 0 [] [] [] []
            → SaysEpochs (R.may_have reporter) (R.places reporter) [] []
            → Standing (R.may_have reporter) (R.places reporter) (R.represents reporter result.reporter [] 0)
            result.size result.text [] [] }
    {
        Epochs::behind(alloc, reporter, 0)
    }

    /// Before the first line behind so many.
    pub fn behind(alloc: Global, reporter: R, lines: u64) -> Epochs<R>
        requires low { lines < 2 ^ 51 }
        ensures same { result.reporter ≡ reporter }
        ensures stands { (least : ℕ) → R.represents reporter reporter [] least [] [] [] []
            → SaysEpochs (R.may_have reporter) (R.places reporter) [] []
            → StandingFrom (lines + 1) (R.may_have reporter) (R.places reporter)
            (R.represents reporter result.reporter [] least) result.size result.text [] [] }
    {
        Epochs {
            reporter,
            size: Size::at(lines + 1),
            text: Text::new(alloc),
        }
    }

    /// Answers a line, whose text has this length: whether it ends its epoch. Then the text is that of the whole
    /// epoch, and is to be emptied. The reporter may leave any other line in its place.
    #[inline(always)]
    pub fn answer(&mut self, line: &mut TraceLine, len: usize) -> Result<bool, AllocError>
        requires next { (first : R) × (done : List Line) × (latest : ℕ) × (sent : List ℕ)
            × StandingFrom (R.begins first) (R.may_have first) (R.places first)
            (R.represents first self.old.reporter done latest) self.old.size self.old.text done sent
            × IsNextFrom (R.begins first) done latest line.old }
        requires long { len ≡ length (line_text line.old) }
        requires short { len ≤ line_max }

        ensures { (first : R) (done : List Line) (latest : ℕ) (sent : List ℕ)
            → StandingFrom (R.begins first) (R.may_have first) (R.places first)
            (R.represents first self.old.reporter done latest) self.old.size self.old.text done sent
            → IsNextFrom (R.begins first) done latest line.old
            → IfOk result (λ ends. AnsweredFrom (R.begins first) ends (R.may_have first) (R.places first)
            (R.represents first self.new.reporter (done ++ line.old ∷ []) line.old.moment) self.new.size self.new.text
            (done ++ line.old ∷ []) sent) }
    {
        let ends = self.size.take(line, len as u64);
        self.reporter.take(line, &mut self.text)?;
        if !ends {
            return Ok(false);
        }
        self.reporter.close(&mut self.text)?;
        Ok(true)
    }

    /// Ends the last epoch and the report, where so many lines were read and ended so.
    pub fn finish(&mut self, ending: Ending, lines: u64) -> Result<(), AllocError>
        requires reported { (first : R) × (done : List Line) × (latest : ℕ) × (sent : List ℕ)
            × StandingFrom (R.begins first) (R.may_have first) (R.places first)
            (R.represents first self.old.reporter done latest) self.old.size self.old.text done sent
            × (lines + 1 ≡ length done + R.begins first) }
        requires few { lines ≤ 2 ^ 60 }

        ensures { (first : R) (done : List Line) (latest : ℕ) (sent : List ℕ)
            → StandingFrom (R.begins first) (R.may_have first) (R.places first)
            (R.represents first self.old.reporter done latest) self.old.size self.old.text done sent
            → lines + 1 ≡ length done + R.begins first
            → OnOk result (IsDueFrom (R.begins first) (R.may_have first) (R.places first) ending done
            (sent ++ self.new.text)) }
    {
        self.reporter.finish(ending, lines, &mut self.text)
    }
}

impl<R: Reporter> LineTaker for Epochs<R> {
    ghost use Rattle.trace_run.specs.Reporting.{BreaksOff, HasWritten};

    ghost represents = { λ first now done latest. HasWritten (R.begins first.reporter) (R.may_have first.reporter)
        (R.places first.reporter) (R.represents first.reporter now.reporter done latest) now.size now.text done };

    ghost begins = { λ first. R.begins first.reporter };

    ghost breaks = { λ first. BreaksOff (R.may_have first.reporter) (R.places first.reporter) };

    #[inline(always)]
    fn take<K: Sink>(
        &mut self,
        line: &mut TraceLine,
        len: usize,
        sink: &mut K,
    ) -> Result<(), Unwritten> {
        if !self.answer(line, len)? {
            return Ok(());
        }
        write_text(sink, &mut self.text)
    }
}

/// Reads a trace, has it answered, and writes the report epoch by epoch.
pub fn run_report<S: Source, K: Sink, R: Reporter>(
    alloc: Global,
    source: &mut S,
    sink: &mut K,
    reporter: R,
) -> Status
    requires first { R.represents reporter reporter [] 0 [] [] [] [] }
    requires begins { R.begins reporter ≡ 1 }
    requires nothing { SaysEpochs (R.may_have reporter) (R.places reporter) [] [] }

    ensures runs { Runs (R.may_have reporter) (R.places reporter) result
        (Rises (S.faults source.old) (S.faults source.new)) (S.left source.old) (S.left source.new)
        (K.written sink.old) (K.written sink.new) }
    ensures no_usage { result ≡ Status.Usage → ⊥ }

    ensures source_later { S.faults source.old ≤ S.faults source.new }
    ensures sink_later { K.faults sink.old ≤ K.faults sink.new }
    ensures read_fault { result ≡ Status.ReadFault
        → Rises (S.faults source.old) (S.faults source.new) }
    ensures write_fault { result ≡ Status.WriteFault
        → Rises (K.faults sink.old) (K.faults sink.new) }
{
    match LineBuf::new(alloc) {
        Ok(mut buf) => run_report_by(&mut buf, alloc, source, sink, reporter),
        Err(AllocError) => Status::NoMemory,
    }
}

/// The same by a reader that nothing was read into.
pub fn run_report_by<L: LineReader, S: Source, K: Sink, R: Reporter>(
    reader: &mut L,
    alloc: Global,
    source: &mut S,
    sink: &mut K,
    reporter: R,
) -> Status
    requires reader { ((L.holds reader.old).buffered ≡ []) × ((L.holds reader.old).room ≡ input_max) }
    requires ready { L.is_ready reader.old }
    requires first { R.represents reporter reporter [] 0 [] [] [] [] }
    requires begins { R.begins reporter ≡ 1 }
    requires nothing { SaysEpochs (R.may_have reporter) (R.places reporter) [] [] }

    ensures runs { Runs (R.may_have reporter) (R.places reporter) result
        (Rises (S.faults source.old) (S.faults source.new)) (S.left source.old) (S.left source.new)
        (K.written sink.old) (K.written sink.new) }
    ensures no_usage { result ≡ Status.Usage → ⊥ }

    ensures source_later { S.faults source.old ≤ S.faults source.new }
    ensures sink_later { K.faults sink.old ≤ K.faults sink.new }
    ensures read_fault { result ≡ Status.ReadFault
        → Rises (S.faults source.old) (S.faults source.new) }
    ensures write_fault { result ≡ Status.WriteFault
        → Rises (K.faults sink.old) (K.faults sink.new) }
{
    run_report_behind(reader, alloc, source, sink, reporter, 0, Moment(0))
}

/// The same of what a reader and a source have left of an input, behind so many lines, the last of which has this
/// moment.
pub fn run_report_behind<L: LineReader, S: Source, K: Sink, R: Reporter>(
    reader: &mut L,
    alloc: Global,
    source: &mut S,
    sink: &mut K,
    reporter: R,
    lines: u64,
    least: Moment,
) -> Status
    requires first { R.represents reporter reporter [] least [] [] [] [] }
    requires begins { R.begins reporter ≡ lines + 1 }
    requires low { lines < 2 ^ 51 }
    requires ready { L.is_ready reader.old }
    requires room { (L.holds reader.old).room ≤ 2 ^ 40 }
    requires nothing { SaysEpochs (R.may_have reporter) (R.places reporter) [] [] }

    ensures runs { RunsFrom (behind (L.holds reader.old).room lines least) (R.may_have reporter)
        (R.places reporter) result (Rises (S.faults source.old) (S.faults source.new))
        (prepend_known (L.holds reader.old).buffered (S.left source.old)) (S.left source.new)
        (K.written sink.old) (K.written sink.new) }
    ensures no_usage { result ≡ Status.Usage → ⊥ }

    ensures source_later { S.faults source.old ≤ S.faults source.new }
    ensures sink_later { K.faults sink.old ≤ K.faults sink.new }
    ensures read_fault { result ≡ Status.ReadFault
        → Rises (S.faults source.old) (S.faults source.new) }
    ensures write_fault { result ≡ Status.WriteFault
        → Rises (K.faults sink.old) (K.faults sink.new) }
{
    let mut epochs = Epochs::behind(alloc, reporter, lines);
    let (ending, lines) = match run_lines_behind(
        reader,
        alloc,
        source,
        sink,
        &mut epochs,
        lines,
        least,
    ) {
        Ok(end) => end,
        Err(why) => return status_without(why),
    };
    match epochs.finish(ending, lines) {
        Ok(()) => {}
        Err(AllocError) => return Status::NoMemory,
    }
    match write_text(sink, &mut epochs.text) {
        Ok(()) => status_at(ending),
        Err(why) => status_without(why),
    }
}
