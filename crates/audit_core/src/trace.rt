//! The lines of a trace, taken one by one: what each means, and where epochs end.

ghost use Rattle.std.specs.Prelude.{◌≡◌, ℕ, ◌+◌, ◌<◌, ◌≤◌, ◌^◌, ◌++◌, ◌∷◌, [], List, Option, None, Some, length};
ghost use Rattle.std.specs.Prelude.{codes, true, vec_len, IfOk, OnOk};
ghost use Rattle.trace_lines.specs.Line.{Line};
ghost use Rattle.trace_lines.specs.Text.{line_text};
ghost use Rattle.trace_lines.specs.Word.{word_of};
ghost use Rattle.pc_outside.specs.Texts.{Text};
ghost use Rattle.audit_core.specs.TraceTaken.{HasTakenTrace, IsClosed, TakesLines, weight_of};
ghost use Rattle.audit_core.specs.declared.setup.BadAt.{BadAt};

use crate::NoMemory;
use crate::kept::keep;
use address_book::AddressBook;
use at_rest::decide_line;
use pc_base::{Moment, Octets};
use slot_execution::KeptMeaning;
use std::alloc::Global;
use subscriber::Subscriber;
use trace_lines::{LineBad, TraceLine, ends_epoch, read_line_in};

/// The lines of a trace so far, by what they mean: whole epochs, and those of one that is open. The book and the
/// subscribers are those that the lines leave, before any of their events.
#[derive(Drop)]
pub struct Trace {
    slices: u8,
    pub(crate) book: AddressBook,
    pub(crate) subscribers: Vec<Subscriber>,
    pub(crate) kept: Vec<KeptMeaning>,
    pub(crate) octets: Vec<u8>,
    /// How many lines there are up to the end of each whole epoch.
    pub(crate) ends: Vec<usize>,
    /// How many lines the open epoch has, and how many octets they have.
    open_lines: u64,
    open_octets: u64,
    least: Moment,
    /// Whether the trace stopped at a line that is refused.
    stopped: bool,
}

impl Trace {
    /// No lines, where the gateway has so many slices, 1 to 64.
    pub(crate) fn new(alloc: Global, slices: u8) -> Trace
        requires least { 1 ≤ slices }
        requires most { slices ≤ 64 }
        ensures taken { HasTakenTrace slices [] result }
        ensures weight { weight_of result ≡ 0 }
    {
        Trace {
            slices,
            book: AddressBook::new(alloc),
            subscribers: Vec::new(alloc),
            kept: Vec::new(alloc),
            octets: Vec::new(alloc),
            ends: Vec::new(alloc),
            open_lines: 0,
            open_octets: 0,
            least: Moment(0),
            stopped: false,
        }
    }

    /// Takes the next line, which is read into another's place; behind one that is refused no more is looked at.
    pub(crate) fn take(
        &mut self,
        alloc: Global,
        line: &mut TraceLine,
        text: &[u8],
    ) -> Result<(), NoMemory>
        requires few { vec_len self.old.kept + 1 < 2 ^ 40 }
        requires taken { (slices : ℕ) × (texts : List Text) × HasTakenTrace slices texts self.old }
        ensures taken { (slices : ℕ) (texts : List Text) → HasTakenTrace slices texts self.old
            → OnOk result (HasTakenTrace slices (texts ++ text.now ∷ []) self.new) }
        ensures lines { OnOk result (weight_of self.new ≤ weight_of self.old + length text.now + 1) }
    {
        if self.stopped {
            return Ok(());
        }
        let number = self.kept.len() as u64 + 1;
        match read_line_in(line, text, number, self.least) {
            Ok(()) => self.add(alloc, line, text.len() as u64),
            Err(why) => self.stop(alloc, why),
        }
    }

    // One line more, whose text is so long.
    fn add(&mut self, alloc: Global, line: &TraceLine, len: u64) -> Result<(), NoMemory>
        requires few { vec_len self.old.kept + 1 < 2 ^ 40 }
        requires len { len ≡ length (line_text line.now) }
        requires late { self.old.least ≤ line.now.moment }
        requires takes { (slices : ℕ) × (done : List Line) × TakesLines self.old slices done None }
        ensures takes { (slices : ℕ) (done : List Line) → TakesLines self.old slices done None
            → OnOk result (TakesLines self.new slices (done ++ line.now ∷ []) None) }
        ensures least { OnOk result (self.new.least ≡ line.now.moment) }
        ensures stopped { OnOk result (self.new.stopped ≡ self.old.stopped) }
        ensures count { OnOk result (vec_len self.new.kept ≡ vec_len self.old.kept + 1) }
    {
        let meant = decide_line(
            alloc,
            self.slices,
            &mut self.book,
            &mut self.subscribers,
            line,
        )?;
        let kept = keep(alloc, &mut self.octets, meant)?;
        self.kept.push(kept)?;
        self.least = line.moment;
        if ends_epoch(line, len, self.open_lines, self.open_octets) {
            self.open_lines = 0;
            self.open_octets = 0;
            self.ends.push(self.kept.len())?;
            Ok(())
        } else {
            self.open_lines += 1;
            self.open_octets += len;
            Ok(())
        }
    }

    // The trace stops at a line that is refused, unless memory ran out: its note stands in the open epoch.
    fn stop(&mut self, alloc: Global, why: LineBad) -> Result<(), NoMemory>
        requires few { vec_len self.old.kept + 1 < 2 ^ 40 }
        requires open_ { self.old.open_lines < 2 ^ 40 }
        ensures takes { (slices number : ℕ) (done : List Line) → TakesLines self.old slices done None
            → OnOk result (TakesLines self.new slices done (Some (record { number = number; why = why }))) }
        ensures other { OnOk result (why ≡ LineBad.NoMemory → ⊥) }
        ensures stopped { OnOk result (self.new.stopped ≡ true) }
        ensures count { OnOk result (vec_len self.new.kept ≡ vec_len self.old.kept + 1) }
    {
        match why {
            LineBad::NoMemory => Err(NoMemory),
            LineBad::Field | LineBad::Number | LineBad::Kind | LineBad::Hex | LineBad::MomentBack =>
                {
                    let note = bad_note(alloc, why)?;
                    self.kept.push(KeptMeaning::Note(note))?;
                    self.open_lines += 1;
                    self.stopped = true;
                    Ok(())
                }
        }
    }

    /// The end of the lines: those of the open epoch, if there are any, are one more.
    pub(crate) fn close(&mut self) -> Result<(), NoMemory>
        ensures closed { (slices : ℕ) (done : List Line) (stop : Option BadAt) → TakesLines self.old slices done stop
            → OnOk result (IsClosed self.new slices done stop) }
        ensures again { (slices : ℕ) (done : List Line) (stop : Option BadAt) → IsClosed self.old slices done stop
            → OnOk result (IsClosed self.new slices done stop) }
        ensures lines { OnOk result (weight_of self.new ≡ weight_of self.old) }
    {
        if self.open_lines == 0 {
            return Ok(());
        }
        self.open_lines = 0;
        self.ends.push(self.kept.len())?;
        Ok(())
    }
}

// The note on a bad line.
pub(crate) fn bad_note(alloc: Global, why: LineBad) -> Result<Octets, NoMemory>
    ensures { IfOk result (λ note. note ≡ codes "line" ++ 32 ∷ word_of why) }
{
    let mut note = Vec::from_slice(alloc, b"line ")?;
    note.extend_from_slice(why.word().as_bytes())?;
    Ok(Octets::of(note))
}
