//! The pieces of an input, heard line by line: what is kept of those before, and the one that is heard.

ghost use Rattle.std.specs.Prelude.{◌≡◌, ◌≢◌, ℕ, ◌+◌, ◌<◌, ◌≤◌, ◌^◌, ◌++◌, ◌∷◌, [], List, length, vec_len};
ghost use Rattle.std.specs.Prelude.{bytes_eq, false, true, None, Some, IfNone, IfOk, IfSome, OnOk};
ghost use Rattle.trace_lines.specs.Line.{Line};
ghost use Rattle.trace_lines.specs.Text.{line_text};
ghost use Rattle.pc_outside.specs.Texts.{Text};
ghost use Rattle.audit_core.specs.Along.{Behind, RefutesNext, line_behind, none_behind};
ghost use Rattle.audit_core.specs.Following.{HearsPiece, IsFresh, IsLetGo, KeepsRest, LeavesAs, MisfitOrNone};
ghost use Rattle.audit_core.specs.Following.{TakesLines, weight_of};
ghost use Rattle.audit_core.specs.Ranks.{number_of};
ghost use Rattle.audit_core.specs.Said.{marker};
ghost use Rattle.audit_core.specs.Setups.{IsSetup, setup_of};

use crate::NoMemory;
use crate::kept::keep;
use crate::piece::piece_broken;
use crate::report::Stood;
use crate::sentence::{Refutation, Sentence};
use crate::setup::Setup;
use crate::telling::{Break, at_report, dash, word};
use crate::trace::bad_note;
use address_book::AddressBook;
use at_rest::decide_line;
use pc_base::{Moment, Octets};
use report_lines::read;
use slot_execution::KeptMeaning;
use std::alloc::Global;
use subscriber::Subscriber;
use trace_lines::{LineBad, TraceLine, ends_epoch, read_line_in};

// The line between the trace's lines of a piece and its entries.
const MARKER: &[u8] = b"REPORT";

/// The line between two pieces.
pub(crate) const TURN: &[u8] = b"TRACE";

/// What was heard of an input in pieces: of the lawful ones before how many they are, how many lines they had, and the
/// book and the subscribers that they leave; and of the one that is heard its lines, by what they mean, and its
/// entries.
#[derive(Drop)]
pub struct Pieces {
    setup: Setup,
    /// The line that was read last; its memory is kept for the next one.
    line: TraceLine,
    pub(crate) epochs: u64,
    pub(crate) lines: u64,
    least: Moment,
    book: AddressBook,
    subscribers: Vec<Subscriber>,
    in_report: bool,
    kept: Vec<KeptMeaning>,
    octets: Vec<u8>,
    open_octets: u64,
    /// Whether a line ended the epoch · whether another stood behind it · whether a line was refused.
    ended: bool,
    over: bool,
    stopped: bool,
    entries: Vec<Stood>,
    /// Whether a line of the report is no entry. Then no more are kept.
    none: bool,
}

// The moment of a line.
fn moment_of(line: &TraceLine) -> Moment
    ensures { result ≡ line.now.moment }
{
    line.moment
}

impl Pieces {
    /// Nothing was heard yet.
    pub(crate) fn new(alloc: Global, setup: &Setup) -> Pieces
        requires { IsSetup setup.now }
        ensures nothing { HearsPiece result none_behind [] }
        ensures weight { weight_of result ≡ 0 }
        ensures setup { result.setup ≡ setup.now }
    {
        Pieces {
            setup: *setup,
            line: TraceLine::new(alloc),
            epochs: 0,
            lines: 0,
            least: Moment(0),
            book: AddressBook::new(alloc),
            subscribers: Vec::new(alloc),
            in_report: false,
            kept: Vec::new(alloc),
            octets: Vec::new(alloc),
            open_octets: 0,
            ended: false,
            over: false,
            stopped: false,
            entries: Vec::new(alloc),
            none: false,
        }
    }

    /// Hears the next line of the piece.
    pub(crate) fn take(&mut self, alloc: Global, text: &[u8]) -> Result<(), NoMemory>
        requires few { self.old.lines + vec_len self.old.kept + 1 < 2 ^ 40 }
        requires hears { (known : Behind) × (piece : List Text) × HearsPiece self.old known piece }
        ensures hears { (known : Behind) (piece : List Text) → HearsPiece self.old known piece
            → OnOk result (HearsPiece self.new known (piece ++ text.now ∷ [])) }
        ensures weight { OnOk result (weight_of self.new ≤ weight_of self.old + length text.now + 1) }
        ensures setup { self.new.setup ≡ self.old.setup }
    {
        if self.in_report {
            return self.take_entry(alloc, text);
        }
        if text == MARKER {
            self.in_report = true;
            return Ok(());
        }
        self.take_line(alloc, text)
    }

    // A line of the report; behind one that is no entry no more is looked at.
    fn take_entry(&mut self, alloc: Global, text: &[u8]) -> Result<(), NoMemory>
        requires open { self.old.in_report ≡ true }
        ensures hears { (known : Behind) (piece : List Text) → HearsPiece self.old known piece
            → OnOk result (HearsPiece self.new known (piece ++ text.now ∷ [])) }
        ensures weight { OnOk result (weight_of self.new ≤ weight_of self.old + length text.now + 1) }
        ensures setup { self.new.setup ≡ self.old.setup }
    {
        if self.none {
            return Ok(());
        }
        let found = read(alloc, text)?;
        match found {
            Some(entry) => {
                let place = self.entries.len() as u64;
                self.entries.push(Stood { place, entry })?;
                Ok(())
            }
            None => {
                self.none = true;
                Ok(())
            }
        }
    }

    // A line of the trace; behind one that is refused, or that ends the epoch, no more is looked at.
    fn take_line(&mut self, alloc: Global, text: &[u8]) -> Result<(), NoMemory>
        requires few { self.old.lines + vec_len self.old.kept + 1 < 2 ^ 40 }
        requires unopened { self.old.in_report ≡ false }
        requires other { bytes_eq text.now marker ≡ false }
        requires hears { (known : Behind) × (piece : List Text) × HearsPiece self.old known piece }
        ensures hears { (known : Behind) (piece : List Text) → HearsPiece self.old known piece
            → OnOk result (HearsPiece self.new known (piece ++ text.now ∷ [])) }
        ensures weight { OnOk result (weight_of self.new ≤ weight_of self.old + length text.now + 1) }
        ensures setup { self.new.setup ≡ self.old.setup }
    {
        if self.stopped {
            return Ok(());
        }
        if self.ended {
            self.over = true;
            return Ok(());
        }
        let number = self.lines + self.kept.len() as u64 + 1;
        match read_line_in(&mut self.line, text, number, self.least) {
            Ok(()) => self.add(alloc, text.len() as u64),
            Err(why) => self.stop(alloc, why),
        }
    }

    // The line that was read, whose text is so long.
    fn add(&mut self, alloc: Global, len: u64) -> Result<(), NoMemory>
        requires few { self.old.lines + vec_len self.old.kept + 1 < 2 ^ 40 }
        requires slices { IsSetup self.old.setup }
        requires len { len ≡ length (line_text self.old.line) }
        requires late { self.old.least ≤ self.old.line.moment }
        requires unended { self.old.ended ≡ false }
        requires takes { (known : Behind) × (lines : List Line) × TakesLines self.old known lines None }
        ensures takes { (known : Behind) (lines : List Line) → TakesLines self.old known lines None
            → OnOk result (TakesLines self.new known (lines ++ self.old.line ∷ []) None) }
        ensures least { OnOk result (self.new.least ≡ self.old.line.moment) }
        ensures stopped { OnOk result (self.new.stopped ≡ self.old.stopped) }
        ensures more { OnOk result (vec_len self.new.kept ≡ vec_len self.old.kept + 1) }
        ensures rest { LeavesAs self.old self.new }
    {
        let meant = decide_line(
            alloc,
            self.setup.slices,
            &mut self.book,
            &mut self.subscribers,
            &self.line,
        )?;
        let kept = keep(alloc, &mut self.octets, meant)?;
        let before = self.kept.len() as u64;
        self.kept.push(kept)?;
        self.least = moment_of(&self.line);
        if ends_epoch(&self.line, len, before, self.open_octets) {
            self.ended = true;
            Ok(())
        } else {
            self.open_octets += len;
            Ok(())
        }
    }

    // The trace stops at a line that is refused, unless memory ran out: its note stands behind the lines.
    fn stop(&mut self, alloc: Global, why: LineBad) -> Result<(), NoMemory>
        requires few { self.old.lines + vec_len self.old.kept + 1 < 2 ^ 40 }
        requires unended { self.old.ended ≡ false }
        ensures takes { (known : Behind) (number : ℕ) (lines : List Line) → TakesLines self.old known lines None
            → OnOk result (TakesLines self.new known lines (Some (record { number = number; why = why }))) }
        ensures other { OnOk result (why ≡ LineBad.NoMemory → ⊥) }
        ensures stopped { OnOk result (self.new.stopped ≡ true) }
        ensures more { OnOk result ((vec_len self.new.kept ≡ vec_len self.old.kept + 1)
            × (self.new.ended ≡ self.old.ended)) }
        ensures rest { LeavesAs self.old self.new }
    {
        match why {
            LineBad::NoMemory => Err(NoMemory),
            LineBad::Field | LineBad::Number | LineBad::Kind | LineBad::Hex | LineBad::MomentBack =>
                {
                    let note = bad_note(alloc, why)?;
                    self.kept.push(KeptMeaning::Note(note))?;
                    self.stopped = true;
                    Ok(())
                }
        }
    }

    /// The end of the piece, which may be the last one: what refutes it. A lawful one is let go, and the next begins.
    pub(crate) fn end(&mut self, alloc: Global, last: bool) -> Result<Option<Refutation>, NoMemory>
        requires hears { (known : Behind) × (piece : List Text) × HearsPiece self.old known piece }

        // A lawful piece is let go, and the next one begins behind it.
        ensures lawful { (known : Behind) (piece : List Text) → HearsPiece self.old known piece
            → IfOk result (λ found. IfNone found (IsLetGo last (setup_of self.old.setup) known piece self.new)) }
        ensures refuted { (known : Behind) (piece : List Text) → HearsPiece self.old known piece
            → IfOk result (λ found. IfSome found (λ (own : Refutation).
            RefutesNext (setup_of self.old.setup) known last piece (number_of own.sentence) own.place)) }
        ensures weight { (known : Behind) (piece : List Text) → HearsPiece self.old known piece → last ≡ false
            → IfOk result (λ found. IfNone found (weight_of self.new ≤ weight_of self.old)) }
        ensures setup { self.new.setup ≡ self.old.setup }
    {
        let misfit = self.misfit(alloc, last)?;
        if misfit.is_some() {
            return Ok(misfit);
        }
        let found = piece_broken(
            alloc,
            &self.setup,
            &mut self.subscribers,
            self.lines,
            self.kept.as_slice(),
            self.octets.as_slice(),
            self.entries.as_slice(),
            last,
        )?;
        if found.is_some() {
            return Ok(found);
        }
        self.go_on();
        Ok(None)
    }

    // What refutes the piece before its entries are looked at: a line of the report is none, or its lines aren't those
    // of one epoch.
    fn misfit(&self, alloc: Global, last: bool) -> Result<Option<Refutation>, NoMemory>
        requires few { self.now.lines + vec_len self.now.kept < 2 ^ 40 }
        ensures { (known : Behind) (piece : List Text) → HearsPiece self.now known piece
            → IfOk result (MisfitOrNone (setup_of self.now.setup) known last piece self.now) }
    {
        if self.none {
            let place = at_report(alloc, self.entries.len() as u64 + 1)?;
            return Ok(Some(Refutation {
                sentence: Sentence::Entries,
                place,
            }));
        }
        if self.over {
            let entry = dash(alloc)?;
            let due = word(alloc, MARKER)?;
            let more = self.behind_lines(entry, due);
            return Ok(Some(more));
        }
        if last {
            return Ok(None);
        }
        if self.ended {
            return Ok(None);
        }
        let turned = word(alloc, TURN)?;
        let none = dash(alloc)?;
        let early = self.behind_lines(turned, none);
        Ok(Some(early))
    }

    // Behind the lines of the piece something else was due.
    fn behind_lines(&self, entry: Octets, due: Octets) -> Refutation
        requires few { self.now.lines + vec_len self.now.kept < 2 ^ 40 }
        ensures sentence { result.sentence ≡ Sentence.Answers }
        ensures place { result.place ≡ line_behind (self.now.lines + vec_len self.now.kept + 1) entry due }
    {
        Refutation {
            sentence: Sentence::Answers,
            place: Break {
                line: Some(self.lines + self.kept.len() as u64 + 1),
                slot: None,
                entry,
                due,
            },
        }
    }

    // The piece is let go.
    fn go_on(&mut self)
        requires few { self.old.lines + vec_len self.old.kept < 2 ^ 40 }
        requires few_epochs { self.old.epochs ≤ self.old.lines }
        ensures epochs { self.new.epochs ≡ self.old.epochs + 1 }
        ensures lines { self.new.lines ≡ self.old.lines + vec_len self.old.kept }
        ensures fresh { IsFresh self.new }
        ensures rest { KeepsRest self.old self.new }
    {
        self.epochs += 1;
        self.lines += self.kept.len() as u64;
        self.in_report = false;
        self.kept.clear();
        self.octets.clear();
        self.open_octets = 0;
        self.ended = false;
        self.over = false;
        self.stopped = false;
        self.entries.clear();
        self.none = false;
    }
}
