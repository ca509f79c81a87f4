//! The entries of a report, taken one by one: their texts, and to which epoch of the trace each belongs.

ghost use Rattle.std.specs.Prelude.{◌≡◌, ℕ, ◌+◌, ◌*◌, ◌<◌, ◌≤◌, ◌^◌, ◌++◌, ◌∷◌, [], All, List, drop, find};
ghost use Rattle.std.specs.Prelude.{◌≢◌, if◌then◌else◌, length, map, false, None, Some, IfOk, OnOk};
ghost use Rattle.demux.specs.Trace.{Meaning};
ghost use Rattle.report_lines.specs.Ranges.{IsEntry};
ghost use Rattle.report_lines.specs.Text.{entry_text};
ghost use Rattle.report_lines.specs.declared.entry.Entry.{Entry};
ghost use Rattle.report_lines.specs.declared.entry.Entry.TheVariants as of_entry;
ghost use Rattle.audit_core.specs.AnswerPlaces.{is_outside};
ghost use Rattle.audit_core.specs.Belonging.{AreThose, HasTaken, IsRunOf, ends_from, is_outside_entry, own_epoch};
ghost use Rattle.audit_core.specs.Belonging.{AreRunsFrom, epochs_of, placed_in, places_of, slice_of};
ghost use Rattle.audit_core.specs.Matched.{entries_stood, places_stood};
ghost use Rattle.audit_core.specs.Entries.{all_lines, epoch_at, epoch_behind, line_of};
ghost use Rattle.audit_core.specs.Packed.{KeepsFrom};
ghost use Rattle.audit_core.specs.Places.{first_of};
ghost use Rattle.audit_core.specs.Said.{AreEntries};
ghost use Rattle.audit_core.specs.Sharing.{shares, under};
ghost use Rattle.pc_outside.specs.Texts.{Text as Said};
ghost use Rattle.audit_core.specs.declared.report.Stood.{Stood};

use crate::NoMemory;
use crate::packed::Packed;
use crate::sharing::{Keyed, shares_of};
use report_lines::{ChargeEntry, Entry, LineEntry, read};
use std::alloc::Global;
use text_fields::Text;

/// Entries that stand behind one another and belong to one epoch: how many stand before the first of them, where its
/// text is, and how many they are.
#[derive(Clone, Copy)]
pub struct Run {
    first: u64,
    from: usize,
    count: u64,
}

/// An entry, and how many stand before it.
#[derive(Drop)]
pub struct Stood {
    pub place: u64,
    pub entry: Entry,
}

/// The entries of a report so far, of a trace whose epochs end behind so many lines. The entry of a line belongs to
/// that line's epoch, an effect or charging record to the one of the last entry of a line before it (to the first where
/// there is none), and open counters behind all epochs.
#[derive(Drop)]
pub struct Report {
    texts: Packed,
    runs: Vec<Keyed<Run>>,
    pub(crate) count: u64,
    epoch: usize,
    /// Where the first entry of a line stands that there isn't.
    outside: Option<usize>,
    /// Whether a line of the report is no entry. Then no more are kept.
    pub(crate) none: bool,
}

/// The number of the line that an entry answers.
pub(crate) fn line_of(entry: &LineEntry) -> u64
    ensures { result ≡ line_of entry.now }
{
    match entry {
        LineEntry::N(noted) => noted.line,
        LineEntry::C(answered) => answered.line,
        LineEntry::P(judged) => judged.line,
        LineEntry::F(refused) => refused.line,
    }
}

// The epoch of the line of a number: how many epochs end before it.
fn epoch_at(ends: &[usize], line: u64) -> usize
    ensures { (made : List (List Meaning)) → ends.now ≡ ends_from 0 made → result ≡ epoch_at made line }
{
    ends.partition_point(|end| (*end as u64) < line)
}

fn is_outside(ends: &[usize], entry: &LineEntry) -> bool
    ensures { (made : List (List Meaning)) → ends.now ≡ ends_from 0 made
        → result ≡ is_outside (length (all_lines made)) entry.now }
{
    let line = line_of(entry);
    let epoch = epoch_at(ends, line);
    line == 0 || epoch == ends.len()
}

impl Report {
    /// No entries.
    pub(crate) fn new(alloc: Global) -> Report
        ensures taken { (made : List (List Meaning)) → HasTaken made [] result }
        ensures count { result.count ≡ 0 }
    {
        Report {
            texts: Packed::new(alloc),
            runs: Vec::new(alloc),
            count: 0,
            epoch: 0,
            outside: None,
            none: false,
        }
    }

    /// Takes the next line of the report; behind one that is no entry no more is looked at.
    pub(crate) fn take(
        &mut self,
        alloc: Global,
        ends: &[usize],
        text: &[u8],
    ) -> Result<(), NoMemory>
        requires short { length text.now < 2 ^ 24 }
        requires few { self.old.count + 1 < 2 ^ 40 }
        requires taken { (made : List (List Meaning)) × (texts : List Said) × HasTaken made texts self.old }
        ensures taken { (made : List (List Meaning)) (texts : List Said) → ends.now ≡ ends_from 0 made
            → HasTaken made texts self.old → OnOk result (HasTaken made (texts ++ text.now ∷ []) self.new) }
        ensures entries { OnOk result (2 * self.new.count ≤ 2 * self.old.count + length text.now + 1) }
    {
        if self.none {
            return Ok(());
        }
        let found = read(alloc, text)?;
        match found {
            Some(entry) => {
                let epoch = self.epoch_of(ends, &entry);
                self.add(epoch, text)
            }
            None => {
                self.none = true;
                Ok(())
            }
        }
    }

    // The epoch to which the next entry belongs.
    fn epoch_of(&mut self, ends: &[usize], entry: &Entry) -> usize
        ensures epoch { (made : List (List Meaning)) → ends.now ≡ ends_from 0 made
            → result ≡ own_epoch made self.old.epoch entry.now }
        ensures goes_on { (made : List (List Meaning)) → ends.now ≡ ends_from 0 made
            → self.new.epoch ≡ epoch_behind made self.old.epoch entry.now }
        ensures texts { self.new.texts ≡ self.old.texts }
        ensures runs { self.new.runs ≡ self.old.runs }
        ensures count { self.new.count ≡ self.old.count }
        ensures none { self.new.none ≡ self.old.none }
        ensures kept { self.old.outside ≢ None → self.new.outside ≡ self.old.outside }
        ensures outside { (made : List (List Meaning)) → ends.now ≡ ends_from 0 made → self.old.outside ≡ None
            → self.new.outside ≡ (if is_outside_entry (length (all_lines made)) entry.now
            then Some (length self.old.texts) else None) }
    {
        match entry {
            Entry::Line(of_line) => {
                self.note_outside(ends, of_line);
                self.epoch = epoch_at(ends, line_of(of_line));
                self.epoch
            }
            Entry::Effect(_) => self.epoch,
            Entry::Charge(charge) => self.charged(ends, charge),
        }
    }

    // Open counters stand behind all epochs.
    fn charged(&self, ends: &[usize], charge: &ChargeEntry) -> usize
        ensures { (made : List (List Meaning)) → ends.now ≡ ends_from 0 made
            → result ≡ own_epoch made self.now.epoch (of_entry.Charge charge.now) }
    {
        match charge {
            ChargeEntry::R { .. } => self.epoch,
            ChargeEntry::O { .. } => ends.len(),
        }
    }

    // Whether the next entry, which stands behind all, is the first of a line that there isn't.
    fn note_outside(&mut self, ends: &[usize], entry: &LineEntry)
        ensures rest { self.new ≡ record self.old { outside = self.new.outside } }
        ensures kept { self.old.outside ≢ None → self.new.outside ≡ self.old.outside }
        ensures outside { (made : List (List Meaning)) → ends.now ≡ ends_from 0 made → self.old.outside ≡ None
            → self.new.outside ≡ (if is_outside (length (all_lines made)) entry.now
            then Some (length self.old.texts) else None) }
    {
        if self.outside.is_none() && is_outside(ends, entry) {
            self.outside = Some(self.texts.end());
        }
    }

    // One entry more of an epoch.
    fn add(&mut self, epoch: usize, text: &[u8]) -> Result<(), NoMemory>
        requires short { length text.now < 2 ^ 24 }
        requires few { self.old.count + 1 < 2 ^ 40 }
        requires runs { (entries : List Entry) × (length entries < 2 ^ 40)
            × All (λ run. IsRunOf self.old.texts entries run.item) self.old.runs.items }
        ensures texts { (at : ℕ) (texts : List Said) → KeepsFrom self.old.texts at texts
            → OnOk result (KeepsFrom self.new.texts at (texts ++ text.now ∷ [])) }
        ensures count { OnOk result (self.new.count ≡ self.old.count + 1) }
        ensures follow { AreRunsFrom 0 self.old.runs.items
            → length (epochs_of self.old.runs.items) ≡ self.old.count
            → OnOk result (AreRunsFrom 0 self.new.runs.items) }
        ensures epochs { OnOk result (epochs_of self.new.runs.items ≡ epochs_of self.old.runs.items ++ epoch ∷ []) }
        ensures each { (entries : List Entry) (entry : Entry) → text.now ≡ entry_text entry
            → length entries ≡ self.old.count
            → All (λ run. IsRunOf self.old.texts entries run.item) self.old.runs.items
            → OnOk result (All (λ run. IsRunOf self.new.texts (entries ++ entry ∷ []) run.item) self.new.runs.items) }
        ensures goes_on { self.new.epoch ≡ self.old.epoch }
        ensures outside { self.new.outside ≡ self.old.outside }
        ensures none { self.new.none ≡ self.old.none }
    {
        let from = self.texts.end();
        self.texts.push(text)?;
        let first = self.count;
        self.count += 1;
        let key = epoch as u64;
        let runs = self.runs.len();
        if runs > 0 && self.runs[runs - 1].key == key {
            self.runs[runs - 1].item.count += 1;
            return Ok(());
        }
        let item = Run {
            first,
            from,
            count: 1,
        };
        self.runs.push(Keyed { key, item })?;
        Ok(())
    }

    /// The runs of each epoch, of so many, and of what stands behind them.
    pub(crate) fn by_epoch(&self, alloc: Global, epochs: usize) -> Result<Vec<Vec<Run>>, NoMemory>
        requires { epochs + 1 < 2 ^ 64 }
        ensures { IfOk result (λ all. map (λ v. v.items) all.items ≡ shares (epochs + 1) self.now.runs.items) }
    {
        shares_of(alloc, epochs + 1, self.runs.as_slice())
    }

    /// The entries of some runs.
    pub(crate) fn entries_of(&self, alloc: Global, runs: &[Run]) -> Result<Vec<Stood>, NoMemory>
        requires { (made : List (List Meaning)) × (texts : List Said) × (epoch : ℕ) × HasTaken made texts self.now
            × (self.now.none ≡ false) × (runs.now ≡ under epoch self.now.runs.items) }
        ensures { (made : List (List Meaning)) (texts : List Said) (entries : List Entry) (epoch : ℕ)
            → HasTaken made texts self.now → AreEntries texts entries → runs.now ≡ under epoch self.now.runs.items
            → IfOk result (λ all. AreThose all.items (placed_in made epoch entries)) }
    {
        let mut all = Vec::new(alloc);
        let mut text = Text::new(alloc);
        for run in runs {
            self.read_run(alloc, run, &mut text, &mut all)?;
        }
        Ok(all)
    }

    // Those of a run.
    fn read_run(
        &self,
        alloc: Global,
        run: &Run,
        text: &mut Text,
        all: &mut Vec<Stood>,
    ) -> Result<(), NoMemory>
        requires { (entries : List Entry) × (length entries < 2 ^ 40) × (All IsEntry entries)
            × IsRunOf self.now.texts entries run.now }
        ensures entries { (entries : List Entry) → All IsEntry entries → IsRunOf self.now.texts entries run.now
            → OnOk result (entries_stood all.new.items ≡ entries_stood all.old.items ++ slice_of entries run.now) }
        ensures places { OnOk result (places_stood all.new.items ≡ places_stood all.old.items ++ places_of run.now) }
    {
        let mut at = run.from;
        for i in 0..run.count {
            at = self.texts.read(at, text)?;
            let entry = known(alloc, text.as_slice())?;
            all.push(Stood {
                place: run.first + i,
                entry,
            })?;
        }
        Ok(())
    }

    /// The entry behind so many, if there is one.
    pub(crate) fn at(&self, alloc: Global, place: u64) -> Result<Option<Entry>, NoMemory>
        requires { (made : List (List Meaning)) × (texts : List Said) × HasTaken made texts self.now
            × (self.now.none ≡ false) }
        ensures { (made : List (List Meaning)) (texts : List Said) (entries : List Entry)
            → HasTaken made texts self.now → AreEntries texts entries
            → IfOk result (λ entry. entry ≡ first_of (drop place entries)) }
    {
        for k in 0..self.runs.len() {
            let own = self.runs[k].item;
            if own.first <= place && place - own.first < own.count {
                return Ok(Some(self.behind(alloc, own.from, place - own.first)?));
            }
        }
        Ok(None)
    }

    // The entry behind so many from a place on.
    fn behind(&self, alloc: Global, from: usize, count: u64) -> Result<Entry, NoMemory>
        requires { (own : List Entry) × (All IsEntry own) × (count < length own)
            × KeepsFrom self.now.texts from (map entry_text own) }
        ensures { (own : List Entry) → All IsEntry own → count < length own
            → KeepsFrom self.now.texts from (map entry_text own)
            → IfOk result (λ entry. Some entry ≡ first_of (drop count own)) }
    {
        let mut at = from;
        for i in 0..count {
            let _ = i;
            at = self.texts.behind(at);
        }
        self.entry_at(alloc, at)
    }

    fn entry_at(&self, alloc: Global, at: usize) -> Result<Entry, NoMemory>
        requires { (own : Entry) × (later : List Said) × IsEntry own
            × KeepsFrom self.now.texts at (entry_text own ∷ later) }
        ensures { (own : Entry) (later : List Said) → IsEntry own
            → KeepsFrom self.now.texts at (entry_text own ∷ later) → IfOk result (λ entry. entry ≡ own) }
    {
        let mut text = Text::new(alloc);
        let _end = self.texts.read(at, &mut text)?;
        known(alloc, text.as_slice())
    }

    /// The first entry of a line that there isn't.
    pub(crate) fn outside(&self, alloc: Global) -> Result<Option<Entry>, NoMemory>
        requires { (made : List (List Meaning)) × (texts : List Said) × HasTaken made texts self.now
            × (self.now.none ≡ false) }
        ensures { (made : List (List Meaning)) (texts : List Said) (entries : List Entry)
            → HasTaken made texts self.now → AreEntries texts entries
            → IfOk result (λ found. found ≡ find (is_outside_entry (length (all_lines made))) entries) }
    {
        match self.outside {
            Some(at) => Ok(Some(self.entry_at(alloc, at)?)),
            None => Ok(None),
        }
    }
}

// The entry of a text that is one.
fn known(alloc: Global, text: &[u8]) -> Result<Entry, NoMemory>
    requires { (own : Entry) × IsEntry own × (text.now ≡ entry_text own) }
    ensures { (own : Entry) → IsEntry own → text.now ≡ entry_text own → IfOk result (λ entry. entry ≡ own) }
{
    match read(alloc, text)? {
        Some(entry) => Ok(entry),
        None => unreachable!(),
    }
}
