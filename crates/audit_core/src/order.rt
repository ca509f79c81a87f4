//! The sixth sentence: the first entry of a report that doesn't stand in its order.

ghost use Rattle.std.specs.Prelude.{◌≡◌, ◌↔◌, ◌≤◌, ◌++◌, List, length, map, None, Some};
ghost use Rattle.std.specs.Prelude.{IfNone, IfOk, IfSome, IsTrue};
ghost use Rattle.demux.specs.Trace.{Meaning};
ghost use Rattle.report_lines.specs.declared.entry.Entry.{Entry};
ghost use Rattle.report_lines.specs.declared.entry.LineEntry.{LineEntry};
ghost use Rattle.audit_core.specs.Belonging.{IsHeld};
ghost use Rattle.audit_core.specs.Dues.{AreStood, DiffersAt, IsOther, StandsSo, effected, effects_lent};
ghost use Rattle.audit_core.specs.Dues.{entries_due, entry_due};
ghost use Rattle.audit_core.specs.Meant.{lines_of};
ghost use Rattle.audit_core.specs.Telling.{said_of};
ghost use Rattle.audit_core.specs.Why.{OrderBreak};

use crate::NoMemory;
use crate::due_entries::{EffectDue, effect_due_said, told_effect, told_said};
use crate::report::{Report, Stood};
use crate::telling::{Break, SaidEntry, charge_said, line_said, tells};
use crate::told_line::ToldLine;
use report_lines::{ChargeEntry, CommandReply, Entry, Judgement, LineEntry, Note, Refusal};
use std::alloc::Global;

/// An entry as it has to be.
#[derive(Clone, Copy)]
pub(crate) enum Due<'m> {
    Line(&'m LineEntry),
    Effect(&'m EffectDue<'m>),
    Charge(&'m ChargeEntry),
}

fn is_note(own: &Note, told: &LineEntry) -> bool
    ensures { IsTrue result ↔ (told.now ≡ LineEntry.N own.now) }
{
    match told {
        LineEntry::N(told) => told == own,
        LineEntry::C(_) | LineEntry::P(_) | LineEntry::F(_) => false,
    }
}

fn is_answer(own: &CommandReply, told: &LineEntry) -> bool
    ensures { IsTrue result ↔ (told.now ≡ LineEntry.C own.now) }
{
    match told {
        LineEntry::C(told) => told == own,
        LineEntry::N(_) | LineEntry::P(_) | LineEntry::F(_) => false,
    }
}

fn same_numbers(own: &Judgement, told: &Judgement) -> bool
    ensures { IsTrue result ↔ ((told.now.line ≡ own.now.line) × (told.now.slot ≡ own.now.slot)
        × (told.now.number ≡ own.now.number) × (told.now.commands ≡ own.now.commands)) }
{
    told.line == own.line
        && told.slot == own.slot
        && told.number == own.number
        && told.commands == own.commands
}

fn same_verdict(own: &Judgement, told: &Judgement) -> bool
    ensures { IsTrue result ↔ (told.now.verdict ≡ own.now.verdict) }
{
    told.verdict == own.verdict
}

fn same_place(own: &Judgement, told: &Judgement) -> bool
    ensures { IsTrue result ↔ ((told.now.place ≡ own.now.place) × (told.now.parked ≡ own.now.parked)) }
{
    told.place == own.place && told.parked == own.parked
}

fn same_judgement(own: &Judgement, told: &Judgement) -> bool
    ensures { IsTrue result ↔ (told.now ≡ own.now) }
{
    same_numbers(own, told) && same_verdict(own, told) && same_place(own, told)
}

fn is_judgement(own: &Judgement, told: &LineEntry) -> bool
    ensures { IsTrue result ↔ (told.now ≡ LineEntry.P own.now) }
{
    match told {
        LineEntry::P(told) => same_judgement(own, told),
        LineEntry::N(_) | LineEntry::C(_) | LineEntry::F(_) => false,
    }
}

fn is_refusal(own: &Refusal, told: &LineEntry) -> bool
    ensures { IsTrue result ↔ (told.now ≡ LineEntry.F own.now) }
{
    match told {
        LineEntry::F(told) => told == own,
        LineEntry::N(_) | LineEntry::C(_) | LineEntry::P(_) => false,
    }
}

fn same_line(own: &LineEntry, told: &LineEntry) -> bool
    ensures { IsTrue result ↔ (told.now ≡ own.now) }
{
    match own {
        LineEntry::N(own) => is_note(own, told),
        LineEntry::C(own) => is_answer(own, told),
        LineEntry::P(own) => is_judgement(own, told),
        LineEntry::F(own) => is_refusal(own, told),
    }
}

fn is_line(own: &LineEntry, entry: &Entry) -> bool
    ensures { IsTrue result ↔ (entry.now ≡ Entry.Line own.now) }
{
    match entry {
        Entry::Line(told) => same_line(own, told),
        Entry::Effect(_) => false,
        Entry::Charge(_) => false,
    }
}

fn is_effect(own: &EffectDue<'_>, entry: &Entry) -> bool
    ensures { IsTrue result ↔ (entry.now ≡ Entry.Effect (effected own.now)) }
{
    match entry {
        Entry::Line(_) => false,
        Entry::Effect(told) => told_effect(own, told),
        Entry::Charge(_) => false,
    }
}

fn is_charge(own: &ChargeEntry, entry: &Entry) -> bool
    ensures { IsTrue result ↔ (entry.now ≡ Entry.Charge own.now) }
{
    match entry {
        Entry::Line(_) => false,
        Entry::Effect(_) => false,
        Entry::Charge(told) => told == own,
    }
}

// Whether an entry is the one that has to be.
fn is_entry(own: &Due<'_>, entry: &Entry) -> bool
    ensures { IsTrue result ↔ (entry.now ≡ entry_due own.now) }
{
    match own {
        Due::Line(own) => is_line(own, entry),
        Due::Effect(own) => is_effect(own, entry),
        Due::Charge(own) => is_charge(own, entry),
    }
}

pub(crate) fn entry_said(alloc: Global, entry: &Entry) -> Result<SaidEntry, NoMemory>
    ensures { IfOk result (λ said. said ≡ said_of entry.now) }
{
    match entry {
        Entry::Line(entry) => line_said(alloc, entry),
        Entry::Effect(entry) => told_said(alloc, entry),
        Entry::Charge(entry) => charge_said(alloc, entry),
    }
}

fn due_said(alloc: Global, due: &Due<'_>) -> Result<SaidEntry, NoMemory>
    ensures { IfOk result (λ said. said ≡ said_of (entry_due due.now)) }
{
    match due {
        Due::Line(entry) => line_said(alloc, entry),
        Due::Effect(own) => effect_due_said(alloc, own),
        Due::Charge(charge) => charge_said(alloc, charge),
    }
}

// What is told of an entry that stands, where it isn't the one that is due.
pub(crate) fn entry_differs(
    alloc: Global,
    entry: &Entry,
    due: &Due<'_>,
) -> Result<Option<Break>, NoMemory>
    ensures some { IfOk result (λ found. IfSome found (IsOther (Some entry.now) (entry_due due.now))) }
    ensures none { IfOk result (λ found. IfNone found (entry.now ≡ entry_due due.now)) }
{
    if is_entry(due, entry) {
        return Ok(None);
    }
    let stands = entry_said(alloc, entry)?;
    let asked = due_said(alloc, due)?;
    Ok(Some(tells(alloc, Some(stands), Some(asked))?))
}

// What is told where no entry stands, and one is due.
pub(crate) fn entry_missing(alloc: Global, due: &Due<'_>) -> Result<Break, NoMemory>
    ensures { IfOk result (IsOther None (entry_due due.now)) }
{
    let asked = due_said(alloc, due)?;
    tells(alloc, None, Some(asked))
}

// How many of the entries that were read stand before a place, where so many do before an earlier one.
fn passed_before(read: &[Stood], passed: usize, place: u64) -> usize
    ensures { result ≤ length read.now }
{
    for at in passed..read.len() {
        if read[at].place >= place {
            return at;
        }
    }
    read.len()
}

/// The entries of a report, held against those due, one after another; some of them were read already.
#[derive(Drop)]
pub(crate) struct EntryOrder<'a> {
    report: &'a Report,
    read: &'a [Stood],
    /// How many of those that were read stand before the next place.
    passed: usize,
    pub place: u64,
    pub broken: Option<Break>,
}

impl<'a> EntryOrder<'a> {
    ghost use Rattle.std.specs.Prelude.{◌≡◌, ◌∷◌, ◌++◌, [], List, drop, map};
    ghost use Rattle.std.specs.Prelude.{IfNone, IfOk, IfSome, OnOk, Some};
    ghost use Rattle.demux.specs.Trace.{Meaning};
    ghost use Rattle.lawful_run.specs.LinesTold.{LineTold};
    ghost use Rattle.report_lines.specs.declared.entry.Entry.{Entry};
    ghost use Rattle.audit_core.specs.Belonging.{IsHeld};
    ghost use Rattle.audit_core.specs.Dues.{AreStood, Asks, IsOther, StandsSo, effects_lent, entry_due};
    ghost use Rattle.audit_core.specs.Meant.{lines_of};
    ghost use Rattle.audit_core.specs.Places.{first_of};
    ghost use Rattle.audit_core.specs.Why.{OrderBreak};

    /// Those before this place were held against theirs.
    pub(crate) fn new(report: &'a Report, read: &'a [Stood], place: u64) -> EntryOrder<'a>
        ensures { (made : List (List Meaning)) (entries asked : List Entry) → IsHeld made entries report.now
            → AreStood entries read.now → StandsSo entries asked place → Asks made entries asked result }
    {
        EntryOrder {
            report,
            read,
            passed: 0,
            place,
            broken: None,
        }
    }

    // The entry at the place, if it was read.
    fn read_there(&self) -> Option<&'a Entry>
        ensures { (entries : List Entry) → AreStood entries self.now.read.now
            → IfSome result (λ entry. first_of (drop self.now.place entries) ≡ Some entry.now) }
    {
        let read = self.read;
        if self.passed >= read.len() {
            return None;
        }
        let stood = &read[self.passed];
        if stood.place == self.place {
            Some(&stood.entry)
        } else {
            None
        }
    }

    // What is told of the entry at the place, or that there is none, where it isn't the one that is due.
    fn differs(&self, alloc: Global, due: &Due<'_>) -> Result<Option<Break>, NoMemory>
        requires { (made : List (List Meaning)) × (entries : List Entry) × IsHeld made entries self.now.report.now
            × AreStood entries self.now.read.now }
        ensures some { (made : List (List Meaning)) (entries : List Entry) → IsHeld made entries self.now.report.now
            → AreStood entries self.now.read.now
            → IfOk result (λ found. IfSome found (IsOther (first_of (drop self.now.place entries))
            (entry_due due.now))) }
        ensures none { (made : List (List Meaning)) (entries : List Entry) → IsHeld made entries self.now.report.now
            → AreStood entries self.now.read.now
            → IfOk result (λ found. IfNone found
            (first_of (drop self.now.place entries) ≡ Some (entry_due due.now))) }
    {
        match self.read_there() {
            Some(entry) => entry_differs(alloc, entry, due),
            None => self.told_differs(alloc, due),
        }
    }

    // The same where it wasn't read.
    fn told_differs(&self, alloc: Global, due: &Due<'_>) -> Result<Option<Break>, NoMemory>
        requires { (made : List (List Meaning)) × (entries : List Entry) × IsHeld made entries self.now.report.now }
        ensures some { (made : List (List Meaning)) (entries : List Entry) → IsHeld made entries self.now.report.now
            → IfOk result (λ found. IfSome found (IsOther (first_of (drop self.now.place entries))
            (entry_due due.now))) }
        ensures none { (made : List (List Meaning)) (entries : List Entry) → IsHeld made entries self.now.report.now
            → IfOk result (λ found. IfNone found
            (first_of (drop self.now.place entries) ≡ Some (entry_due due.now))) }
    {
        let told = self.report.at(alloc, self.place)?;
        match told {
            Some(entry) => entry_differs(alloc, &entry, due),
            None => Ok(Some(entry_missing(alloc, due)?)),
        }
    }

    /// The next entry that is due.
    pub(crate) fn ask(&mut self, alloc: Global, due: &Due<'_>) -> Result<(), NoMemory>
        requires { (made : List (List Meaning)) × (entries asked : List Entry) × Asks made entries asked self.old }
        ensures { (made : List (List Meaning)) (entries asked : List Entry) → Asks made entries asked self.old
            → OnOk result (Asks made entries (asked ++ entry_due due.now ∷ []) self.new) }
    {
        if self.broken.is_some() {
            return Ok(());
        }
        self.passed = passed_before(self.read, self.passed, self.place);
        let found = self.differs(alloc, due)?;
        self.broken = found;
        self.place += 1;
        Ok(())
    }

    // The entries of lines, of effects, of charging records or open counters, one after another.
    fn ask_lines(&mut self, alloc: Global, lines: &[ToldLine<'_>]) -> Result<(), NoMemory>
        requires { (made : List (List Meaning)) × (entries asked : List Entry) × Asks made entries asked self.old }
        ensures { (made : List (List Meaning)) (entries asked : List Entry) → Asks made entries asked self.old
            → OnOk result (Asks made entries
            (asked ++ map Entry.Line (map (λ (told : LineTold). told.entry) (lines_of lines.now))) self.new) }
    {
        for told in lines {
            self.ask(alloc, &Due::Line(told.entry))?;
        }
        Ok(())
    }

    fn ask_effects(&mut self, alloc: Global, effects: &[EffectDue<'_>]) -> Result<(), NoMemory>
        requires { (made : List (List Meaning)) × (entries asked : List Entry) × Asks made entries asked self.old }
        ensures { (made : List (List Meaning)) (entries asked : List Entry) → Asks made entries asked self.old
            → OnOk result (Asks made entries (asked ++ map Entry.Effect (effects_lent effects.now)) self.new) }
    {
        for effect in effects {
            self.ask(alloc, &Due::Effect(effect))?;
        }
        Ok(())
    }

    fn ask_charges(&mut self, alloc: Global, charges: &[ChargeEntry]) -> Result<(), NoMemory>
        requires { (made : List (List Meaning)) × (entries asked : List Entry) × Asks made entries asked self.old }
        ensures { (made : List (List Meaning)) (entries asked : List Entry) → Asks made entries asked self.old
            → OnOk result (Asks made entries (asked ++ map Entry.Charge charges.now) self.new) }
    {
        for charge in charges {
            self.ask(alloc, &Due::Charge(charge))?;
        }
        Ok(())
    }

    // No more are due.
    fn end(&mut self, alloc: Global) -> Result<(), NoMemory>
        requires { (made : List (List Meaning)) × (entries asked : List Entry) × Asks made entries asked self.old }
        ensures some { (made : List (List Meaning)) (entries asked : List Entry) → Asks made entries asked self.old
            → OnOk result (IfSome self.new.broken (OrderBreak entries asked)) }
        ensures none { (made : List (List Meaning)) (entries asked : List Entry) → Asks made entries asked self.old
            → OnOk result (IfNone self.new.broken (entries ≡ asked)) }
    {
        if self.broken.is_some() {
            return Ok(());
        }
        let told = self.report.at(alloc, self.place)?;
        let Some(entry) = told else {
            return Ok(());
        };
        let said = entry_said(alloc, &entry)?;
        self.broken = Some(tells(alloc, Some(said), None)?);
        Ok(())
    }
}

/// The order of an epoch's entries, from a place on: the place behind them, and the first that isn't the one due.
pub(crate) fn epoch_order(
    alloc: Global,
    report: &Report,
    read: &[Stood],
    place: u64,
    lines: &[ToldLine<'_>],
    effects: &[EffectDue<'_>],
    rows: &[ChargeEntry],
) -> Result<(u64, Option<Break>), NoMemory>
    requires { (made : List (List Meaning)) × (entries asked : List Entry) × IsHeld made entries report.now
        × AreStood entries read.now × StandsSo entries asked place }
    ensures some { (made : List (List Meaning)) (entries asked : List Entry) → IsHeld made entries report.now
        → AreStood entries read.now → StandsSo entries asked place
        → IfOk result (λ told. IfSome told.1 (DiffersAt entries
        (asked ++ entries_due (lines_of lines.now) (effects_lent effects.now) rows.now))) }
    ensures none { (made : List (List Meaning)) (entries asked : List Entry) → IsHeld made entries report.now
        → AreStood entries read.now → StandsSo entries asked place
        → IfOk result (λ told. IfNone told.1 (StandsSo entries
        (asked ++ entries_due (lines_of lines.now) (effects_lent effects.now) rows.now) told.0)) }
{
    let mut order = EntryOrder::new(report, read, place);
    order.ask_lines(alloc, lines)?;
    order.ask_effects(alloc, effects)?;
    order.ask_charges(alloc, rows)?;
    let EntryOrder { place, broken, .. } = order;
    Ok((place, broken))
}

/// The order of all entries, where those before a place stand in theirs: behind it the open counters, and no more.
pub(crate) fn last_order(
    alloc: Global,
    report: &Report,
    read: &[Stood],
    place: u64,
    opens: &[ChargeEntry],
) -> Result<Option<Break>, NoMemory>
    requires { (made : List (List Meaning)) × (entries asked : List Entry) × IsHeld made entries report.now
        × AreStood entries read.now × StandsSo entries asked place }
    ensures some { (made : List (List Meaning)) (entries asked : List Entry) → IsHeld made entries report.now
        → AreStood entries read.now → StandsSo entries asked place
        → IfOk result (λ found. IfSome found (OrderBreak entries (asked ++ map Entry.Charge opens.now))) }
    ensures none { (made : List (List Meaning)) (entries asked : List Entry) → IsHeld made entries report.now
        → AreStood entries read.now → StandsSo entries asked place
        → IfOk result (λ found. IfNone found (entries ≡ asked ++ map Entry.Charge opens.now)) }
{
    let mut order = EntryOrder::new(report, read, place);
    order.ask_charges(alloc, opens)?;
    order.end(alloc)?;
    Ok(order.broken)
}
