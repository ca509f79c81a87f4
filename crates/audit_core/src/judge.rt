//! A report, judged epoch by epoch.

ghost use Rattle.std.specs.Prelude.{◌≡◌, ℕ, ◌<◌, ◌≤◌, ◌++◌, ◌∷◌, ◌↔◌, [], All, List, find, length, vec_len};
ghost use Rattle.std.specs.Prelude.{IfOk, IsTrue, OnOk, Some};
ghost use Rattle.report_lines.specs.declared.entry.Entry.{Entry};
ghost use Rattle.lawful_run.specs.LinesTold.{LineTold};
ghost use Rattle.audit_core.specs.Agreeing.{AreBySlot, slot_effected};
ghost use Rattle.audit_core.specs.Belonging.{IsHeld, is_outside_entry};
ghost use Rattle.audit_core.specs.Dues.{effects_lent};
ghost use Rattle.audit_core.specs.Entries.{all_lines, slot_charged};
ghost use Rattle.audit_core.specs.Judged.{Before, Behind, BelongToNone, Case, ComesNext, Epoch, HasCounted};
ghost use Rattle.audit_core.specs.Judged.{HasFound, HasJudged, HoldsWhole, IsEnd, IsEndedTo, IsEpochOf, IsJudgedTo};
ghost use Rattle.audit_core.specs.Judged.{IsLedTo, IsOutside, IsTold, IsToldNext, Partly, StandsBehind, With};
ghost use Rattle.audit_core.specs.Judged.{asked_of, led_here, offered, told_of};
ghost use Rattle.audit_core.specs.Ranks.{rank_of};
ghost use Rattle.audit_core.specs.Sentences.{made_report};
ghost use Rattle.audit_core.specs.Sharing.{under};

use crate::NoMemory;
use crate::charges::{
    charge_beyond, effect_beyond, effect_broken, effects_told, open_broken, opens_told, row_broken,
    rows_told,
};
use crate::due_entries::{EffectDue, effects_due, rows_due};
use crate::matching::{Matched, match_lines};
use crate::opens::opens_due;
use crate::order::{epoch_order, last_order};
use crate::report::{Report, Run, Stood};
use crate::sentence::{Refutation, Sentence};
use crate::setup::Setup;
use crate::slots::{Played, play};
use crate::telling::{Break, at_line, dash};
use crate::told_line::ToldLine;
use crate::walking::{Walked, walk};
use report_lines::{ChargeEntry, Entry};
use slot_execution::KeptMeaning;
use std::alloc::Global;
use subscriber::Subscriber;

/// What was found of the epochs so far: of the first sentence that is broken its first break. Between two epochs this,
/// and the subscribers at rest, are all that is kept.
#[derive(Drop)]
pub struct Judge {
    setup: Setup,
    /// How many lines there were.
    lines: u64,
    /// How many entries they have to have.
    entries: u64,
    pub(crate) broken: Option<Refutation>,
}

// The break that is known before the first epoch: the first entry of a line that there isn't.
fn first_broken(alloc: Global, outside: &Option<Entry>) -> Result<Option<Refutation>, NoMemory>
    ensures { (count : ℕ) (entries : List Entry) → outside.now ≡ find (is_outside_entry count) entries
        → IfOk result (IsOutside count entries) }
{
    match outside {
        None => Ok(None),
        Some(entry) => outside_broken(alloc, entry),
    }
}

fn outside_broken(alloc: Global, entry: &Entry) -> Result<Option<Refutation>, NoMemory>
    ensures { (count : ℕ) (entries : List Entry) → Some entry.now ≡ find (is_outside_entry count) entries
        → IfOk result (IsOutside count entries) }
{
    match entry {
        Entry::Line(of_line) => {
            let due = dash(alloc)?;
            let place = at_line(alloc, of_line, due)?;
            Ok(Some(Refutation {
                sentence: Sentence::Outside,
                place,
            }))
        }
        Entry::Effect(_) => Ok(None),
        Entry::Charge(_) => Ok(None),
    }
}

impl Judge {
    /// Before the first epoch of a report whose first entry of a line that there isn't is this, if it has one.
    pub(crate) fn new(
        alloc: Global,
        setup: Setup,
        outside: &Option<Entry>,
    ) -> Result<Judge, NoMemory>
        ensures setup { IfOk result (λ judge. judge.setup ≡ setup) }
        ensures begins { (own : Case)
            → outside.now ≡ find (is_outside_entry (length (all_lines own.made))) own.entries
            → IfOk result (HasJudged own [] own.made [] (told_of own)) }
    {
        let broken = first_broken(alloc, outside)?;
        Ok(Judge {
            setup,
            lines: 0,
            entries: 0,
            broken,
        })
    }

    // Whether a break of a sentence would be told, as none that goes before it is broken, nor it itself.
    fn wants(&self, sentence: Sentence) -> bool
        ensures { IsTrue result ↔ (rank_of sentence < asked_of self.now.broken) }
    {
        match &self.broken {
            None => true,
            Some(found) => sentence.goes_before(found.sentence),
        }
    }

    // Something was found of a sentence, or nothing.
    fn offer(&mut self, sentence: Sentence, found: Option<Break>)
        ensures broken { self.new.broken ≡ offered self.old.broken sentence found }
        ensures setup { self.new.setup ≡ self.old.setup }
        ensures lines { self.new.lines ≡ self.old.lines }
        ensures entries { self.new.entries ≡ self.old.entries }
    {
        let Some(place) = found else {
            return;
        };
        if !self.wants(sentence) {
            return;
        }
        self.broken = Some(Refutation { sentence, place });
    }

    /// Whether nothing goes before what was found.
    pub(crate) fn is_over(&self) -> bool
        ensures { IsTrue result ↔ (asked_of self.now.broken ≤ rank_of Sentence.Answers) }
    {
        !self.wants(Sentence::Answers)
    }

    /// One epoch more: its lines, the octets of its packets, and the entries that belong to it. The subscribers do what
    /// the entries tell.
    pub(crate) fn epoch(
        &mut self,
        alloc: Global,
        subscribers: &mut Vec<Subscriber>,
        lines: &[KeptMeaning],
        octets: &[u8],
        report: &Report,
        entries: &[Stood],
    ) -> Result<(), NoMemory>
        requires few { vec_len subscribers.old ≤ 65533 }
        requires next { (own : Case) × (at : Epoch) × ComesNext own at octets.now lines.now report.now entries.now
            subscribers.old.items self.old }

        ensures judged { (own : Case) (at : Epoch)
            → ComesNext own at octets.now lines.now report.now entries.now subscribers.old.items self.old
            → OnOk result (HasJudged own (at.prefix ++ at.now ∷ []) at.left (at.told ++ at.here ∷ []) at.later
            self.new) }
        ensures stands { (own : Case) (at : Epoch)
            → ComesNext own at octets.now lines.now report.now entries.now subscribers.old.items self.old
            → OnOk result (StandsBehind own (at.told ++ at.here ∷ []) at.left subscribers.new.items self.new) }
        ensures setup { self.new.setup ≡ self.old.setup }
        ensures many { vec_len subscribers.new ≡ vec_len subscribers.old }
    {
        let first = self.lines + 1;
        let matched = match_lines(alloc, first, lines, octets, entries)?;
        match matched {
            Matched::Broken(found) => {
                self.lines += lines.len() as u64;
                self.offer(Sentence::Answers, Some(found));
                Ok(())
            }
            Matched::All(told) => self.all_told(
                alloc,
                subscribers,
                told.as_slice(),
                report,
                entries,
            ),
        }
    }

    // The lines of an epoch, each of which has its entry.
    fn all_told(
        &mut self,
        alloc: Global,
        subscribers: &mut Vec<Subscriber>,
        lines: &[ToldLine<'_>],
        report: &Report,
        entries: &[Stood],
    ) -> Result<(), NoMemory>
        requires few { vec_len subscribers.old ≤ 65533 }
        requires next { (own : Case) × (at : Epoch) × IsToldNext own at lines.now report.now entries.now
            subscribers.old.items self.old }
        ensures judged { (own : Case) (at : Epoch)
            → IsToldNext own at lines.now report.now entries.now subscribers.old.items self.old
            → OnOk result (HasJudged own (at.prefix ++ at.now ∷ []) at.left (at.told ++ at.here ∷ []) at.later
            self.new) }
        ensures stands { (own : Case) (at : Epoch)
            → IsToldNext own at lines.now report.now entries.now subscribers.old.items self.old
            → OnOk result (StandsBehind own (at.told ++ at.here ∷ []) at.left subscribers.new.items self.new) }
        ensures setup { self.new.setup ≡ self.old.setup }
        ensures many { vec_len subscribers.new ≡ vec_len subscribers.old }
    {
        self.lines += lines.len() as u64;
        if !self.wants(Sentence::Numbers) {
            return Ok(());
        }
        let walked = walk(alloc, &self.setup, subscribers.as_slice(), lines)?;
        let played = play(alloc, subscribers, lines)?;
        self.judge_all(
            alloc,
            subscribers.len(),
            lines,
            walked,
            played,
            report,
            entries,
        )
    }

    // What the lines of an epoch break, and what they lead to.
    fn judge_all(
        &mut self,
        alloc: Global,
        slots: usize,
        lines: &[ToldLine<'_>],
        walked: Walked,
        played: Played,
        report: &Report,
        entries: &[Stood],
    ) -> Result<(), NoMemory>
        requires { (own : Case) × (at : Epoch) × IsTold own at lines.now report.now entries.now
            × IsLedTo own at slots self.old.setup walked played × IsJudgedTo own at 3 self.old }
        ensures judged { (own : Case) (at : Epoch) → IsTold own at lines.now report.now entries.now
            → IsLedTo own at slots self.old.setup walked played → IsJudgedTo own at 3 self.old
            → OnOk result (Partly own (Before own at) (With own at) 11 self.new.broken) }
        ensures counted { (own : Case) (at : Epoch) → IsTold own at lines.now report.now entries.now
            → IsLedTo own at slots self.old.setup walked played → IsJudgedTo own at 3 self.old
            → OnOk result (HasCounted own (at.told ++ at.here ∷ []) self.new) }
        ensures setup { self.new.setup ≡ self.old.setup }
        ensures lines { self.new.lines ≡ self.old.lines }
    {
        let Walked { numbers, waits } = walked;
        let Played {
            counts,
            gateway,
            effects,
            rows,
        } = played;
        self.offer(Sentence::Numbers, numbers);
        self.offer(Sentence::Counts, counts);
        self.offer(Sentence::Gateway, gateway);
        if !self.wants(Sentence::Effects) {
            return Ok(());
        }
        let caused = effects_due(alloc, effects.as_slice())?;
        let closed = rows_due(alloc, rows.as_slice())?;
        let effects = caused.as_slice();
        let rows = closed.as_slice();
        self.judge_effects(alloc, slots, effects, entries)?;
        self.judge_rows(alloc, slots, rows, entries)?;
        self.offer(Sentence::Waits, waits);
        self.judge_order(alloc, lines, effects, rows, report, entries)
    }

    // The effects of an epoch, and its charging records.
    fn judge_effects(
        &mut self,
        alloc: Global,
        slots: usize,
        due: &[EffectDue<'_>],
        entries: &[Stood],
    ) -> Result<(), NoMemory>
        requires { AreBySlot slot_effected slots (effects_lent due.now) }
        ensures judged { (own : Case) (at : Epoch) → IsEpochOf own at entries.now → slots ≡ own.slots
            → effects_lent due.now ≡ (led_here own at).effects → IsJudgedTo own at 6 self.old
            → OnOk result (IsJudgedTo own at 7 self.new) }
        ensures setup { self.new.setup ≡ self.old.setup }
        ensures lines { self.new.lines ≡ self.old.lines }
    {
        let told = effects_told(alloc, entries)?;
        let found = effect_broken(alloc, slots, due, told.as_slice())?;
        self.offer(Sentence::Effects, found);
        Ok(())
    }

    fn judge_rows(
        &mut self,
        alloc: Global,
        slots: usize,
        due: &[ChargeEntry],
        entries: &[Stood],
    ) -> Result<(), NoMemory>
        requires { AreBySlot slot_charged slots due.now }
        ensures judged { (own : Case) (at : Epoch) → IsEpochOf own at entries.now → slots ≡ own.slots
            → due.now ≡ (led_here own at).rows → IsJudgedTo own at 7 self.old
            → OnOk result (IsJudgedTo own at 8 self.new) }
        ensures setup { self.new.setup ≡ self.old.setup }
        ensures lines { self.new.lines ≡ self.old.lines }
    {
        let told = rows_told(alloc, entries)?;
        let found = row_broken(alloc, slots, due, told.as_slice())?;
        self.offer(Sentence::Rows, found);
        Ok(())
    }

    // The order of an epoch's entries.
    fn judge_order(
        &mut self,
        alloc: Global,
        lines: &[ToldLine<'_>],
        effects: &[EffectDue<'_>],
        rows: &[ChargeEntry],
        report: &Report,
        entries: &[Stood],
    ) -> Result<(), NoMemory>
        requires { (own : Case) × (at : Epoch) × IsTold own at lines.now report.now entries.now
            × IsJudgedTo own at 10 self.old }
        ensures judged { (own : Case) (at : Epoch) → IsTold own at lines.now report.now entries.now
            → effects_lent effects.now ≡ (led_here own at).effects → rows.now ≡ (led_here own at).rows
            → IsJudgedTo own at 10 self.old
            → OnOk result (Partly own (Before own at) (With own at) 11 self.new.broken) }
        ensures counted { (own : Case) (at : Epoch) → IsTold own at lines.now report.now entries.now
            → effects_lent effects.now ≡ (led_here own at).effects → rows.now ≡ (led_here own at).rows
            → IsJudgedTo own at 10 self.old
            → OnOk result (HasCounted own (at.told ++ at.here ∷ []) self.new) }
        ensures setup { self.new.setup ≡ self.old.setup }
        ensures lines { self.new.lines ≡ self.old.lines }
    {
        if !self.wants(Sentence::Order) {
            return Ok(());
        }
        let (place, found) = epoch_order(
            alloc,
            report,
            entries,
            self.entries,
            lines,
            effects,
            rows,
        )?;
        self.entries = place;
        self.offer(Sentence::Order, found);
        Ok(())
    }

    /// The end of the epochs: open counters, and what belongs to no epoch.
    pub(crate) fn end(
        &mut self,
        alloc: Global,
        subscribers: &[Subscriber],
        report: &Report,
        runs: &[Run],
    ) -> Result<(), NoMemory>
        requires { (own : Case) × (told : List (List LineTold))
            × IsEnd own told report.now subscribers.now self.old
            × (runs.now ≡ under (length own.made) report.now.runs.items) }
        ensures { (own : Case) (told : List (List LineTold))
            → IsEnd own told report.now subscribers.now self.old
            → runs.now ≡ under (length own.made) report.now.runs.items
            → OnOk result (HasFound own self.new.broken) }
    {
        if !self.wants(Sentence::Effects) {
            return Ok(());
        }
        let read = report.entries_of(alloc, runs)?;
        let entries = read.as_slice();
        let opens = opens_due(alloc, subscribers)?;
        let due = opens.as_slice();
        self.beyond_effects(alloc, entries)?;
        self.beyond_rows(alloc, entries)?;
        self.judge_opens(alloc, subscribers.len(), due, entries)?;
        self.judge_last(alloc, due, report, entries)
    }

    // Effects and charging records that belong to no epoch, as there is none.
    fn beyond_effects(&mut self, alloc: Global, entries: &[Stood]) -> Result<(), NoMemory>
        ensures { (own : Case) → BelongToNone own entries.now → IsEndedTo own 6 self.old
            → OnOk result (IsEndedTo own 7 self.new) }
    {
        let told = effects_told(alloc, entries)?;
        if told.len() == 0 {
            return Ok(());
        }
        let found = effect_beyond(alloc, told[0])?;
        self.offer(Sentence::Effects, Some(found));
        Ok(())
    }

    fn beyond_rows(&mut self, alloc: Global, entries: &[Stood]) -> Result<(), NoMemory>
        ensures { (own : Case) → BelongToNone own entries.now → IsEndedTo own 7 self.old
            → OnOk result (IsEndedTo own 8 self.new) }
    {
        let told = rows_told(alloc, entries)?;
        if told.len() == 0 {
            return Ok(());
        }
        let found = charge_beyond(alloc, told[0])?;
        self.offer(Sentence::Rows, Some(found));
        Ok(())
    }

    // The open counters.
    fn judge_opens(
        &mut self,
        alloc: Global,
        slots: usize,
        due: &[ChargeEntry],
        entries: &[Stood],
    ) -> Result<(), NoMemory>
        requires { All (λ charge. slot_charged charge < slots) due.now }
        ensures { (own : Case) → BelongToNone own entries.now
            → due.now ≡ (made_report own.slots (told_of own)).opens → IsEndedTo own 8 self.old
            → OnOk result (IsEndedTo own 9 self.new) }
    {
        let told = opens_told(alloc, entries)?;
        let found = open_broken(alloc, slots, due, told.as_slice())?;
        self.offer(Sentence::Opens, found);
        Ok(())
    }

    // The order of all entries.
    fn judge_last(
        &mut self,
        alloc: Global,
        due: &[ChargeEntry],
        report: &Report,
        entries: &[Stood],
    ) -> Result<(), NoMemory>
        requires { (own : Case) × IsHeld own.made own.entries report.now × BelongToNone own entries.now
            × IsEndedTo own 9 self.old }
        ensures { (own : Case) → IsHeld own.made own.entries report.now → BelongToNone own entries.now
            → due.now ≡ (made_report own.slots (told_of own)).opens → IsEndedTo own 9 self.old
            → OnOk result (Partly own (Behind own) (HoldsWhole own) 11 self.new.broken) }
    {
        if !self.wants(Sentence::Order) {
            return Ok(());
        }
        let found = last_order(alloc, report, entries, self.entries, due)?;
        self.offer(Sentence::Order, found);
        Ok(())
    }
}
