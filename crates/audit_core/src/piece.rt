//! A piece of an audit that goes along: the lines of one epoch with the entries behind them, where all before it is
//! lawful.

ghost use Rattle.std.specs.Prelude.{◌≡◌, ℕ, ◌+◌, ◌<◌, ◌≤◌, ◌^◌, ◌++◌, ◌∷◌, [], All, List, find, if◌then◌else◌, length};
ghost use Rattle.std.specs.Prelude.{vec_len, IfNone, IfOk, IfSome, None, OnOk, Some};
ghost use Rattle.lawful_run.specs.Merging.{Histories};
ghost use Rattle.lawful_run.specs.Outcomes.{opens};
ghost use Rattle.lawful_run.specs.Run.{by_slot};
ghost use Rattle.report_lines.specs.declared.entry.LineEntry.{LineEntry as OfLine};
ghost use Rattle.at_rest.specs.Meant.{AreStanding};
ghost use Rattle.at_rest.specs.Rest.{AreAtRest};
ghost use Rattle.audit_core.specs.Agreeing.{AreBySlot, slot_effected};
ghost use Rattle.audit_core.specs.Dues.{effects_lent};
ghost use Rattle.audit_core.specs.Entries.{line_entries, slot_charged};
ghost use Rattle.audit_core.specs.Matched.{entries_stood};
ghost use Rattle.audit_core.specs.Judged.{ComeLater};
ghost use Rattle.audit_core.specs.Pieces.{ComesBehind, FoundIn, FoundTo, IsLedIn, IsToldIn, Piece, RestsSo};
ghost use Rattle.audit_core.specs.Pieces.{found_behind, is_elsewhere, led_by, lent_line, opens_asked};
ghost use Rattle.audit_core.specs.declared.setup.Setup.{Setup as Given};
ghost use Rattle.audit_core.specs.Telling.{at_line, dash};

use crate::NoMemory;
use crate::charges::{effect_broken, effects_told, open_broken, opens_told, row_broken, rows_told};
use crate::due_entries::{EffectDue, effects_due, rows_due};
use crate::matching::{Matched, match_lines};
use crate::opens::opens_due;
use crate::piece_order::order_broken;
use crate::report::{Stood, line_of};
use crate::sentence::{Refutation, Sentence};
use crate::setup::Setup;
use crate::slots::{Played, play};
use crate::telling::{Break, at_line, dash};
use crate::told_line::ToldLine;
use crate::walking::{Walked, walk};
use report_lines::{ChargeEntry, Entry, LineEntry};
use slot_execution::KeptMeaning;
use std::alloc::Global;
use subscriber::Subscriber;

// What is found, where something else was before, or this of the next sentence.
fn found_behind(
    found: Option<Refutation>,
    sentence: Sentence,
    place: Option<Break>,
) -> Option<Refutation>
    ensures { result ≡ found_behind found sentence place }
{
    match found {
        Some(first) => Some(first),
        None => match place {
            Some(place) => Some(Refutation { sentence, place }),
            None => None,
        },
    }
}

// Whether an entry is of a line that isn't among so many behind others.
fn is_elsewhere(before: u64, count: u64, entry: &LineEntry) -> bool
    requires { before + count < 2 ^ 63 }
    ensures { result ≡ is_elsewhere before count entry.now }
{
    let line = line_of(entry);
    line <= before || before + count < line
}

// The entry of a line, if it is of another piece, or of none.
fn elsewhere_of(entry: &Entry, before: u64, count: u64) -> Option<&LineEntry>
    requires { before + count < 2 ^ 63 }
    ensures { lent_line result ≡ find (is_elsewhere before count) (line_entries (entry.now ∷ [])) }
{
    match entry {
        Entry::Line(of_line) => {
            if is_elsewhere(before, count, of_line) {
                Some(of_line)
            } else {
                None
            }
        }
        Entry::Effect(_) => None,
        Entry::Charge(_) => None,
    }
}

// The first one of such a line.
fn elsewhere(entries: &[Stood], before: u64, count: u64) -> Option<&LineEntry>
    requires { before + count < 2 ^ 63 }
    ensures { lent_line result ≡ find (is_elsewhere before count) (line_entries (entries_stood entries.now)) }
{
    for stood in entries {
        let found = elsewhere_of(&stood.entry, before, count);
        if found.is_some() {
            return found;
        }
    }
    None
}

// What is told of it.
fn outside_broken(
    alloc: Global,
    entries: &[Stood],
    before: u64,
    count: u64,
) -> Result<Option<Break>, NoMemory>
    requires { before + count < 2 ^ 63 }
    ensures some { IfOk result (λ found. IfSome found (λ place. (now : OfLine)
        × (find (is_elsewhere before count) (line_entries (entries_stood entries.now)) ≡ Some now)
        × (place ≡ at_line now dash))) }
    ensures none { IfOk result (λ found. IfNone found
        (find (is_elsewhere before count) (line_entries (entries_stood entries.now)) ≡ None)) }
{
    match elsewhere(entries, before, count) {
        Some(entry) => {
            let due = dash(alloc)?;
            Ok(Some(at_line(alloc, entry, due)?))
        }
        None => Ok(None),
    }
}

// The open counters that are asked for: those of all subscribers behind the last piece, else none.
fn opens_asked(
    alloc: Global,
    subscribers: &[Subscriber],
    last: bool,
) -> Result<Vec<ChargeEntry>, NoMemory>
    ensures { (histories : Histories) → AreStanding subscribers.now histories
        → IfOk result (λ all. all.items
        ≡ (if last then by_slot (length subscribers.now) (λ slot. opens slot (histories slot)) else [])) }
{
    if last {
        opens_due(alloc, subscribers)
    } else {
        Ok(Vec::new(alloc))
    }
}

/// What refutes a piece whose lines have so many before them, and are the last ones or not; the subscribers do what its
/// entries tell.
pub(crate) fn piece_broken(
    alloc: Global,
    setup: &Setup,
    subscribers: &mut Vec<Subscriber>,
    before: u64,
    lines: &[KeptMeaning],
    octets: &[u8],
    entries: &[Stood],
    last: bool,
) -> Result<Option<Refutation>, NoMemory>
    requires few { vec_len subscribers.old ≤ 65533 }
    requires next { (own : Piece) × ComesBehind own setup.now octets.now lines.now entries.now subscribers.old.items
        × (own.lines ≡ before) × (own.last ≡ last) }
    ensures found { (own : Piece) → ComesBehind own setup.now octets.now lines.now entries.now subscribers.old.items
        → own.lines ≡ before → own.last ≡ last → IfOk result (FoundIn own) }

    // Behind a lawful piece the subscribers stand at rest behind its events.
    ensures stands { (own : Piece) (slices latest : ℕ)
        → ComesBehind own setup.now octets.now lines.now entries.now subscribers.old.items
        → own.lines ≡ before → own.last ≡ last → AreAtRest slices own.lines latest subscribers.old.items
        → ComeLater latest own.made
        → IfOk result (λ found. IfNone found (RestsSo own slices latest subscribers.old.items subscribers.new.items)) }
    ensures many { OnOk result (vec_len subscribers.new ≡ vec_len subscribers.old) }
{
    let matched = match_lines(alloc, before + 1, lines, octets, entries)?;
    match matched {
        Matched::Broken(place) => Ok(Some(Refutation {
            sentence: Sentence::Answers,
            place,
        })),
        Matched::All(told) => told_broken(
            alloc,
            setup,
            subscribers,
            before,
            told.as_slice(),
            entries,
            last,
        ),
    }
}

// What refutes lines each of which has its entry.
fn told_broken(
    alloc: Global,
    setup: &Setup,
    subscribers: &mut Vec<Subscriber>,
    before: u64,
    lines: &[ToldLine<'_>],
    entries: &[Stood],
    last: bool,
) -> Result<Option<Refutation>, NoMemory>
    requires few { vec_len subscribers.old ≤ 65533 }
    requires next { (own : Piece) × IsToldIn own setup.now lines.now entries.now subscribers.old.items
        × (own.lines ≡ before) × (own.last ≡ last) }
    ensures found { (own : Piece) → IsToldIn own setup.now lines.now entries.now subscribers.old.items
        → own.lines ≡ before → own.last ≡ last → IfOk result (FoundIn own) }
    ensures stands { (own : Piece) (slices latest : ℕ)
        → IsToldIn own setup.now lines.now entries.now subscribers.old.items
        → own.lines ≡ before → own.last ≡ last → AreAtRest slices own.lines latest subscribers.old.items
        → ComeLater latest own.made
        → OnOk result (RestsSo own slices latest subscribers.old.items subscribers.new.items) }
    ensures many { OnOk result (vec_len subscribers.new ≡ vec_len subscribers.old) }
{
    let outside = outside_broken(alloc, entries, before, lines.len() as u64)?;
    let walked = walk(alloc, setup, subscribers.as_slice(), lines)?;
    let played = play(alloc, subscribers, lines)?;
    let opens = opens_asked(alloc, subscribers.as_slice(), last)?;
    let found = found_behind(None, Sentence::Outside, outside);
    led_broken(
        alloc,
        found,
        subscribers.len(),
        lines,
        walked,
        played,
        opens.as_slice(),
        entries,
    )
}

// What refutes them by what they lead to, where nothing did before.
fn led_broken(
    alloc: Global,
    found: Option<Refutation>,
    slots: usize,
    lines: &[ToldLine<'_>],
    walked: Walked,
    played: Played,
    opens: &[ChargeEntry],
    entries: &[Stood],
) -> Result<Option<Refutation>, NoMemory>
    requires { (own : Piece) × (setup : Given) × IsLedIn own slots setup lines.now entries.now walked played opens.now
        × FoundTo own 3 found }
    ensures { (own : Piece) (setup : Given) → IsLedIn own slots setup lines.now entries.now walked played opens.now
        → FoundTo own 3 found → IfOk result (FoundIn own) }
{
    let Walked { numbers, waits } = walked;
    let Played {
        counts,
        gateway,
        effects,
        rows,
    } = played;
    let numbered = found_behind(found, Sentence::Numbers, numbers);
    let counted = found_behind(numbered, Sentence::Counts, counts);
    let answered = found_behind(counted, Sentence::Gateway, gateway);
    let caused = effects_due(alloc, effects.as_slice())?;
    let closed = rows_due(alloc, rows.as_slice())?;
    let effects = caused.as_slice();
    let rows = closed.as_slice();
    let effected = effects_found(alloc, answered, slots, effects, entries)?;
    let recorded = rows_found(alloc, effected, slots, rows, entries)?;
    let opened = opens_found(alloc, recorded, slots, opens, entries)?;
    let waited = found_behind(opened, Sentence::Waits, waits);
    let place = order_broken(alloc, entries, lines, effects, rows, opens)?;
    Ok(found_behind(waited, Sentence::Order, place))
}

// What refutes its effects, where nothing did before; its charging records; its open counters.
fn effects_found(
    alloc: Global,
    found: Option<Refutation>,
    slots: usize,
    due: &[EffectDue<'_>],
    entries: &[Stood],
) -> Result<Option<Refutation>, NoMemory>
    requires { AreBySlot slot_effected slots (effects_lent due.now) }
    ensures { (own : Piece) → slots ≡ own.slots → entries_stood entries.now ≡ own.entries
        → effects_lent due.now ≡ (led_by own).effects → FoundTo own 6 found → IfOk result (FoundTo own 7) }
{
    let told = effects_told(alloc, entries)?;
    let place = effect_broken(alloc, slots, due, told.as_slice())?;
    Ok(found_behind(found, Sentence::Effects, place))
}

fn rows_found(
    alloc: Global,
    found: Option<Refutation>,
    slots: usize,
    due: &[ChargeEntry],
    entries: &[Stood],
) -> Result<Option<Refutation>, NoMemory>
    requires { AreBySlot slot_charged slots due.now }
    ensures { (own : Piece) → slots ≡ own.slots → entries_stood entries.now ≡ own.entries
        → due.now ≡ (led_by own).rows → FoundTo own 7 found → IfOk result (FoundTo own 8) }
{
    let told = rows_told(alloc, entries)?;
    let place = row_broken(alloc, slots, due, told.as_slice())?;
    Ok(found_behind(found, Sentence::Rows, place))
}

fn opens_found(
    alloc: Global,
    found: Option<Refutation>,
    slots: usize,
    due: &[ChargeEntry],
    entries: &[Stood],
) -> Result<Option<Refutation>, NoMemory>
    requires { All (λ charge. slot_charged charge < slots) due.now }
    ensures { (own : Piece) → entries_stood entries.now ≡ own.entries → due.now ≡ opens_asked own
        → FoundTo own 8 found → IfOk result (FoundTo own 9) }
{
    let told = opens_told(alloc, entries)?;
    let place = open_broken(alloc, slots, due, told.as_slice())?;
    Ok(found_behind(found, Sentence::Opens, place))
}
