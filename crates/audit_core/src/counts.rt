//! The third sentence, of a slot in an epoch: the first packet whose count of commands falls, or passes its bounds.

ghost use Rattle.std.specs.Prelude.{◌≡◌, ℕ, ◌+◌, ◌<◌, ◌≤◌, ◌^◌, ◌++◌, ◌∷◌, ◌↔◌, [], List, codes, decimal, length, max};
ghost use Rattle.std.specs.Prelude.{IfNone, IfOk, IfSome, IsTrue};
ghost use Rattle.lawful_run.specs.Accepted.{command_count};
ghost use Rattle.lawful_run.specs.LinesTold.{LineTold};
ghost use Rattle.lawful_run.specs.Moves.{before_next_move};
ghost use Rattle.lawful_run.specs.Telling.{commands_told};
ghost use Rattle.audit_core.specs.Bounds.{FirstCount};
ghost use Rattle.audit_core.specs.Meant.{line_told, lines_of, share};
ghost use Rattle.audit_core.specs.OfSlot.{AreAnswered, CountsRise};
ghost use Rattle.audit_core.specs.Passing.{AreOf, IsOf, IsPassed, LiesIn, last_behind};

use crate::NoMemory;
use crate::telling::{Break, at_line};
use crate::told_line::ToldLine;
use pc_base::Octets;
use report_lines::LineEntry;
use std::alloc::Global;

// What is kept of the slot's lines before one: its commands so far, those before its last move and its next one, and
// the count of its last packet.
#[derive(Clone, Copy)]
struct Passed {
    commands: u64,
    least: u64,
    most: u64,
    last: u64,
}

// One where a line brings a command that was accepted.
fn one_command(told: &ToldLine<'_>) -> u64
    ensures value { (slot : ℕ) → IsOf slot (line_told told.now)
        → result ≡ command_count slot (line_told told.now ∷ []) }
    ensures most { result ≤ 1 }
{
    match told.command() {
        Some(_) => 1,
        None => 0,
    }
}

// The commands before the next move, or the end, where so many stand before these lines.
fn next_count(commands: u64, later: &[ToldLine<'_>]) -> u64
    requires { commands + length later.now < 2 ^ 64 }
    ensures { (slot : ℕ) → AreOf slot (lines_of later.now)
        → result ≡ commands + command_count slot (before_next_move slot (lines_of later.now)) }
{
    let mut count = commands;
    for told in later {
        if told.moves() {
            return count;
        }
        count += one_command(told);
    }
    count
}

// The count that a packet tells.
fn count_told(entry: &LineEntry) -> Option<u64>
    ensures { (slot : ℕ) (now : LineTold) → now.entry ≡ entry.now → IsOf slot now
        → result ≡ commands_told slot entry.now }
{
    match entry {
        LineEntry::P(judged) => Some(judged.commands),
        _ => None,
    }
}

// The last count behind an entry.
fn last_behind(last: u64, entry: &LineEntry) -> u64
    ensures { (slot : ℕ) (now : LineTold) → now.entry ≡ entry.now → IsOf slot now
        → result ≡ last_behind last (commands_told slot entry.now) }
{
    match count_told(entry) {
        Some(count) => count,
        None => last,
    }
}

// Where the slot had so many commands before the epoch.
fn begins(start: u64, lines: &[ToldLine<'_>]) -> Passed
    requires { start + length lines.now < 2 ^ 64 }
    ensures passed { (slot : ℕ) → AreOf slot (lines_of lines.now) → IsPassed slot start (lines_of lines.now) 0 result }
    ensures commands { result.commands ≡ start }
{
    Passed {
        commands: start,
        least: start,
        most: next_count(start, lines),
        last: start,
    }
}

// Behind one line more.
fn goes_on(passed: Passed, lines: &[ToldLine<'_>], at: usize) -> Passed
    requires within { at < length lines.now }
    requires few { passed.commands + length lines.now < 2 ^ 64 + at }
    ensures passed { (slot start : ℕ) → AreOf slot (lines_of lines.now)
        → IsPassed slot start (lines_of lines.now) at passed
        → IsPassed slot start (lines_of lines.now) (at + 1) result }
    ensures most { result.commands ≤ passed.commands + 1 }
{
    let told = &lines[at];
    let last = last_behind(passed.last, told.entry);
    if told.moves() {
        return Passed {
            commands: passed.commands,
            least: passed.commands,
            most: next_count(passed.commands, &lines[at + 1..]),
            last,
        };
    }
    Passed {
        commands: passed.commands + one_command(told),
        last,
        ..passed
    }
}

fn lies_between(passed: &Passed, count: u64) -> bool
    ensures { IsTrue result
        ↔ ((passed.now.least ≤ count) × (passed.now.last ≤ count) × (count ≤ passed.now.most)) }
{
    passed.least <= count && passed.last <= count && count <= passed.most
}

// Whether a packet's count lies between the least and the most.
fn lies_in(passed: &Passed, entry: &LineEntry) -> bool
    ensures { (slot : ℕ) (now : LineTold) → now.entry ≡ entry.now → IsOf slot now
        → (IsTrue result ↔ LiesIn slot passed.now entry.now) }
{
    match count_told(entry) {
        Some(count) => lies_between(passed, count),
        None => true,
    }
}

// The least and the most.
fn bounds_due(alloc: Global, passed: &Passed) -> Result<Octets, NoMemory>
    ensures { IfOk result (λ text. text
        ≡ decimal (max passed.now.least passed.now.last) ++ (codes " to " ++ decimal passed.now.most)) }
{
    let least = passed.least.max(passed.last);
    let most = passed.most;
    Ok(Octets::of(format!(in alloc; "{least} to {most}")?.into_bytes()))
}

/// The first packet of a slot whose count isn't lawful, where the slot had so many commands before the epoch, and these
/// lines in it; None where all are.
pub(crate) fn count_broken(
    alloc: Global,
    start: u64,
    lines: &[ToldLine<'_>],
) -> Result<Option<Break>, NoMemory>
    requires { start + length lines.now < 2 ^ 64 }
    ensures some { (slot first : ℕ) (all : List LineTold) → AreAnswered first all
        → lines_of lines.now ≡ share slot all → IfOk result (λ found. IfSome found (FirstCount slot start all)) }
    ensures none { (slot first : ℕ) (all : List LineTold) → AreAnswered first all
        → lines_of lines.now ≡ share slot all → IfOk result (λ found. IfNone found (CountsRise slot start all)) }
{
    let mut passed = begins(start, lines);
    for at in 0..lines.len() {
        let entry = lines[at].entry;
        if !lies_in(&passed, entry) {
            let due = bounds_due(alloc, &passed)?;
            return Ok(Some(at_line(alloc, entry, due)?));
        }
        passed = goes_on(passed, lines, at);
    }
    Ok(None)
}
