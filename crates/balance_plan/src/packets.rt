//! How many packets of each slot a report tells.
ghost use Rattle.std.specs.Prelude.{◌≡◌, ◌==◌, ℕ, ◌+◌, ◌<◌, ◌≤◌, ◌^◌, ◌++◌, ◌∷◌, [], IfOk, OnOk, count_by};
ghost use Rattle.std.specs.Prelude.{filter_map, get_or, length};
ghost use Rattle.balance_plan.specs.Packets.{packet_in};
ghost use Rattle.balance_plan.specs.Writing.{IsTold};

use crate::NoMemory;
use audit_core::{Keyed, shares_of};
use pc_base::Slot;
use report_lines::{Entry, LineEntry};
use std::alloc::Global;

// The packet that an entry answers, if it does.
fn push_packet(keyed: &mut Vec<Keyed<Slot>>, entry: &Entry) -> Result<(), NoMemory>
    ensures { OnOk result (keyed.new.items ≡ keyed.old.items ++ filter_map packet_in (entry.now ∷ [])) }
{
    match entry {
        Entry::Line(LineEntry::P(judged)) => Ok(keyed.push(Keyed {
            key: judged.line,
            item: judged.slot,
        })?),
        _ => Ok(()),
    }
}

// The slots of packets, under the numbers of their lines.
fn keyed_packets(alloc: Global, entries: &[Entry]) -> Result<Vec<Keyed<Slot>>, NoMemory>
    ensures { IfOk result (λ keyed. keyed.items ≡ filter_map packet_in entries.now) }
{
    let mut keyed = Vec::new(alloc);
    for entry in entries {
        push_packet(&mut keyed, entry)?;
    }
    Ok(keyed)
}

/// The entries of a report, and the slots of the packets that they tell on each line.
#[derive(Drop)]
pub(crate) struct ToldPackets<'a> {
    entries: &'a [Entry],
    pub(crate) lines: Vec<Vec<Slot>>,
}

/// What a report tells of the packets on the lines with a number below the count.
pub(crate) fn told_of<'a>(
    alloc: Global,
    count: usize,
    entries: &'a [Entry],
) -> Result<ToldPackets<'a>, NoMemory>
    ensures told { IfOk result IsTold }
    ensures many { IfOk result (λ told. length told.lines.items ≡ count) }
    ensures entries { IfOk result (λ told. told.entries.now ≡ entries.now) }
{
    let _few = entries.len();
    let keyed = keyed_packets(alloc, entries)?;
    let lines = shares_of(alloc, count, &keyed)?;
    Ok(ToldPackets { entries, lines })
}

// Some packets more.
fn add(counts: &mut Vec<u64>, slots: &[Slot])
    requires room { (slot : ℕ) → slot < length counts.old.items
        → get_or counts.old.items slot 0 + count_by (λ s. s == slot) slots.now < 2 ^ 64 }
    ensures many { length counts.new.items ≡ length counts.old.items }
    ensures each { (slot : ℕ) → slot < length counts.old.items → get_or counts.new.items slot 0
        ≡ get_or counts.old.items slot 0 + count_by (λ s. s == slot) slots.now }
{
    for slot in slots {
        let place = slot.0 as usize;
        if place < counts.len() {
            counts[place] += 1;
        }
    }
}

// None of any slot.
fn zeros(alloc: Global, slots: usize) -> Result<Vec<u64>, NoMemory>
    ensures many { IfOk result (λ counts. length counts.items ≡ slots) }
    ensures each { IfOk result (λ counts. (slot : ℕ) → slot < slots → get_or counts.items slot 0 ≡ 0) }
{
    let mut counts = Vec::new(alloc);
    for _ in 0..slots {
        counts.push(0)?;
    }
    Ok(counts)
}

impl ToldPackets<'_> {
    ghost use Rattle.std.specs.Prelude.{◌<◌, ◌≤◌, IfOk, length};
    ghost use Rattle.balance_plan.specs.Writing.{AreCounts, IsTold};

    /// How many packets the first slots have on the lines behind one and before another.
    pub(crate) fn counts_between(
        &self,
        alloc: Global,
        slots: usize,
        since: usize,
        until: usize,
    ) -> Result<Vec<u64>, NoMemory>
        requires told { IsTold self.now }
        requires order { since < until }
        requires within { until ≤ length self.now.lines.items }
        ensures { IfOk result (λ counts. AreCounts counts.items slots since until self.now.entries.now) }
    {
        let mut counts = zeros(alloc, slots)?;
        for number in since + 1..until {
            add(&mut counts, &self.lines[number]);
        }
        Ok(counts)
    }
}
