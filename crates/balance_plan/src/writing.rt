//! The trace that is written, line after line.
ghost use Rattle.std.specs.Prelude.{◌≡◌, ℕ, ◌+◌, ◌<◌, ◌≤◌, ◌^◌, ◌++◌, ◌∷◌, [], All, List, map, get_or, set};
ghost use Rattle.std.specs.Prelude.{length, sum_by, IfOk, OnOk};
ghost use Rattle.balance_plan.specs.Loads.{IsBelow, SlotsRise};
ghost use Rattle.demux.specs.Destinations.{bound_for};
ghost use Rattle.demux.specs.Resolved.{IsDecision, IsDue, book_behind, book_with};
ghost use Rattle.pc_outside.specs.Limits.{newline};
ghost use Rattle.report_lines.specs.declared.entry.Entry.{Entry};
ghost use Rattle.trace_lines.specs.Epochs.{is_fence};
ghost use Rattle.trace_lines.specs.Line.{Line};
ghost use Rattle.trace_lines.specs.Text.{line_text};
ghost use Rattle.balance_plan.specs.Plans.{loads_at, move_line, moves_at};
ghost use Rattle.balance_plan.specs.Written.{Written, given, lines_of, planned};
ghost use Rattle.balance_plan.specs.Writing.{HasWritten, IsStep, IsTold, IsWriter, Stands};

use crate::packets::ToldPackets;
use crate::{Load, NoMemory, Planned, plan, planned_moves_are_of_loads};
use address_book::AddressBook;
use demux::{Decision, Whose, decide, start_slices};
use pc_base::{Imsi, SliceNo, Slot};
use std::alloc::Global;
use text_fields::Text;
use trace_lines::{LineKind, TraceLine, push_text};

/// What is written of a trace so far; whom its lines admitted, and where each slot is bound for behind it.
#[derive(Drop)]
pub(crate) struct Writer {
    slices: u8,
    most: u32,
    book: AddressBook,
    bound: Vec<SliceNo>,
    // How many lines of the trace it has, and which of them was the last FENCE (0: none yet).
    lines: usize,
    fence: usize,
    pub(crate) text: Text,
}

fn is_fence(line: &TraceLine) -> bool
    ensures { result ≡ is_fence line.now.kind }
{
    matches!(line.kind, LineKind::Fence)
}

// Whom a command is for is in the book.
fn admit(book: &mut AddressBook, whose: Whose) -> Result<(), NoMemory>
    requires { IsDue book.old whose }
    ensures { OnOk result (book.new ≡ book_with book.old whose) }
{
    whose.admit(book)?;
    Ok(())
}

// A slot is bound for a slice.
fn bind(bound: &mut Vec<SliceNo>, slot: Slot, slice: SliceNo)
    requires { slot < length bound.old.items }
    ensures { bound.new.items ≡ set bound.old.items slot slice }
{
    bound[slot.0 as usize] = slice;
}

// The line of a planned move.
fn move_of(alloc: Global, imsis: &[Imsi], fence: &TraceLine, step: &Planned) -> TraceLine
    requires slot { step.now.slot < length imsis.now }
    requires slice { step.now.slice ≤ 63 }
    ensures { result ≡ move_line fence.now imsis.now step.now }
{
    let imsi = imsis[step.slot.0 as usize];
    let _valid = imsi.digits();
    let kind = LineKind::Move {
        imsi,
        slice: step.slice,
    };
    TraceLine {
        number: fence.number,
        moment: fence.moment,
        kind,
        octets: Text::new(alloc),
    }
}

// Appends a line, by its text.
fn push_line(text: &mut Text, line: &TraceLine) -> Result<(), NoMemory>
    ensures { OnOk result (text.new ≡ text.old ++ (line_text line.now ++ newline ∷ [])) }
{
    push_text(text, line)?;
    text.push(b'\n')
}

impl Writer {
    pub(crate) fn new(alloc: Global, slices: u8, most: u32) -> Result<Writer, NoMemory>
        requires least { 1 ≤ slices }
        requires most { slices ≤ 64 }
        ensures writer { IfOk result IsWriter }
        ensures written { (entries : List Entry) → IfOk result (λ writer. HasWritten writer entries []) }
        ensures slices { IfOk result (λ writer. writer.slices ≡ slices) }
        ensures most { IfOk result (λ writer. writer.most ≡ most) }
        ensures lines { IfOk result (λ writer. writer.lines ≡ 0) }
        ensures fence { IfOk result (λ writer. writer.fence ≡ 0) }
    {
        Ok(Writer {
            slices,
            most,
            book: AddressBook::new(alloc),
            bound: start_slices(alloc, slices)?,
            lines: 0,
            fence: 0,
            text: Text::new(alloc),
        })
    }

    /// Writes the next line of the trace, and behind a FENCE the moves planned there.
    pub(crate) fn take(
        &mut self,
        alloc: Global,
        line: &TraceLine,
        told: &ToldPackets<'_>,
    ) -> Result<(), NoMemory>
        requires writer { IsWriter self.old }
        requires told { IsTold told.now }
        requires within { self.old.lines + 1 < length told.now.lines.items }
        requires before { self.old.fence ≤ self.old.lines }
        ensures writer { OnOk result (IsWriter self.new) }
        ensures slices { self.new.slices ≡ self.old.slices }
        ensures most { self.new.most ≡ self.old.most }
        ensures lines { OnOk result (self.new.lines ≡ self.old.lines + 1) }
        ensures before { OnOk result (self.new.fence ≤ self.new.lines) }
        ensures written { (done : List Line) → HasWritten self.old told.now.entries.now done
            → OnOk result (HasWritten self.new told.now.entries.now (done ++ line.now ∷ [])) }
    {
        self.give(alloc, line)?;
        let before = self.fence;
        self.lines += 1;
        if is_fence(line) {
            self.fence = self.lines;
            return self.plan(alloc, line, before, told);
        }
        Ok(())
    }

    // Writes a line of the trace.
    fn give(&mut self, alloc: Global, line: &TraceLine) -> Result<(), NoMemory>
        requires { IsWriter self.old }
        ensures writer { OnOk result (IsWriter self.new) }
        ensures stands { (written : List Written) → Stands self.old written
            → OnOk result (Stands self.new (written ++ given line.now ∷ [])) }
        ensures slices { self.new.slices ≡ self.old.slices }
        ensures most { self.new.most ≡ self.old.most }
        ensures lines { self.new.lines ≡ self.old.lines }
        ensures fence { self.new.fence ≡ self.old.fence }
    {
        let made = decide(alloc, &self.book, self.slices, line)?;
        self.note(&made)?;
        push_line(&mut self.text, line)
    }

    // Whom a line admits, and where its slot is bound for behind it.
    fn note(&mut self, made: &Decision<'_>) -> Result<(), NoMemory>
        requires writer { IsWriter self.old }
        requires valid { IsDecision self.old.slices self.old.book made.now }
        ensures writer { OnOk result (IsWriter self.new) }
        ensures book { OnOk result (self.new.book ≡ book_behind self.old.book made.now) }
        ensures bound { OnOk result ((slot : ℕ) → slot < 65533 → get_or self.new.bound.items slot 0
            ≡ bound_for slot (get_or self.old.bound.items slot 0) made.now) }
        ensures text { self.new.text ≡ self.old.text }
        ensures slices { self.new.slices ≡ self.old.slices }
        ensures most { self.new.most ≡ self.old.most }
        ensures lines { self.new.lines ≡ self.old.lines }
        ensures fence { self.new.fence ≡ self.old.fence }
    {
        match made {
            Decision::Command { whose, .. } => admit(&mut self.book, *whose),
            Decision::Move { slot, slice } => {
                self.bound[slot.0 as usize] = *slice;
                Ok(())
            }
            Decision::Packet { .. } | Decision::Note(_) => Ok(()),
        }
    }

    // Writes the moves planned at a FENCE, the one before it having this number.
    fn plan(
        &mut self,
        alloc: Global,
        fence: &TraceLine,
        before: usize,
        told: &ToldPackets<'_>,
    ) -> Result<(), NoMemory>
        requires writer { IsWriter self.old }
        requires told { IsTold told.now }
        requires within { self.old.lines < length told.now.lines.items }
        requires order { before < self.old.lines }
        ensures writer { OnOk result (IsWriter self.new) }
        ensures stands { (written : List Written) → Stands self.old written
            → OnOk result (Stands self.new (written ++ map planned (moves_at self.old.slices self.old.most before
            self.old.lines told.now.entries.now (lines_of written) fence.now))) }
        ensures slices { self.new.slices ≡ self.old.slices }
        ensures most { self.new.most ≡ self.old.most }
        ensures lines { self.new.lines ≡ self.old.lines }
        ensures fence { self.new.fence ≡ self.old.fence }
    {
        let loads = self.loads(alloc, before, told)?;
        let steps = plan(alloc, &loads, self.slices, self.most)?;
        planned_moves_are_of_loads();
        self.push_moves(fence, &steps)
    }

    // Writes planned moves.
    fn push_moves(&mut self, fence: &TraceLine, steps: &[Planned]) -> Result<(), NoMemory>
        requires writer { IsWriter self.old }
        requires steps { All (IsStep (length self.old.book) self.old.slices) steps.now }
        ensures writer { OnOk result (IsWriter self.new) }
        ensures stands { (written : List Written) → Stands self.old written → OnOk result (Stands self.new
            (written ++ map planned (map (move_line fence.now self.old.book) steps.now))) }
        ensures slices { self.new.slices ≡ self.old.slices }
        ensures most { self.new.most ≡ self.old.most }
        ensures lines { self.new.lines ≡ self.old.lines }
        ensures fence { self.new.fence ≡ self.old.fence }
    {
        for step in steps {
            self.push_move(fence, step)?;
        }
        Ok(())
    }

    // The load of each slot of the book.
    fn loads(
        &self,
        alloc: Global,
        before: usize,
        told: &ToldPackets<'_>,
    ) -> Result<Vec<Load>, NoMemory>
        requires writer { IsWriter self.now }
        requires told { IsTold told.now }
        requires within { self.now.lines < length told.now.lines.items }
        requires order { before < self.now.lines }
        ensures loads { (written : List Written) → Stands self.now written → IfOk result (λ loads.
            loads.items ≡ loads_at self.now.slices before self.now.lines told.now.entries.now (lines_of written)) }
        ensures rise { IfOk result (λ loads. SlotsRise loads.items) }
        ensures below { IfOk result (λ loads. All (IsBelow self.now.slices) loads.items) }
        ensures packets { IfOk result (λ loads. sum_by (λ load. load.packets) loads.items < 2 ^ 63) }
        ensures slots { IfOk result (λ loads. All (λ load. load.slot < length self.now.book) loads.items) }
    {
        let slots = self.book.len() as usize;
        let counts = told.counts_between(alloc, slots, before, self.lines)?;
        let mut loads = Vec::new(alloc);
        for slot in 0..slots {
            loads.push(Load {
                slot: Slot(slot as u32),
                slice: self.bound[slot],
                packets: counts[slot],
            })?;
        }
        Ok(loads)
    }

    // Writes a planned move.
    fn push_move(&mut self, fence: &TraceLine, step: &Planned) -> Result<(), NoMemory>
        requires writer { IsWriter self.old }
        requires step { IsStep (length self.old.book) self.old.slices step.now }
        ensures writer { OnOk result (IsWriter self.new) }
        ensures stands { (written : List Written) → Stands self.old written → OnOk result (Stands self.new
            (written ++ planned (move_line fence.now self.old.book step.now) ∷ [])) }
        ensures book { self.new.book ≡ self.old.book }
        ensures slices { self.new.slices ≡ self.old.slices }
        ensures most { self.new.most ≡ self.old.most }
        ensures lines { self.new.lines ≡ self.old.lines }
        ensures fence { self.new.fence ≡ self.old.fence }
    {
        let alloc = *self.bound.allocator();
        let line = move_of(alloc, self.book.imsis(), fence, step);
        bind(&mut self.bound, step.slot, step.slice);
        push_line(&mut self.text, &line)
    }
}
