//! A trace levelled, from its input to what is written.
ghost use Rattle.std.specs.Prelude.{◌≡◌, ◌+◌, ◌<◌, ◌≤◌, ◌^◌, ℕ, List, Option, length, vec_len};
ghost use Rattle.std.specs.Prelude.{IfOk, None, Some};
ghost use Rattle.pc_outside.specs.Faults.{Rises};
ghost use Rattle.pc_outside.specs.WhereTold.{WhereTold};
ghost use Rattle.audit_core.specs.declared.setup.BadAt.{BadAt};
ghost use Rattle.audit_core.specs.Heard.{HasHeard};
ghost use Rattle.pc_outside.specs.InputRead.{Reached};
ghost use Rattle.pc_outside.specs.Texts.{Text};
ghost use Rattle.balance_plan.specs.Balance.{balanced};
ghost use Rattle.balance_plan.specs.Report.{Balances, IsWrittenAs};
ghost use Rattle.balance_plan.specs.Written.{text_of};

use crate::NoMemory;
use crate::packets::told_of;
use crate::writing::Writer;
use audit_core::{Heard, hear};
use pc_outside::{InputStop, Sink, Source, WriteFault, write_whole};
use report_lines::Entry;
use std::alloc::{AllocError, Global};
use text_fields::Text;
use trace_lines::TraceLine;
use trace_run::Status;

// The text of the trace with the moves that are planned by the report.
fn text_with_moves(
    alloc: Global,
    slices: u8,
    most: u32,
    lines: &[TraceLine],
    entries: &[Entry],
) -> Result<Text, NoMemory>
    requires least { 1 ≤ slices }
    requires most { slices ≤ 64 }
    requires few { length lines.now + 1 < 2 ^ 40 }
    ensures { IfOk result (λ text. text ≡ text_of (balanced slices most entries.now lines.now)) }
{
    let told = told_of(alloc, lines.len() + 2, entries)?;
    let mut writer = Writer::new(alloc, slices, most)?;
    for line in lines {
        writer.take(alloc, line, &told)?;
    }
    Ok(writer.text)
}

// Writes the text.
fn write<K: Sink>(text: &[u8], sink: &mut K) -> Status
    ensures written { IsWrittenAs result (K.written sink.old) (K.written sink.new) text.now }
    ensures no_usage { result ≡ Status.Usage → ⊥ }
    ensures later { K.faults sink.old ≤ K.faults sink.new }
    ensures write_fault { result ≡ Status.WriteFault → Rises (K.faults sink.old) (K.faults sink.new) }
{
    match write_whole(sink, text) {
        Ok(()) => Status::Ok,
        Err(WriteFault) => Status::WriteFault,
    }
}

// A refused line of the trace goes before what stands behind it.
fn unless_refused(heard: &Heard, ending: Status) -> Status
    ensures refused { (at : BadAt) → heard.now.bad ≡ Some at → result ≡ Status.BadLine }
    ensures other { heard.now.bad ≡ None → result ≡ ending }
    ensures no_usage { result ≡ Status.Usage → ending ≡ Status.Usage }
    ensures read_fault { result ≡ Status.ReadFault → ending ≡ Status.ReadFault }
    ensures write_fault { result ≡ Status.WriteFault → ending ≡ Status.WriteFault }
{
    match heard.bad {
        Some(_) => Status::BadLine,
        None => ending,
    }
}

// Levels what was heard of an input that ended as it should.
fn level<K: Sink>(alloc: Global, slices: u8, most: u32, heard: &Heard, sink: &mut K) -> Status
    requires least { 1 ≤ slices }
    requires most { slices ≤ 64 }
    requires few { vec_len heard.now.lines + 1 < 2 ^ 40 }
    ensures balances { (start left : Option (List ℕ)) (texts : List Text) → HasHeard heard.now texts
        → WhereTold start left (λ octets rest. Reached InputStop.Ended octets rest texts)
        → Balances result slices most start left (K.written sink.old) (K.written sink.new) }
    ensures no_usage { result ≡ Status.Usage → ⊥ }
    ensures read_fault { result ≡ Status.ReadFault → ⊥ }
    ensures later { K.faults sink.old ≤ K.faults sink.new }
    ensures write_fault { result ≡ Status.WriteFault → Rises (K.faults sink.old) (K.faults sink.new) }
{
    if heard.bad.is_some() {
        return Status::BadLine;
    }
    if heard.outside {
        return Status::BadReport;
    }
    match text_with_moves(
        alloc,
        slices,
        most,
        heard.lines.as_slice(),
        heard.entries.as_slice(),
    ) {
        Ok(text) => write(text.as_slice(), sink),
        Err(AllocError) => Status::NoMemory,
    }
}

/// Reads a trace and a report of it from the source, and writes the trace to the sink, with at most so many moves
/// behind each FENCE that level the slices by the packets which the report tells of the epoch before it. Where it
/// doesn't end with Ok, nothing was written, or at a fault of the sink a prefix of the trace.
pub fn balance<S: Source, K: Sink>(
    alloc: Global,
    slices: u8,
    most: u32,
    source: &mut S,
    sink: &mut K,
) -> Status
    requires least { 1 ≤ slices }
    requires most { slices ≤ 64 }

    // What is written is the trace with the planned moves, where source and sink tell their octets.
    ensures balances { Balances result slices most (S.left source.old) (S.left source.new) (K.written sink.old)
        (K.written sink.new) }
    ensures no_usage { result ≡ Status.Usage → ⊥ }

    // Faults are those of the source and the sink.
    ensures source_later { S.faults source.old ≤ S.faults source.new }
    ensures sink_later { K.faults sink.old ≤ K.faults sink.new }
    ensures read_fault { result ≡ Status.ReadFault → Rises (S.faults source.old) (S.faults source.new) }
    ensures write_fault { result ≡ Status.WriteFault → Rises (K.faults sink.old) (K.faults sink.new) }
{
    match hear(alloc, source) {
        Ok((heard, InputStop::Ended)) => level(alloc, slices, most, &heard, sink),
        Ok((heard, InputStop::ReadFault)) => unless_refused(&heard, Status::ReadFault),
        Ok((heard, InputStop::LineLong)) => unless_refused(&heard, Status::LineLong),
        Ok((heard, InputStop::TooLong)) => unless_refused(&heard, Status::TooLong),
        Err(AllocError) => Status::NoMemory,
    }
}
