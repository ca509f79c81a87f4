//! A capture becomes a trace.
ghost use Rattle.std.specs.Prelude.{◌≡◌, ◌+◌, ◌≤◌, ◌^◌, ◌++◌, [], ℕ, List, Option, length, take};
ghost use Rattle.std.specs.Prelude.{unwrap_or, OnOk, IfOk, IfErr, Ok, Err};
ghost use Rattle.pc_outside.specs.Faults.{Rises};
ghost use Rattle.pc_outside.specs.Prefixes.{AppendsPrefix};
ghost use Rattle.pcap_form.specs.Head.{head_of};
ghost use Rattle.pcap_form.specs.Lent.{said_by};
ghost use Rattle.pcap_form.specs.Record.{record_in};
ghost use Rattle.pcap_form.specs.Trace.{stamped, text_of};
ghost use Rattle.pcap_form.specs.Reading.{IsThere};
ghost use Rattle.pcap_form.specs.Progress.{Cuts, Ends, Takes, imported_at, imported_without};
ghost use Rattle.pcap_form.specs.Report.{Runs};

use crate::block::{Block, Fill};
use crate::head::{CaptureHead, HEAD_LEN, read_head};
use crate::lent::LentKind;
use crate::reading::{NextRecord, next_record};
use crate::record::{RECORD_LEN, RecordHead, moment_of};
use crate::record_line::lent_kind;
use crate::text::push_line;
use pc_base::Moment;
use pc_outside::{Sink, Source, Unwritten, write_text};
use std::alloc::{AllocError, Global};
use text_fields::Text;

/// How an import ended.
#[derive(Clone, Copy, Debug, PartialEq, Eq)]
pub enum Imported {
    /// The capture was read to its end, and its trace written.
    Ended,
    /// The source failed; the trace of the whole records taken was written.
    ReadFault,
    /// The sink failed; a prefix of the trace was written.
    WriteFault,
    /// Memory ran out; the trace of some first records was written.
    NoMemory,
    /// The capture has 2^40 octets or more.
    TooLong,
    /// The octets are no capture from some place on; the trace of the records before was written.
    BadCapture,
}

// How many octets of the trace are gathered before they are written.
const PIECE_LEN: usize = 0x1_0000;

// Why no more records are read.
#[derive(Clone, Copy)]
enum Stopped {
    Ended,
    ReadFault,
    TooLong,
    BadCapture,
}

// Appends the line of a record that is held, at this moment, to what waits. A piece that is long
// enough is written.
fn take_record<K: Sink>(
    head: &CaptureHead,
    one: RecordHead,
    held: &[u8],
    moment: Moment,
    sink: &mut K,
    out: &mut Text,
) -> Result<(), Unwritten>
    requires { IsThere one head.now held.now }

    ensures taken { OnOk result (Takes (K.written sink.old) (K.written sink.new)
        (out.old ++ text_of (stamped moment (record_in head.now held.now).said)) out.new) }
    ensures cut { result ≡ Err Unwritten.WriteFault → AppendsPrefix (K.written sink.old) (K.written sink.new)
        (out.old ++ text_of (stamped moment (record_in head.now held.now).said)) }
    ensures kept { result ≡ Err Unwritten.NoMemory → sink.new ≡ sink.old }

    ensures later { K.faults sink.old ≤ K.faults sink.new }
    ensures fault { result ≡ Err Unwritten.WriteFault → Rises (K.faults sink.old) (K.faults sink.new) }
{
    push_lent(out, moment, said_in(head, one, held))?;
    if out.as_slice().len() < PIECE_LEN {
        return Ok(());
    }
    write_text(sink, out)
}

// What the record that is held says.
fn said_in<'a>(head: &CaptureHead, one: RecordHead, held: &'a [u8]) -> Option<LentKind<'a>>
    requires { IsThere one head.now held.now }
    ensures { said_by result ≡ (record_in head.now held.now).said }
{
    let end = RECORD_LEN + one.captured as usize;
    lent_kind(head, &held[RECORD_LEN..end])
}

// Appends the line of a record, if it carries one.
fn push_lent(out: &mut Text, moment: Moment, said: Option<LentKind<'_>>) -> Result<(), AllocError>
    ensures { OnOk result (out.new ≡ out.old ++ text_of (stamped moment (said_by said.entry))) }
{
    match said {
        Some(said) => push_line(out, moment, said),
        None => Ok(()),
    }
}

// The header at the start of octets.
fn header(octets: &[u8]) -> Option<CaptureHead>
    requires { 24 ≤ length octets.now }
    ensures { result ≡ head_of (take 24 octets.now) }
{
    match octets.first_chunk() {
        Some(bytes) => read_head(bytes),
        None => None,
    }
}

// Reads the header and then records, and appends their lines, until no more come.
fn import_records<S: Source, K: Sink>(
    source: &mut S,
    sink: &mut K,
    block: &mut Block,
    out: &mut Text,
) -> Result<Stopped, Unwritten>
    requires fresh { block.old ≡ record { held = []; room = 2 ^ 40 } }
    requires empty { out.old ≡ [] }

    ensures ended { IfOk result (λ stop. Ends stop (S.left source.old) (S.left source.new)
        (K.written sink.old) (K.written sink.new) out.new) }
    ensures cut { IfErr result (λ why. Cuts why (S.left source.old) (S.left source.new)
        (K.written sink.old) (K.written sink.new)) }

    ensures source_later { S.faults source.old ≤ S.faults source.new }
    ensures sink_later { K.faults sink.old ≤ K.faults sink.new }
    ensures read_fault { result ≡ Ok Stopped.ReadFault → Rises (S.faults source.old) (S.faults source.new) }
    ensures write_fault { result ≡ Err Unwritten.WriteFault → Rises (K.faults sink.old) (K.faults sink.new) }
{
    match block.fill(source, HEAD_LEN) {
        Fill::Enough => {}
        Fill::End => return Ok(Stopped::BadCapture),
        Fill::Full => return Ok(Stopped::TooLong),
        Fill::Fault => return Ok(Stopped::ReadFault),
    }
    let Some(head) = header(block.held()) else {
        return Ok(Stopped::BadCapture);
    };
    block.pass(HEAD_LEN);
    let mut first = None;
    let mut least = Moment(0);
    loop {
        match next_record(&head, source, block) {
            NextRecord::Record(one) => {
                let start = first_time(first, one.time);
                let moment = moment_of(start, least, one.time);
                take_record(&head, one, block.held(), moment, sink, out)?;
                block.pass(RECORD_LEN + one.captured as usize);
                first = Some(start);
                least = moment;
            }
            NextRecord::Broken => return Ok(Stopped::BadCapture),
            NextRecord::Cut => return Ok(Stopped::BadCapture),
            NextRecord::End => return Ok(Stopped::Ended),
            NextRecord::Full => return Ok(Stopped::TooLong),
            NextRecord::Fault => return Ok(Stopped::ReadFault),
        }
    }
}

// The time of the first record: this one, where none came before.
fn first_time(first: Option<u64>, time: u64) -> u64
    ensures { result ≡ unwrap_or first time }
{
    first.unwrap_or(time)
}

fn imported_at(stop: Stopped) -> Imported
    ensures { result ≡ imported_at stop }
{
    match stop {
        Stopped::Ended => Imported::Ended,
        Stopped::ReadFault => Imported::ReadFault,
        Stopped::TooLong => Imported::TooLong,
        Stopped::BadCapture => Imported::BadCapture,
    }
}

fn imported_without(why: Unwritten) -> Imported
    ensures { result ≡ imported_without why }
{
    match why {
        Unwritten::WriteFault => Imported::WriteFault,
        Unwritten::NoMemory => Imported::NoMemory,
    }
}

// Writes what still waits of the trace.
fn end_import<K: Sink>(stop: Stopped, sink: &mut K, out: &mut Text) -> Imported
    ensures runs { (start left old : Option (List ℕ)) → Ends stop start left old (K.written sink.old) out.old
        → Runs result start left old (K.written sink.new) }
    ensures read_fault { result ≡ Imported.ReadFault → stop ≡ Stopped.ReadFault }

    ensures later { K.faults sink.old ≤ K.faults sink.new }
    ensures write_fault { result ≡ Imported.WriteFault → Rises (K.faults sink.old) (K.faults sink.new) }
{
    match write_text(sink, out) {
        Ok(()) => imported_at(stop),
        Err(why) => imported_without(why),
    }
}

/// Reads a capture from the source, and writes its trace to the sink.
pub fn import<S: Source, K: Sink>(alloc: Global, source: &mut S, sink: &mut K) -> Imported
    // What is written is that of the ending, where source and sink tell their octets.
    ensures runs { Runs result (S.left source.old) (S.left source.new) (K.written sink.old) (K.written sink.new) }

    // Faults are those of the source and the sink.
    ensures source_later { S.faults source.old ≤ S.faults source.new }
    ensures sink_later { K.faults sink.old ≤ K.faults sink.new }
    ensures read_fault { result ≡ Imported.ReadFault → Rises (S.faults source.old) (S.faults source.new) }
    ensures write_fault { result ≡ Imported.WriteFault → Rises (K.faults sink.old) (K.faults sink.new) }
{
    let mut block = match Block::new(alloc) {
        Ok(block) => block,
        Err(AllocError) => return Imported::NoMemory,
    };
    let mut out = Text::new(alloc);
    match import_records(source, sink, &mut block, &mut out) {
        Ok(stop) => end_import(stop, sink, &mut out),
        Err(why) => imported_without(why),
    }
}
