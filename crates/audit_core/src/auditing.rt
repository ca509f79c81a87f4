//! An audit from its input to its finding.
ghost use Rattle.std.specs.Prelude.{◌≡◌, ◌≢◌, ◌≤◌, ◌^◌, ℕ, [], List, Option, Ok, false, IfOk, OnErr};
ghost use Rattle.pc_outside.specs.Faults.{Rises};
ghost use Rattle.pc_outside.specs.WhereTold.{WhereTold};
ghost use Rattle.audit_core.specs.Evidence.{EndsOf, HasHeardOf, weight_of};
ghost use Rattle.pc_outside.specs.InputRead.{Reached};
ghost use Rattle.audit_core.specs.Refuting.{FindsAt, number_found, told_text};
ghost use Rattle.audit_core.specs.Report.{Audits, ending_as};
ghost use Rattle.audit_core.specs.Setups.{IsSetup, setup_of};
ghost use Rattle.pc_outside.specs.Texts.{Text as Said};

use crate::NoMemory;
use crate::evidence::{Evidence, finding_of};
use crate::sentence::Refutation;
use crate::setup::Setup;
use crate::telling::push_break;
use pc_outside::{InputStop, LineBuf, LineRead, Sink, Source, WriteFault, read_line, write_whole};
use std::alloc::{AllocError, Global};
use text_fields::Text;

/// How an audit ended.
#[derive(Clone, Copy, Debug, PartialEq, Eq)]
pub enum Audited {
    /// The report is a lawful one of the trace; `yes` was written.
    Confirmed,
    /// It is refuted; `no` was written, and the number of what refutes it.
    Refuted,
    /// The source failed; nothing was written.
    ReadFault,
    /// The sink failed; a prefix of what is found was written.
    WriteFault,
    /// Memory ran out; nothing was written.
    NoMemory,
    /// A line has more than 132,000 octets; nothing was written.
    LineLong,
    /// The input has 2^40 octets or more; nothing was written.
    TooLong,
}

// Hears the lines of an input until no more come.
fn hear_lines<S: Source>(
    alloc: Global,
    source: &mut S,
    buf: &mut LineBuf,
    heard: &mut Evidence,
) -> Result<InputStop, NoMemory>
    requires fresh { buf.old ≡ record { line = []; last = false; buffered = []; room = 2 ^ 40 } }
    requires nothing { HasHeardOf heard.old [] }
    requires weight { weight_of heard.old ≡ 0 }

    ensures ended { IfOk result (λ stop. EndsOf stop (S.left source.old) (S.left source.new) heard.new) }
    ensures told { WhereTold (S.left source.old) (S.left source.new) (λ octets rest. Unit {0}) }
    ensures setup { heard.new.setup ≡ heard.old.setup }

    ensures later { S.faults source.old ≤ S.faults source.new }
    ensures fault { result ≡ Ok InputStop.ReadFault → Rises (S.faults source.old) (S.faults source.new) }
    ensures no_fault { result ≢ Ok InputStop.ReadFault → S.faults source.new ≡ S.faults source.old }
{
    loop {
        match read_line(source, buf) {
            LineRead::Line => {
                heard.take(alloc, buf.line())?;
                if buf.is_last() {
                    return Ok(InputStop::Ended);
                }
            }
            LineRead::End => return Ok(InputStop::Ended),
            LineRead::LineLong => return Ok(InputStop::LineLong),
            LineRead::TooLong => return Ok(InputStop::TooLong),
            LineRead::ReadFault => return Ok(InputStop::ReadFault),
        }
    }
}

// Hears a trace, and the report behind it, until no more lines come: what was heard, and why no more come.
fn hear_input<S: Source>(
    alloc: Global,
    setup: &Setup,
    source: &mut S,
) -> Result<(Evidence, InputStop), NoMemory>
    requires { IsSetup setup.now }
    ensures ended { IfOk result (λ told. EndsOf told.1 (S.left source.old) (S.left source.new) told.0) }
    ensures told { WhereTold (S.left source.old) (S.left source.new) (λ octets rest. Unit {0}) }
    ensures setup { IfOk result (λ told. told.0.setup ≡ setup.now) }

    ensures later { S.faults source.old ≤ S.faults source.new }
    ensures fault { IfOk result (λ told. told.1 ≡ InputStop.ReadFault
        → Rises (S.faults source.old) (S.faults source.new)) }

    // A read that fails is told, and none is tried again.
    ensures no_fault { IfOk result (λ told. told.1 ≢ InputStop.ReadFault
        → S.faults source.new ≡ S.faults source.old) }
    ensures no_fault_cut { OnErr result (S.faults source.new ≡ S.faults source.old) }
{
    let mut buf = LineBuf::new(alloc)?;
    let mut heard = Evidence::new(alloc, setup);
    let stop = hear_lines(alloc, source, &mut buf, &mut heard)?;
    Ok((heard, stop))
}

// The text of what is found, with its place if that is asked for.
fn text_of(alloc: Global, found: &Option<Refutation>, why: bool) -> Result<Text, NoMemory>
    ensures { IfOk result (λ text. text ≡ told_text why found.now) }
{
    let mut text = Text::new(alloc);
    match found {
        None => text.extend_from_slice(b"yes\n")?,
        Some(own) => {
            text.extend_from_slice(&[b'n', b'o', b' ', b'0' + own.sentence.number(), b'\n'])?;
            if why {
                push_break(&mut text, &own.place)?;
            }
        }
    }
    Ok(text)
}

// What an audit comes to, by what is found and whether it was written.
fn ending_of(found: &Option<Refutation>, written: Result<(), WriteFault>) -> Audited
    ensures { result ≡ ending_as (number_found found.now) written }
{
    match written {
        Err(WriteFault) => Audited::WriteFault,
        Ok(()) => match found {
            None => Audited::Confirmed,
            Some(_) => Audited::Refuted,
        },
    }
}

// What is found of what was heard, and its text.
fn told(alloc: Global, heard: Evidence, why: bool) -> Result<(Option<Refutation>, Text), NoMemory>
    requires { (texts : List Said) × HasHeardOf heard texts }
    ensures finds { (texts : List Said) → HasHeardOf heard texts
        → IfOk result (λ told. FindsAt (setup_of heard.setup) texts told.0) }
    ensures text { IfOk result (λ told. told.1 ≡ told_text why told.0) }
{
    let found = finding_of(alloc, heard)?;
    let text = text_of(alloc, &found, why)?;
    Ok((found, text))
}

// Writes what is found of what was heard.
fn judge<K: Sink>(alloc: Global, heard: Evidence, why: bool, sink: &mut K) -> Audited
    requires { (texts : List Said) × HasHeardOf heard texts }
    ensures audits { (start left : Option (List ℕ)) (texts : List Said) → HasHeardOf heard texts
        → WhereTold start left (λ octets rest. Reached InputStop.Ended octets rest texts)
        → Audits why result (setup_of heard.setup) start left (K.written sink.old) (K.written sink.new) }
    ensures read_fault { result ≡ Audited.ReadFault → ⊥ }
    ensures later { K.faults sink.old ≤ K.faults sink.new }
    ensures write_fault { result ≡ Audited.WriteFault → Rises (K.faults sink.old) (K.faults sink.new) }
{
    match told(alloc, heard, why) {
        Ok((found, text)) => ending_of(&found, write_whole(sink, text.as_slice())),
        Err(AllocError) => Audited::NoMemory,
    }
}

/// Reads a trace and its report from the source, and writes to the sink whether the report is a lawful one under the
/// setup: `yes`; or `no` and the number of the first sentence of the lawful run that it breaks, 1 to 6, or 0 where a
/// line of it is no entry; and behind that, if it is asked for, a line that tells the place.
pub fn audit<S: Source, K: Sink>(
    alloc: Global,
    setup: &Setup,
    why: bool,
    source: &mut S,
    sink: &mut K,
) -> Audited
    requires { IsSetup setup.now }

    // What is written is what is found, and where, if that is asked for, as far as source and sink tell their octets.
    ensures audits { Audits why result (setup_of setup.now) (S.left source.old) (S.left source.new)
        (K.written sink.old) (K.written sink.new) }

    // Faults are those of the source and the sink.
    ensures source_later { S.faults source.old ≤ S.faults source.new }
    ensures sink_later { K.faults sink.old ≤ K.faults sink.new }
    ensures read_fault { result ≡ Audited.ReadFault → Rises (S.faults source.old) (S.faults source.new) }
    ensures no_fault { result ≢ Audited.ReadFault → S.faults source.new ≡ S.faults source.old }
    ensures write_fault { result ≡ Audited.WriteFault → Rises (K.faults sink.old) (K.faults sink.new) }
{
    match hear_input(alloc, setup, source) {
        Ok((heard, InputStop::Ended)) => judge(alloc, heard, why, sink),
        Ok((_, InputStop::ReadFault)) => Audited::ReadFault,
        Ok((_, InputStop::LineLong)) => Audited::LineLong,
        Ok((_, InputStop::TooLong)) => Audited::TooLong,
        Err(AllocError) => Audited::NoMemory,
    }
}
