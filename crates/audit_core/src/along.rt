//! An audit that goes along: of each piece it is said that all is lawful so far, before the next one is heard.

ghost use Rattle.std.specs.Prelude.{◌≡◌, ◌≢◌, ℕ, ◌+◌, ◌<◌, ◌≤◌, ◌^◌, ◌++◌, ◌∷◌, [], List, false, length};
ghost use Rattle.std.specs.Prelude.{IfNone, IfOk, IfSome, IsTrue, OnOk, Some, if◌then◌else◌, nat_lt, true};
ghost use Rattle.lawful_run.specs.Setup.{Setup as Under};
ghost use Rattle.pc_outside.specs.Faults.{Rises};
ghost use Rattle.pc_outside.specs.Texts.{Text as Said};
ghost use Rattle.audit_core.specs.Along.{Behind, GoesAlong, lawful_text, none_behind, refuted_text, turn};
ghost use Rattle.audit_core.specs.Following.{EndsSo, Follows, GoesOnSo, HearsPiece, StopsSo, TellsEnd, ends_as};
ghost use Rattle.audit_core.specs.Following.{goes_as, weight_of};
ghost use Rattle.audit_core.specs.Ranks.{number_of};
ghost use Rattle.audit_core.specs.Setups.{IsSetup, setup_of};

use crate::NoMemory;
use crate::auditing::Audited;
use crate::pieces::{Pieces, TURN};
use crate::sentence::Refutation;
use crate::setup::Setup;
use crate::telling::push_break;
use pc_outside::{LineBuf, LineRead, Sink, Source, WriteFault, read_line, write_whole};
use std::alloc::{AllocError, Global};
use text_fields::Text;

// `lawful EPOCH LINE`
fn push_lawful(text: &mut Text, epochs: u64, lines: u64) -> Result<(), NoMemory>
    ensures { OnOk result (text.new ≡ text.old ++ lawful_text epochs lines) }
{
    text.extend_from_slice(b"lawful")?;
    text.push_number(epochs)?;
    text.push_number(lines)?;
    text.push(b'\n')
}

// The same of the last piece, which may have no lines.
fn push_last(text: &mut Text, epochs: u64, before: u64, lines: u64) -> Result<(), NoMemory>
    ensures { OnOk result (text.new
        ≡ text.old ++ (if nat_lt before lines then lawful_text epochs lines else [])) }
{
    if before < lines {
        push_lawful(text, epochs, lines)
    } else {
        Ok(())
    }
}

fn push_refuted(text: &mut Text, found: &Refutation, why: bool) -> Result<(), NoMemory>
    ensures { OnOk result (text.new
        ≡ text.old ++ refuted_text why (number_of found.now.sentence) found.now.place) }
{
    text.extend_from_slice(&[b'n', b'o', b' ', b'0' + found.sentence.number(), b'\n'])?;
    if why {
        push_break(text, &found.place)
    } else {
        Ok(())
    }
}

// The end of a piece: whether it is lawful, and the text of that.
fn end_piece(alloc: Global, pieces: &mut Pieces, why: bool) -> Result<(bool, Text), NoMemory>
    requires { (known : Behind) × (piece : List Said) × HearsPiece pieces.old known piece }
    ensures told { (known : Behind) (piece : List Said) → HearsPiece pieces.old known piece
        → IfOk result (λ told. TellsEnd false why (setup_of pieces.old.setup) known piece told.0 told.1 pieces.new) }
    ensures weight { (known : Behind) (piece : List Said) → HearsPiece pieces.old known piece
        → IfOk result (λ told. IsTrue told.0 → weight_of pieces.new ≤ weight_of pieces.old) }
    ensures setup { pieces.new.setup ≡ pieces.old.setup }
{
    let mut text = Text::new(alloc);
    let found = pieces.end(alloc, false)?;
    match found {
        None => {
            push_lawful(&mut text, pieces.epochs, pieces.lines)?;
            Ok((true, text))
        }
        Some(own) => {
            push_refuted(&mut text, &own, why)?;
            Ok((false, text))
        }
    }
}

// The end of the last one.
fn end_last(alloc: Global, pieces: &mut Pieces, why: bool) -> Result<(bool, Text), NoMemory>
    requires { (known : Behind) × (piece : List Said) × HearsPiece pieces.old known piece }
    ensures told { (known : Behind) (piece : List Said) → HearsPiece pieces.old known piece
        → IfOk result (λ told. TellsEnd true why (setup_of pieces.old.setup) known piece told.0 told.1 pieces.new) }
{
    let mut text = Text::new(alloc);
    let before = pieces.lines;
    let found = pieces.end(alloc, true)?;
    match found {
        None => {
            push_last(&mut text, pieces.epochs, before, pieces.lines)?;
            text.extend_from_slice(b"yes\n")?;
            Ok((true, text))
        }
        Some(own) => {
            push_refuted(&mut text, &own, why)?;
            Ok((false, text))
        }
    }
}

// How all ends behind a piece, if it does, by whether it is lawful and whether that was written.
fn goes_as(lawful: bool, written: Result<(), WriteFault>) -> Option<Audited>
    ensures { result ≡ goes_as lawful written }
{
    match written {
        Err(WriteFault) => Some(Audited::WriteFault),
        Ok(()) => { if lawful { None } else { Some(Audited::Refuted) } }
    }
}

// The same behind the last one.
fn ends_as(lawful: bool, written: Result<(), WriteFault>) -> Audited
    ensures { result ≡ ends_as lawful written }
{
    match written {
        Err(WriteFault) => Audited::WriteFault,
        Ok(()) => {
            if lawful {
                Audited::Confirmed
            } else {
                Audited::Refuted
            }
        }
    }
}

// The next piece begins: how all ends, if it does.
fn turn<K: Sink>(alloc: Global, pieces: &mut Pieces, why: bool, sink: &mut K) -> Option<Audited>
    requires { (under : Under) × (texts : List Said) × (said : List ℕ) × Follows under pieces.old texts said }
    ensures goes_on { (under : Under) (texts : List Said) (said : List ℕ) → Follows under pieces.old texts said
        → IfNone result (GoesOnSo under pieces.new (texts ++ turn ∷ []) said
        (K.written sink.old) (K.written sink.new)) }
    ensures stops { (under : Under) (texts : List Said) (said : List ℕ) → Follows under pieces.old texts said
        → IfSome result (λ ending. StopsSo ending why under (texts ++ turn ∷ []) said
        (K.written sink.old) (K.written sink.new)) }
    ensures weight { (under : Under) (texts : List Said) (said : List ℕ) → Follows under pieces.old texts said
        → IfNone result (weight_of pieces.new ≤ weight_of pieces.old) }
    ensures setup { pieces.new.setup ≡ pieces.old.setup }
    ensures later { K.faults sink.old ≤ K.faults sink.new }
    ensures fault { result ≡ Some Audited.WriteFault → Rises (K.faults sink.old) (K.faults sink.new) }
    ensures no_read { result ≡ Some Audited.ReadFault → ⊥ }
{
    match end_piece(alloc, pieces, why) {
        Ok((lawful, text)) => goes_as(lawful, write_whole(sink, text.as_slice())),
        Err(AllocError) => Some(Audited::NoMemory),
    }
}

// No more lines come.
fn finish<K: Sink>(alloc: Global, pieces: &mut Pieces, why: bool, sink: &mut K) -> Audited
    requires { (under : Under) × (texts : List Said) × (said : List ℕ) × Follows under pieces.old texts said }
    ensures ends { (under : Under) (texts : List Said) (said : List ℕ) → Follows under pieces.old texts said
        → EndsSo result why under texts said (K.written sink.old) (K.written sink.new) }
    ensures later { K.faults sink.old ≤ K.faults sink.new }
    ensures fault { result ≡ Audited.WriteFault → Rises (K.faults sink.old) (K.faults sink.new) }
    ensures no_read { result ≡ Audited.ReadFault → ⊥ }
{
    match end_last(alloc, pieces, why) {
        Ok((lawful, text)) => ends_as(lawful, write_whole(sink, text.as_slice())),
        Err(AllocError) => Audited::NoMemory,
    }
}

// The next line of the input: how all ends, if it does.
fn hear<K: Sink>(
    alloc: Global,
    pieces: &mut Pieces,
    why: bool,
    text: &[u8],
    sink: &mut K,
) -> Option<Audited>
    requires few { weight_of pieces.old < 2 ^ 40 + 1 }
    requires follows { (under : Under) × (texts : List Said) × (said : List ℕ) × Follows under pieces.old texts said }
    ensures goes_on { (under : Under) (texts : List Said) (said : List ℕ) → Follows under pieces.old texts said
        → IfNone result (GoesOnSo under pieces.new (texts ++ text.now ∷ []) said
        (K.written sink.old) (K.written sink.new)) }
    ensures stops { (under : Under) (texts : List Said) (said : List ℕ) → Follows under pieces.old texts said
        → IfSome result (λ ending. StopsSo ending why under (texts ++ text.now ∷ []) said
        (K.written sink.old) (K.written sink.new)) }
    ensures weight { (under : Under) (texts : List Said) (said : List ℕ) → Follows under pieces.old texts said
        → IfNone result (weight_of pieces.new ≤ weight_of pieces.old + length text.now + 1) }
    ensures setup { pieces.new.setup ≡ pieces.old.setup }
    ensures later { K.faults sink.old ≤ K.faults sink.new }
    ensures fault { result ≡ Some Audited.WriteFault → Rises (K.faults sink.old) (K.faults sink.new) }
    ensures no_read { result ≡ Some Audited.ReadFault → ⊥ }
{
    if text == TURN {
        return turn(alloc, pieces, why, sink);
    }
    match pieces.take(alloc, text) {
        Ok(()) => None,
        Err(AllocError) => Some(Audited::NoMemory),
    }
}

fn go_along<S: Source, K: Sink>(
    alloc: Global,
    pieces: &mut Pieces,
    why: bool,
    source: &mut S,
    buf: &mut LineBuf,
    sink: &mut K,
) -> Audited
    requires fresh { buf.old ≡ record { line = []; last = false; buffered = []; room = 2 ^ 40 } }
    requires nothing { HearsPiece pieces.old none_behind [] }
    requires weight { weight_of pieces.old ≡ 0 }
    ensures goes { GoesAlong why result (setup_of pieces.old.setup) (S.left source.old) (S.left source.new)
        (K.written sink.old) (K.written sink.new) }
    ensures source_later { S.faults source.old ≤ S.faults source.new }
    ensures sink_later { K.faults sink.old ≤ K.faults sink.new }
    ensures read_fault { result ≡ Audited.ReadFault → Rises (S.faults source.old) (S.faults source.new) }
    ensures no_fault { result ≢ Audited.ReadFault → S.faults source.new ≡ S.faults source.old }
    ensures write_fault { result ≡ Audited.WriteFault → Rises (K.faults sink.old) (K.faults sink.new) }
{
    loop {
        match read_line(source, buf) {
            LineRead::Line => {
                let ending = hear(alloc, pieces, why, buf.line(), sink);
                if let Some(ending) = ending {
                    return ending;
                }
                if buf.is_last() {
                    return finish(alloc, pieces, why, sink);
                }
            }
            LineRead::End => return finish(alloc, pieces, why, sink),
            LineRead::LineLong => return Audited::LineLong,
            LineRead::TooLong => return Audited::TooLong,
            LineRead::ReadFault => return Audited::ReadFault,
        }
    }
}

/// Reads a trace and its report from the source in pieces: the lines of one epoch, `REPORT`, the entries of that epoch,
/// `TRACE`, the lines of the next, and so on; the open counters stand in the last piece. Behind each lawful piece it
/// writes `lawful`, the number of the epoch and of its last line, and at the end `yes`; at the first piece that isn't,
/// as `audit`, `no` and the number of the first sentence that it breaks, and reads no more.
pub fn audit_along<S: Source, K: Sink>(
    alloc: Global,
    setup: &Setup,
    why: bool,
    source: &mut S,
    sink: &mut K,
) -> Audited
    requires { IsSetup setup.now }

    // What is written is what is found of the pieces, one after another, as far as source and sink tell their octets.
    ensures goes { GoesAlong why result (setup_of setup.now) (S.left source.old) (S.left source.new)
        (K.written sink.old) (K.written sink.new) }

    // Faults are those of the source and the sink.
    ensures source_later { S.faults source.old ≤ S.faults source.new }
    ensures sink_later { K.faults sink.old ≤ K.faults sink.new }
    ensures read_fault { result ≡ Audited.ReadFault → Rises (S.faults source.old) (S.faults source.new) }
    ensures no_fault { result ≢ Audited.ReadFault → S.faults source.new ≡ S.faults source.old }
    ensures write_fault { result ≡ Audited.WriteFault → Rises (K.faults sink.old) (K.faults sink.new) }
{
    let mut pieces = Pieces::new(alloc, setup);
    match LineBuf::new(alloc) {
        Ok(mut buf) => go_along(alloc, &mut pieces, why, source, &mut buf, sink),
        Err(AllocError) => Audited::NoMemory,
    }
}
