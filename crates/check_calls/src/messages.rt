//! GTPv2-C: messages and information elements.
use crate::kinds::Kind;
use crate::line::Words;
use crate::shown::AnswerLine;
use crate::stop::CallStop;
use gtpv2_ie::{Ie, IeBad, IeKind, IeValue, read_ies, read_value, write_ie};
use gtpv2_msg::{CBad, Msg, read, refusal, write};
use std::alloc::Global;

pub fn answer(
    alloc: Global,
    kind: Kind,
    words: &mut Words<'_>,
    line: &mut AnswerLine,
) -> Result<(), CallStop> {
    match kind {
        Kind::Gtpv2 => message(alloc, words, line),
        Kind::First => first(alloc, words, line),
        Kind::Contexts => contexts(alloc, words, line),
        Kind::Ie => element(alloc, words, line),
        Kind::Value => value(alloc, words, line),
        _ => elements(alloc, words, line),
    }
}

fn message(alloc: Global, words: &mut Words<'_>, line: &mut AnswerLine) -> Result<(), CallStop> {
    told(alloc, &words.octets(alloc)?, line)
}

fn told(alloc: Global, octets: &[u8], line: &mut AnswerLine) -> Result<(), CallStop> {
    match read(alloc, octets) {
        Ok(message) => written(alloc, &message, line),
        Err(CBad::NoMemory) => Err(CallStop::NoMemory),
        Err(bad) => {
            let reply = refusal(alloc, octets, &bad)?;
            fault(bad, line);
            answered(reply, line);
            Ok(())
        }
    }
}

/// The message written again, of its copy.
fn written(alloc: Global, message: &Msg, line: &mut AnswerLine) -> Result<(), CallStop> {
    let copy = message.try_clone()?;
    if copy != *message {
        return Err(CallStop::Differ);
    }
    line.word("ok");
    line.octets(&write(alloc, &copy)?);
    Ok(())
}

fn fault(bad: CBad, line: &mut AnswerLine) {
    match bad {
        CBad::Missing { kind, instance } => {
            line.word("err Missing");
            line.shown(&kind);
            line.shown(&instance);
        }
        CBad::Incorrect { kind, instance } => {
            line.word("err Incorrect");
            line.shown(&kind);
            line.shown(&instance);
        }
        _ => line.fault(&bad),
    }
}

fn answered(reply: Option<Vec<u8>>, line: &mut AnswerLine) {
    match reply {
        Some(reply) => line.octets(&reply),
        None => line.octets(&[]),
    }
}

/// The message that the next word is.
fn message_of(alloc: Global, words: &mut Words<'_>) -> Result<Msg, CallStop> {
    let octets = words.octets(alloc)?;
    match read(alloc, &octets) {
        Ok(message) => Ok(message),
        Err(CBad::NoMemory) => Err(CallStop::NoMemory),
        Err(_) => Err(CallStop::Line),
    }
}

fn first(alloc: Global, words: &mut Words<'_>, line: &mut AnswerLine) -> Result<(), CallStop> {
    let kind = IeKind::from_octet(words.octet()?).ok_or(CallStop::Line)?;
    let instance = words.octet()?;
    let message = message_of(alloc, words)?;
    printed(message.first(kind, instance), line);
    Ok(())
}

fn printed(value: Option<&IeValue>, line: &mut AnswerLine) {
    match value {
        Some(value) => line.debugged(value),
        None => line.word("none"),
    }
}

fn contexts(alloc: Global, words: &mut Words<'_>, line: &mut AnswerLine) -> Result<(), CallStop> {
    let message = message_of(alloc, words)?;
    line.word("ok");
    for context in message.contexts() {
        line.shown_or(&context.ebi, "-");
    }
    Ok(())
}

fn element(alloc: Global, words: &mut Words<'_>, line: &mut AnswerLine) -> Result<(), CallStop> {
    let kind = words.octet()?;
    let instance = words.number(15)? as u8;
    let octets = words.octets(alloc)?;
    if octets.len() > 0xffff {
        return Err(CallStop::Line);
    }
    match read_value(alloc, kind, &octets)? {
        Some(value) => element_written(alloc, kind, &Ie { instance, value }, line),
        None => {
            line.word("none");
            Ok(())
        }
    }
}

/// The element written again, of its copy.
fn element_written(
    alloc: Global,
    kind: u8,
    element: &Ie,
    line: &mut AnswerLine,
) -> Result<(), CallStop> {
    let copy = element.try_clone()?;
    if copy != *element || copy.value.kind().octet() != kind {
        return Err(CallStop::Differ);
    }
    line.word("ok");
    line.octets(&write_ie(alloc, &copy)?);
    Ok(())
}

fn value(alloc: Global, words: &mut Words<'_>, line: &mut AnswerLine) -> Result<(), CallStop> {
    let kind = words.octet()?;
    let octets = words.octets(alloc)?;
    let value = read_value(alloc, kind, &octets)?;
    printed(value.as_ref(), line);
    Ok(())
}

fn elements(alloc: Global, words: &mut Words<'_>, line: &mut AnswerLine) -> Result<(), CallStop> {
    let octets = words.octets(alloc)?;
    match read_ies(alloc, &octets) {
        Ok(places) => {
            line.word("ok");
            for ie in &places {
                line.numbers('.', &[u64::from(ie.kind), u64::from(ie.instance)]);
                line.mark('.');
                line.octets(octets.get(ie.from..ie.to).unwrap_or(&[]));
            }
            Ok(())
        }
        Err(IeBad::NoMemory) => Err(CallStop::NoMemory),
        Err(bad) => {
            line.fault(&bad);
            Ok(())
        }
    }
}
