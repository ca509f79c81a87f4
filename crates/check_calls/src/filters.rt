//! Traffic flow templates, and what packets fit them.
use crate::kinds::Kind;
use crate::line::{Words, number_of, octets_of};
use crate::shown::AnswerLine;
use crate::stop::CallStop;
use ipv4_packet::Ip4;
use std::alloc::Global;
use tft_codec::{
    BearerFilters, Filter, Filters, PacketFilters, TBad, Tft, TftNo, apply, read, write,
};
use tft_match::{Direction, choose, matches};

pub fn answer(
    alloc: Global,
    kind: Kind,
    words: &mut Words<'_>,
    line: &mut AnswerLine,
) -> Result<(), CallStop> {
    match kind {
        Kind::Tft => template(alloc, words, line),
        Kind::Apply => applied(alloc, words, line),
        Kind::Match => matched(alloc, words, line),
        _ => chosen(alloc, words, line),
    }
}

fn template(alloc: Global, words: &mut Words<'_>, line: &mut AnswerLine) -> Result<(), CallStop> {
    let octets = words.octets(alloc)?;
    match read(alloc, &octets) {
        Ok(template) => written(alloc, &template, line),
        Err(TBad::NoMemory) => Err(CallStop::NoMemory),
        Err(bad) => {
            line.fault(&bad);
            Ok(())
        }
    }
}

/// The template written again, of its copy.
fn written(alloc: Global, template: &Tft, line: &mut AnswerLine) -> Result<(), CallStop> {
    let copy = template.try_clone()?;
    if copy != *template {
        return Err(CallStop::Differ);
    }
    line.word("ok");
    line.octets(&write(alloc, &copy)?);
    Ok(())
}

/// The list that templates make one behind another, and a word for each.
pub fn filters_of(
    alloc: Global,
    templates: &[u8],
    line: &mut AnswerLine,
) -> Result<Filters, CallStop> {
    let mut list = Filters::new(alloc);
    let mut parts = Words::parts(templates, b',');
    for _ in 0..u64::MAX {
        let Some(word) = parts.next_word() else {
            break;
        };
        apply_one(alloc, &mut list, word, line)?;
    }
    Ok(list)
}

fn apply_one(
    alloc: Global,
    list: &mut Filters,
    word: &[u8],
    line: &mut AnswerLine,
) -> Result<(), CallStop> {
    let octets = octets_of(alloc, word)?;
    match read(alloc, &octets) {
        Ok(template) => apply_to(alloc, list, &template, line),
        Err(TBad::NoMemory) => Err(CallStop::NoMemory),
        Err(bad) => {
            line.debugged(&bad);
            Ok(())
        }
    }
}

fn apply_to(
    alloc: Global,
    list: &mut Filters,
    template: &Tft,
    line: &mut AnswerLine,
) -> Result<(), CallStop> {
    match apply(alloc, list, template) {
        Ok(filters) => {
            *list = filters;
            line.word("ok");
            Ok(())
        }
        Err(TftNo::NoMemory) => Err(CallStop::NoMemory),
        Err(no) => {
            line.debugged(&no);
            Ok(())
        }
    }
}

fn applied(alloc: Global, words: &mut Words<'_>, line: &mut AnswerLine) -> Result<(), CallStop> {
    let list = filters_of(alloc, words.word(), line)?;
    line.word("=");
    for filter in list.as_slice() {
        entry(alloc, filter, line)?;
    }
    Ok(())
}

/// A filter as it is written in a template that creates it alone.
fn entry(alloc: Global, filter: &Filter, line: &mut AnswerLine) -> Result<(), CallStop> {
    let one = Vec::from_array(alloc, [filter.try_clone()?])?;
    let filters = PacketFilters::of(one).ok_or(CallStop::Differ)?;
    let text = write(alloc, &Tft::Create(filters))?;
    line.octets(text.get(1..).unwrap_or(&[]));
    Ok(())
}

fn matched(alloc: Global, words: &mut Words<'_>, line: &mut AnswerLine) -> Result<(), CallStop> {
    let direction = direction_of(words.word())?;
    let list = filters_of(alloc, words.word(), &mut AnswerLine::new(alloc))?;
    let octets = words.octets(alloc)?;
    match Ip4::read(&octets) {
        Ok(packet) => {
            line.word("fits ");
            for filter in list.as_slice() {
                line.bit(matches(filter, &packet, direction));
            }
        }
        Err(bad) => line.fault(&bad),
    }
    Ok(())
}

fn direction_of(word: &[u8]) -> Result<Direction, CallStop> {
    match word {
        b"up" => Ok(Direction::Up),
        b"down" => Ok(Direction::Down),
        _ => Err(CallStop::Line),
    }
}

fn chosen(alloc: Global, words: &mut Words<'_>, line: &mut AnswerLine) -> Result<(), CallStop> {
    let octets = words.octets(alloc)?;
    match Ip4::read(&octets) {
        Ok(packet) => {
            let bearers = bearers_of(alloc, words)?;
            line.shown_or(&choose(&bearers, &packet), "none");
        }
        Err(bad) => line.fault(&bad),
    }
    Ok(())
}

fn bearers_of(alloc: Global, words: &mut Words<'_>) -> Result<Vec<BearerFilters>, CallStop> {
    let mut bearers = Vec::new(alloc);
    for _ in 0..u64::MAX {
        let Some(word) = words.next_word() else {
            break;
        };
        let index = number_of(word, 0xff)? as u8;
        let filters = filters_in(alloc, words.word())?;
        bearers.push(BearerFilters { index, filters })?;
    }
    Ok(bearers)
}

/// The list that templates make, of which `.` is none.
fn filters_in(alloc: Global, templates: &[u8]) -> Result<Filters, CallStop> {
    if templates == b".".as_slice() {
        Ok(Filters::new(alloc))
    } else {
        filters_of(alloc, templates, &mut AnswerLine::new(alloc))
    }
}
