//! Fields of a text.
use crate::kinds::Kind;
use crate::line::Words;
use crate::shown::AnswerLine;
use crate::stop::CallStop;
use std::alloc::Global;
use text_fields::{
    Text, has_empty_field, next_piece, read_address, read_lower_octets, read_number, read_octets,
};

pub fn answer(
    alloc: Global,
    kind: Kind,
    words: &mut Words<'_>,
    line: &mut AnswerLine,
) -> Result<(), CallStop> {
    match kind {
        Kind::Number => number(alloc, words, line),
        Kind::Dotted => dotted(alloc, words, line),
        Kind::OctetsOf => octets(alloc, words, line),
        Kind::LowerOctetsOf => lower_octets(alloc, words, line),
        Kind::Cut => pieces(alloc, words, line),
        _ => fields(alloc, words, line),
    }
}

fn number(alloc: Global, words: &mut Words<'_>, line: &mut AnswerLine) -> Result<(), CallStop> {
    let (least, last) = (words.number(u64::MAX)?, words.number(u64::MAX)?);
    let text = words.octets(alloc)?;
    line.shown_or(&read_number(&text, least, last), "none");
    Ok(())
}

fn dotted(alloc: Global, words: &mut Words<'_>, line: &mut AnswerLine) -> Result<(), CallStop> {
    let text = words.octets(alloc)?;
    line.shown_or(&read_address(&text), "none");
    Ok(())
}

fn octets(alloc: Global, words: &mut Words<'_>, line: &mut AnswerLine) -> Result<(), CallStop> {
    let text = words.octets(alloc)?;
    shown(read_octets(alloc, &text)?, line);
    Ok(())
}

fn lower_octets(
    alloc: Global,
    words: &mut Words<'_>,
    line: &mut AnswerLine,
) -> Result<(), CallStop> {
    let text = words.octets(alloc)?;
    shown(read_lower_octets(alloc, &text)?, line);
    Ok(())
}

fn shown(octets: Option<Vec<u8>>, line: &mut AnswerLine) {
    match octets {
        Some(octets) => line.octets(&octets),
        None => line.word("none"),
    }
}

fn pieces(alloc: Global, words: &mut Words<'_>, line: &mut AnswerLine) -> Result<(), CallStop> {
    let at = words.octet()?;
    let octets = words.octets(alloc)?;
    let mut left = Some(octets.as_slice());
    for _ in 0..u64::MAX {
        let Some((piece, behind)) = next_piece(at, left) else {
            break;
        };
        line.octets(piece);
        left = behind;
    }
    line.word("space");
    line.shown(&has_empty_field(&octets));
    Ok(())
}

fn fields(alloc: Global, words: &mut Words<'_>, line: &mut AnswerLine) -> Result<(), CallStop> {
    let mut text = Text::new(alloc);
    text.push_field(words.word())?;
    text.push_number(words.number(u64::MAX)?)?;
    text.push_address(words.long()?)?;
    text.push_octets(&words.octets(alloc)?)?;
    line.chars(text.as_slice());
    Ok(())
}
