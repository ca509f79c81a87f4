//! Why something is refused, as a sentence.
use crate::filters::filters_of;
use crate::kinds::named;
use crate::line::{Words, octets_of};
use crate::shown::AnswerLine;
use crate::stop::CallStop;
use gtpv2_ie::read_ies;
use ipv4_packet::Ip4;
use std::alloc::Global;
use tft_codec::apply;

/// What is refused.
#[derive(Clone, Copy)]
enum Refused {
    Gtpu,
    Gtpv2,
    Ies,
    Ip,
    Tft,
}

const REFUSED: [(&str, Refused); 5] = [
    ("gtpu", Refused::Gtpu),
    ("gtpv2", Refused::Gtpv2),
    ("ies", Refused::Ies),
    ("ip", Refused::Ip),
    ("tft", Refused::Tft),
];

pub fn answer(alloc: Global, words: &mut Words<'_>, line: &mut AnswerLine) -> Result<(), CallStop> {
    let kind = words.word();
    if kind == b"filters".as_slice() {
        return why_not_applied(alloc, words.word(), line);
    }
    let refused = named(&REFUSED, kind)?;
    let octets = words.octets(alloc)?;
    why(alloc, refused, &octets, line);
    Ok(())
}

fn why(alloc: Global, refused: Refused, octets: &[u8], line: &mut AnswerLine) {
    match refused {
        Refused::Gtpu => why_no_message(octets, line),
        Refused::Gtpv2 => line.shown_or(&gtpv2_msg::read(alloc, octets).err(), "none"),
        Refused::Ies => line.shown_or(&read_ies(alloc, octets).err(), "none"),
        Refused::Ip => why_no_packet(octets, line),
        Refused::Tft => line.shown_or(&tft_codec::read(alloc, octets).err(), "none"),
    }
}

fn why_no_message(octets: &[u8], line: &mut AnswerLine) {
    match gtpu_codec::read(octets) {
        Ok(_) => line.word("none"),
        Err(bad) => line.shown(&bad),
    }
}

fn why_no_packet(octets: &[u8], line: &mut AnswerLine) {
    match Ip4::read(octets) {
        Ok(_) => line.word("none"),
        Err(bad) => line.shown(&bad),
    }
}

/// Why the second of two templates isn't applied to the filters of the first.
fn why_not_applied(alloc: Global, templates: &[u8], line: &mut AnswerLine) -> Result<(), CallStop> {
    let mut parts = Words::parts(templates, b',');
    let list = filters_of(alloc, parts.word(), &mut AnswerLine::new(alloc))?;
    let octets = octets_of(alloc, parts.word())?;
    let template = tft_codec::read(alloc, &octets).ok().ok_or(CallStop::Line)?;
    line.shown_or(&apply(alloc, &list, &template).err(), "none");
    Ok(())
}
