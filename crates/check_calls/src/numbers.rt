//! Numbers of octets, slots and what follows from them, and the address book.
use crate::kinds::Kind;
use crate::line::{Words, number_of};
use crate::shown::AnswerLine;
use crate::stop::CallStop;
use address_book::{AddressBook, AdmitNo};
use pc_base::{
    Addr4, Imsi, LAST_BEARER, LAST_SLOT, Slot, Teid, TeidUse, addr_of, slot_of_addr, slot_of_teid,
    teid_of,
};
use std::alloc::Global;
use wire_octets::{be16, be16_octets, be24, be24_octets, be32, be32_octets, be40, be40_octets};

pub fn answer(
    alloc: Global,
    kind: Kind,
    words: &mut Words<'_>,
    line: &mut AnswerLine,
) -> Result<(), CallStop> {
    match kind {
        Kind::At => numbers_at(alloc, words, line),
        Kind::Octets => octets(words, line),
        Kind::Slot => slot(words, line),
        Kind::Teid => teid(words, line),
        Kind::Address => address(words, line),
        Kind::Imsi => imsi(alloc, words, line),
        Kind::Printed => printed(words, line),
        Kind::Admit => admitted(alloc, words, line),
        _ => Err(CallStop::Line),
    }
}

fn numbers_at(alloc: Global, words: &mut Words<'_>, line: &mut AnswerLine) -> Result<(), CallStop> {
    let at = words.number(u64::MAX)? as usize;
    let octets = words.octets(alloc)?;
    line.shown_or(&be16(&octets, at), "-");
    line.shown_or(&be24(&octets, at), "-");
    line.shown_or(&be32(&octets, at), "-");
    line.shown_or(&be40(&octets, at), "-");
    Ok(())
}

fn octets(words: &mut Words<'_>, line: &mut AnswerLine) -> Result<(), CallStop> {
    let number = words.number(u64::MAX)?;
    let long = (number % 0x1_0000_0000) as u32;
    line.octets(&be16_octets((number % 0x1_0000) as u16));
    line.octets(&be24_octets(long));
    line.octets(&be32_octets(long));
    line.octets(&be40_octets(number));
    Ok(())
}

fn slot(words: &mut Words<'_>, line: &mut AnswerLine) -> Result<(), CallStop> {
    let number = words.number(u64::from(LAST_SLOT))? as u32;
    if number > LAST_SLOT {
        return Err(CallStop::Line);
    }
    let slot = Slot(number);
    line.shown(&addr_of(slot).0);
    line.shown(&teid_of(slot, TeidUse::Control).0);
    for index in 0..LAST_BEARER + 1 {
        line.shown(&teid_of(slot, TeidUse::Bearer(index)).0);
    }
    Ok(())
}

fn teid(words: &mut Words<'_>, line: &mut AnswerLine) -> Result<(), CallStop> {
    match slot_of_teid(Teid(words.long()?)) {
        Some((slot, usage)) => {
            line.shown(&slot.0);
            match usage {
                TeidUse::Control => line.word("control"),
                TeidUse::Bearer(index) => line.shown(&index),
            }
        }
        None => line.word("none"),
    }
    Ok(())
}

fn address(words: &mut Words<'_>, line: &mut AnswerLine) -> Result<(), CallStop> {
    match slot_of_addr(Addr4(words.long()?)) {
        Some(slot) => line.shown(&slot.0),
        None => line.word("none"),
    }
    Ok(())
}

fn imsi(alloc: Global, words: &mut Words<'_>, line: &mut AnswerLine) -> Result<(), CallStop> {
    let digits = words.octets(alloc)?;
    match Imsi::of(&digits) {
        Some(imsi) => {
            if imsi.digits() != digits.as_slice() {
                return Err(CallStop::Differ);
            }
            line.shown(&imsi);
        }
        None => line.word("none"),
    }
    Ok(())
}

fn printed(words: &mut Words<'_>, line: &mut AnswerLine) -> Result<(), CallStop> {
    let moment = words.moment()?;
    let low = (moment.0 % 0x1_0000_0000) as u32;
    line.shown(&moment);
    line.shown(&Addr4(low));
    line.shown(&Teid(low));
    Ok(())
}

/// What a new address book answers.
fn admitted(alloc: Global, words: &mut Words<'_>, line: &mut AnswerLine) -> Result<(), CallStop> {
    let mut book = AddressBook::new(alloc);
    for _ in 0..u64::MAX {
        let Some(word) = words.next_word() else {
            break;
        };
        admission(alloc, &mut book, word, line)?;
    }
    line.shown(&book.len());
    Ok(())
}

fn admission(
    alloc: Global,
    book: &mut AddressBook,
    step: &[u8],
    line: &mut AnswerLine,
) -> Result<(), CallStop> {
    match step.split_first() {
        Some((b'*', count)) => many(alloc, book, number_of(count, 100_000)?, line),
        Some((b'?', digits)) => found(book, digits, line),
        _ => one(book, step, line),
    }
}

fn one(book: &mut AddressBook, digits: &[u8], line: &mut AnswerLine) -> Result<(), CallStop> {
    match book.admit(imsi_of(digits)?) {
        Ok(slot) => line.shown(&slot.0),
        Err(AdmitNo::NoMemory) => return Err(CallStop::NoMemory),
        Err(no) => line.shown(&format_args!("{no:?} ({no})")),
    }
    Ok(())
}

fn imsi_of(digits: &[u8]) -> Result<Imsi, CallStop> {
    Imsi::of(digits).ok_or(CallStop::Line)
}

fn found(book: &AddressBook, digits: &[u8], line: &mut AnswerLine) -> Result<(), CallStop> {
    match book.slot_of_imsi(&imsi_of(digits)?) {
        Some(slot) => line.shown(&slot.0),
        None => line.word("-"),
    }
    Ok(())
}

/// How many of so many IMSIs get the slot of their number.
fn many(
    alloc: Global,
    book: &mut AddressBook,
    count: u64,
    line: &mut AnswerLine,
) -> Result<(), CallStop> {
    let mut right: u64 = 0;
    for number in 0..count {
        let text = format!(in alloc; "00101{number:010}")?;
        match book.admit(imsi_of(text.as_bytes())?) {
            Ok(slot) if u64::from(slot.0) == number => right = right.saturating_add(1),
            Err(AdmitNo::NoMemory) => return Err(CallStop::NoMemory),
            _ => {}
        }
    }
    line.shown(&right);
    Ok(())
}
