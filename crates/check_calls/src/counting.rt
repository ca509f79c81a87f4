//! Policing, and charging.
use crate::kinds::Kind;
use crate::line::Words;
use crate::shown::AnswerLine;
use crate::stop::CallStop;
use charging_book::{Book, ChargeRow, Open, Piece, Posting, Why};
use pc_base::{Kbps, Moment};
use rate_policer::{Bucket, Cost, conforms};
use std::alloc::Global;

pub fn answer(
    alloc: Global,
    kind: Kind,
    words: &mut Words<'_>,
    line: &mut AnswerLine,
) -> Result<(), CallStop> {
    match kind {
        Kind::Police => policed(alloc, words, line),
        Kind::Conforms => conforming(alloc, words, line),
        Kind::Bucket => bucket(words, line),
        Kind::Book => book(alloc, words, line),
        _ => pieces(alloc, words, line),
    }
}

/// Asks of a new bucket, each as the list of what passed answers it too.
fn policed(alloc: Global, words: &mut Words<'_>, line: &mut AnswerLine) -> Result<(), CallStop> {
    let mut bucket = Bucket::new(words.rate()?);
    let mut passed = Vec::new(alloc);
    for _ in 0..u64::MAX {
        let Some((at, octets)) = next_ask(words)? else {
            break;
        };
        let passes = ask(&mut bucket, &passed, at, octets)?;
        if passes {
            passed.push(Cost::of(octets, at))?;
        }
        line.bit(passes);
    }
    Ok(())
}

/// An ask of a bucket that let these pass, which is to answer as they do.
fn ask(bucket: &mut Bucket, passed: &[Cost], at: Moment, octets: u32) -> Result<bool, CallStop> {
    if at < bucket.last() {
        return Err(CallStop::Line);
    }
    let passes = bucket.ask(at, octets);
    if passes != conforms(bucket.rate(), passed, Cost::of(octets, at)) {
        return Err(CallStop::Differ);
    }
    Ok(passes)
}

/// The next moment and octets, where some are left.
fn next_ask(words: &mut Words<'_>) -> Result<Option<(Moment, u32)>, CallStop> {
    match words.next_word() {
        Some(word) => {
            let at = Words::parts(word, b' ').moment()?;
            Ok(Some((at, words.long()?)))
        }
        None => Ok(None),
    }
}

/// The next moment and millibits, where some are left.
fn next_cost(words: &mut Words<'_>) -> Result<Option<Cost>, CallStop> {
    match words.next_word() {
        Some(word) => {
            let at = Words::parts(word, b' ').moment()?;
            Ok(Some(Cost {
                at,
                millibits: words.number(u64::MAX)?,
            }))
        }
        None => Ok(None),
    }
}

fn conforming(alloc: Global, words: &mut Words<'_>, line: &mut AnswerLine) -> Result<(), CallStop> {
    let rate = words.rate()?;
    let cost = next_cost(words)?.ok_or(CallStop::Line)?;
    let mut passed = Vec::new(alloc);
    for _ in 0..u64::MAX {
        let Some(earlier) = next_cost(words)? else {
            break;
        };
        passed.push(earlier)?;
    }
    line.bit(conforms(rate, &passed, cost));
    Ok(())
}

/// A bucket of parts behind asks, by its parts.
fn bucket(words: &mut Words<'_>, line: &mut AnswerLine) -> Result<(), CallStop> {
    let (rate, level) = (words.rate()?, words.number(u64::MAX)?);
    match Bucket::of(rate, level, words.moment()?) {
        Some(bucket) => asked(bucket, words, line),
        None => {
            line.word("none");
            Ok(())
        }
    }
}

fn asked(mut bucket: Bucket, words: &mut Words<'_>, line: &mut AnswerLine) -> Result<(), CallStop> {
    for _ in 0..u64::MAX {
        let Some((at, octets)) = next_ask(words)? else {
            break;
        };
        if at < bucket.last() {
            return Err(CallStop::Line);
        }
        line.word(if bucket.ask(at, octets) { "1" } else { "0" });
    }
    let (Kbps(rate), Moment(last)) = (bucket.rate(), bucket.last());
    line.numbers(' ', &[rate, bucket.level(), last]);
    Ok(())
}

/// What steps make of a new book, one by one and all at once.
fn book(alloc: Global, words: &mut Words<'_>, line: &mut AnswerLine) -> Result<(), CallStop> {
    let mut books = Books {
        one: Book::new(alloc),
        all: Book::new(alloc),
        postings: Vec::new(alloc),
    };
    for _ in 0..u64::MAX {
        let Some(word) = words.next_word() else {
            break;
        };
        books.step(word)?;
    }
    books.post_all()?;
    if !books.agree() {
        return Err(CallStop::Differ);
    }
    accounts(&books.one, line);
    Ok(())
}

/// A book that takes each posting alone, one that takes them together, and those that it still lacks.
#[derive(Drop)]
struct Books {
    one: Book,
    all: Book,
    postings: Vec<Posting>,
}

impl Books {
    fn step(&mut self, word: &[u8]) -> Result<(), CallStop> {
        if word == b"t".as_slice() {
            self.take()
        } else {
            self.post(posting_of(&mut Words::parts(word, b'.'))?)
        }
    }

    fn post(&mut self, posting: Posting) -> Result<(), CallStop> {
        self.one.post_one(&posting)?;
        self.postings.push(posting)?;
        Ok(())
    }

    fn post_all(&mut self) -> Result<(), CallStop> {
        self.all.post(&self.postings)?;
        self.postings.clear();
        Ok(())
    }

    fn take(&mut self) -> Result<(), CallStop> {
        self.post_all()?;
        if self.one.take_closed() != self.all.take_closed() {
            return Err(CallStop::Differ);
        }
        Ok(())
    }

    fn agree(&self) -> bool {
        self.one.closed() == self.all.closed() && self.one.still_open() == self.all.still_open()
    }
}

fn posting_of(step: &mut Words<'_>) -> Result<Posting, CallStop> {
    let kind = step.word();
    let life = step.number(u64::MAX)?;
    match kind {
        b"s" => Ok(Posting::Start {
            life,
            ebi: step.octet()?,
            qci: step.octet()?,
        }),
        b"u" | b"d" => Ok(Posting::Packet {
            life,
            up: kind == b"u".as_slice(),
            octets: step.long()?,
            at: step.moment()?,
        }),
        b"v" => Ok(close(life, Why::Volume)),
        b"q" => Ok(close(life, Why::Qos)),
        b"g" => Ok(close(life, Why::Gone)),
        _ => Err(CallStop::Line),
    }
}

fn close(life: u64, why: Why) -> Posting {
    Posting::Close { life, why }
}

fn accounts(book: &Book, line: &mut AnswerLine) {
    for row in book.closed() {
        push_row(row, line);
    }
    line.word("=");
    for open in book.still_open() {
        push_open(open, line);
    }
}

fn push_row(row: &ChargeRow, line: &mut AnswerLine) {
    let open = Open {
        life: row.life,
        ebi: row.ebi,
        qci: row.qci,
        seq: row.seq,
        up_octets: row.up_octets,
        down_octets: row.down_octets,
        up_packets: row.up_packets,
        down_packets: row.down_packets,
    };
    push_open(&open, line);
    push_moment(row.first, line);
    push_moment(row.last, line);
    line.mark('.');
    line.debugged(&row.why);
}

fn push_open(open: &Open, line: &mut AnswerLine) {
    let (ebi, qci) = (u64::from(open.ebi), u64::from(open.qci));
    line.numbers('.', &[open.life, ebi, qci, open.seq]);
    line.mark('.');
    line.numbers(
        '.',
        &[
            open.up_octets,
            open.down_octets,
            open.up_packets,
            open.down_packets,
        ],
    );
}

fn push_moment(moment: Option<Moment>, line: &mut AnswerLine) {
    line.mark('.');
    match moment {
        Some(Moment(at)) => line.shown(&at),
        None => line.word("-"),
    }
}

/// A book that is made of pieces, behind steps.
fn pieces(alloc: Global, words: &mut Words<'_>, line: &mut AnswerLine) -> Result<(), CallStop> {
    let mut given = Vec::new(alloc);
    let mut postings = Vec::new(alloc);
    for _ in 0..u64::MAX {
        let Some(word) = words.next_word() else {
            break;
        };
        let mut parts = Words::parts(word, b'.');
        if word.first().is_some_and(|first| first.is_ascii_digit()) {
            given.push(piece_of(&mut parts)?)?;
        } else {
            postings.push(posting_of(&mut parts)?)?;
        }
    }
    match Book::of(alloc, &given)? {
        Some(book) => posted(book, &given, &postings, line),
        None => {
            line.word("none");
            Ok(())
        }
    }
}

fn posted(
    mut book: Book,
    given: &Vec<Piece>,
    postings: &[Posting],
    line: &mut AnswerLine,
) -> Result<(), CallStop> {
    if book.pieces()? != *given {
        return Err(CallStop::Differ);
    }
    book.post(postings)?;
    accounts(&book, line);
    Ok(())
}

fn piece_of(words: &mut Words<'_>) -> Result<Piece, CallStop> {
    const LAST: u64 = 0x2000_0000_0000_0000;
    Ok(Piece {
        counts: Open {
            life: words.number(LAST)?,
            ebi: words.octet()?,
            qci: words.octet()?,
            seq: words.number(LAST)?,
            up_octets: words.number(u64::MAX)?,
            down_octets: words.number(u64::MAX)?,
            up_packets: words.number(LAST)?,
            down_packets: words.number(LAST)?,
        },
        first: moment_in(words)?,
        last: moment_in(words)?,
    })
}

/// The next part as a moment, of which `-` is none.
fn moment_in(words: &mut Words<'_>) -> Result<Option<Moment>, CallStop> {
    match words.word() {
        b"-" => Ok(None),
        word => Ok(Some(Words::parts(word, b' ').moment()?)),
    }
}
