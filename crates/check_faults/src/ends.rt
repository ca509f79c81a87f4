//! Lines out of pieces, and octets into pieces.
use crate::call::Call;
use crate::telling::push_told;
use pc_outside::{
    LineBuf, LineRead, MemSink, MemSource, Source, StdSink, StdSource, SureSink, SureSource,
    read_line, write_whole,
};
use std::alloc::{AllocError, Global};
use std::io::{self, Read, Write};

// More answers than a source here has.
const MOST_ANSWERS: usize = 20;

// The answers until the end came twice: a line and `|`, or `$` where it is the last one, `!` a fault, `.` the end, and
// `L` and `T` for the two stops.
fn answers<S: Source>(alloc: Global, source: &mut S, text: &mut String) -> Result<(), AllocError> {
    let mut buf = LineBuf::new(alloc)?;
    let mut has_ended = false;
    for _ in 0..MOST_ANSWERS {
        match read_line(source, &mut buf) {
            LineRead::Line => {
                push_octets(buf.line(), text)?;
                text.push(if buf.is_last() { '$' } else { '|' })?;
            }
            LineRead::ReadFault => text.push('!')?,
            LineRead::LineLong => text.push('L')?,
            LineRead::TooLong => text.push('T')?,
            LineRead::End => {
                text.push('.')?;
                if has_ended {
                    break;
                }
                has_ended = true;
            }
        }
    }
    text.push('\n')
}

pub fn push_octets(octets: &[u8], text: &mut String) -> Result<(), AllocError> {
    for octet in octets {
        text.push(char::from(*octet))?;
    }
    Ok(())
}

/// `lines PIECE FAILS OCTETS`: what lines are read of octets that come in pieces, where these calls fail.
pub fn lines(alloc: Global, row: &Call, text: &mut String) -> Result<(), AllocError> {
    let piece = row.number(1) as usize;
    let mut source = MemSource::new(row.octets(alloc, 3)?, piece.max(1), row.numbers(alloc, 2)?)?;
    answers(alloc, &mut source, text)
}

/// `std OCTETS`: the same of a reader of the system.
pub fn std_lines(alloc: Global, row: &Call, text: &mut String) -> Result<(), AllocError> {
    let octets = row.octets(alloc, 1)?;
    let mut source = StdSource::new(octets.as_slice());
    answers(alloc, &mut source, text)
}

/// `long OCTETS`: the answer to one line of so many octets, and how many of them were read.
pub fn long(alloc: Global, row: &Call, text: &mut String) -> Result<(), AllocError> {
    let mut octets = Vec::new(alloc);
    octets.resize((row.number(1) % 0x10_0000) as usize, b'1')?;
    let mut source = MemSource::new(octets, 100_000, Vec::new(alloc))?;
    let mut buf = LineBuf::new(alloc)?;
    let read = match read_line(&mut source, &mut buf) {
        LineRead::Line => "a line",
        LineRead::LineLong => "too long",
        _ => "another answer",
    };
    text.push_str(read)?;
    push_told(text, ", ", &buf.taken())?;
    text.push_str(" octets read\n")
}

/// `pieces ROOM PIECE FAILS OCTETS`: what is written of octets into a sink with so much room, where these calls fail.
pub fn pieces(alloc: Global, row: &Call, text: &mut String) -> Result<(), AllocError> {
    let octets = row.octets(alloc, 4)?;
    let room = (row.number(1) % 0x10_0000) as usize;
    let piece = row.number(2) as usize;
    let mut sink = MemSink::new(alloc, room, piece.max(1), row.numbers(alloc, 3)?)?;
    let whole = write_whole(&mut sink, octets.as_slice()).is_ok();
    push_octets(sink.written(), text)?;
    text.push_str(if whole { " whole\n" } else { " cut\n" })
}

/// `sure ROOM OCTETS OCTETS`: what a sink that never fails keeps of both octets, one behind the other, whether a writer
/// of the system with so much room takes them, and the lines of the first ones from a source that never fails.
pub fn sure(alloc: Global, row: &Call, text: &mut String) -> Result<(), AllocError> {
    let first = row.octets(alloc, 2)?;
    let second = row.octets(alloc, 3)?;
    let room = (row.number(1) % 0x10_0000) as usize;
    let mut sink = SureSink::new(alloc, room)?;
    let whole = write_whole(&mut sink, first.as_slice()).is_ok()
        & write_whole(&mut sink, second.as_slice()).is_ok();
    push_octets(sink.written(), text)?;
    text.push_str(if whole { " whole, " } else { " cut, " })?;

    let mut written = vec![in alloc; 0u8; room]?;
    let mut sink = StdSink::new(written.as_mut_slice());
    let whole = write_whole(&mut sink, first.as_slice()).is_ok()
        & write_whole(&mut sink, second.as_slice()).is_ok();
    text.push_str(if whole { "whole: " } else { "cut: " })?;
    let mut source = SureSource::new(first)?;
    answers(alloc, &mut source, text)
}

// A stream of the system of which each call fails.
#[derive(Drop)]
struct Broken;

impl Read for Broken {
    fn read(&mut self, _into: &mut [u8]) -> io::Result<usize> {
        Err(io::Error::from(io::ErrorKind::TimedOut))
    }
}

impl Write for Broken {
    fn write(&mut self, _from: &[u8]) -> io::Result<usize> {
        Err(io::Error::from(io::ErrorKind::TimedOut))
    }

    fn flush(&mut self) -> io::Result<()> {
        Ok(())
    }
}

/// `broken`: the answer to a read, and whether an octet and none are written.
pub fn failing_streams(alloc: Global, text: &mut String) -> Result<(), AllocError> {
    let mut buf = LineBuf::new(alloc)?;
    let mut source = StdSource::new(Broken);
    let fails = read_line(&mut source, &mut buf) == LineRead::ReadFault;
    let mut sink = StdSink::new(Broken);
    let one = write_whole(&mut sink, b"a").is_ok();
    let none = write_whole(&mut sink, b"").is_ok();
    push_told(text, "the read fails: ", &fails)?;
    push_told(text, ", an octet is written: ", &one)?;
    push_told(text, ", none is: ", &none)?;
    text.push('\n')
}
