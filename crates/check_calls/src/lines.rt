//! Reads lines of a trace, each behind the least moment that it may have, and says of each what line it is and
//! how it prints and is written, or why it is refused; and of some lines whether an epoch ends behind them.

use pc_base::{LAST_MOMENT, Moment, NoMemory};
use std::alloc::Global;
use std::{fs, io};
use text_fields::{cut, read_number};
use trace_lines::{LineBad, TraceLine, ends_epoch, read_line, text};

/// What a row asks: what a text says (`5 TEXT`), or whether an epoch that has so many lines and octets ends
/// behind it (`E LINES OCTETS TEXT`).
#[derive(Drop)]
enum Case<'a> {
    Line {
        least: Moment,
        text: &'a [u8],
    },
    End {
        lines: u64,
        octets: u64,
        text: &'a [u8],
    },
}

fn number_and_rest(row: &[u8]) -> Option<(u64, &[u8])> {
    let (number, rest) = cut(b' ', row);
    let number = read_number(number, 0, u64::MAX)?;
    Some((number, rest?))
}

fn read_row(row: &[u8]) -> Option<Case<'_>> {
    if let [b'E', b' ', rest @ ..] = row {
        let (lines, rest) = number_and_rest(rest)?;
        let (octets, text) = number_and_rest(rest)?;
        return Some(Case::End {
            lines,
            octets,
            text,
        });
    }
    let (least, text) = number_and_rest(row)?;
    if least > LAST_MOMENT {
        return None;
    }
    Some(Case::Line {
        least: Moment(least),
        text,
    })
}

fn show_line(rt: &HostRuntime, line: &TraceLine) -> io::Result<()> {
    let again = text(rt.alloc(), line)?;
    println!(rt; "{:?}", line.kind)?;
    println!(rt; "{line}")?;
    println!(rt;
        "{}",
        String::from_utf8_lossy(rt.alloc(), again.as_slice())?
    )
}

fn show_row(rt: &HostRuntime, row: &Case<'_>) -> io::Result<()> {
    match row {
        Case::Line { least, text } => match read_line(rt.alloc(), text, 1, *least) {
            Ok(line) => show_line(rt, &line),
            Err(why) => println!(rt; "{why}"),
        },
        Case::End {
            lines,
            octets,
            text,
        } => match read_line(rt.alloc(), text, 1, Moment(0)) {
            Ok(line) => println!(rt; "{}", ends_epoch(&line, text.len() as u64, *lines, *octets)),
            Err(why) => println!(rt; "{why}"),
        },
    }
}

/// Says of each row of `lines.txt` what it is.
pub(crate) fn tell(rt: &HostRuntime) -> io::Result<()> {
    let octets = fs::read(rt, "lines.txt")?;
    let rows = octets.as_slice();
    for row in rows
        .strip_suffix(b"\n")
        .unwrap_or(rows)
        .split(|octet| *octet == b'\n')
    {
        match read_row(row) {
            Some(row) => show_row(rt, &row)?,
            None => println!(rt; "no row")?,
        }
    }
    Ok(())
}
