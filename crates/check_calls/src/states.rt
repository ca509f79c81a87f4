//! Reads states of subscribers, a line each in hexadecimal digits, and answers each with a line: `none` where they
//! are no state, else how many subscribers there are and whether the state is written again as it was. Behind the word
//! `changes` it answers with three lines of a digit for each octet: how many of the eight octets that differ in one bit
//! make a state there; whether the octets before it are one; and whether two octets `ff` in its place make one.

ghost use Rattle.std.specs.Prelude.{◌<◌, ◌+◌, length};

use record_codec::{read, text};
use std::alloc::{AllocError, Global};
use std::fs;
use std::io::{self, BufWriter, Write};
use text_fields::{cut, read_octets};

/// Whether the octets are a state, which is written again as they are.
fn is_state(alloc: Global, octets: &[u8]) -> Result<bool, AllocError> {
    match read(alloc, octets)? {
        None => Ok(false),
        Some(file) => {
            let again = text(alloc, &file)?;
            Ok(again.as_slice() == octets)
        }
    }
}

/// How many of the octets that differ in one bit make a state in this place.
fn bits_at(alloc: Global, octets: &mut [u8], place: usize) -> Result<u8, AllocError>
    requires { place < length octets.old }
{
    let octet = octets[place];
    let mut digit = b'0';
    for bit in 0..8_u8 {
        octets[place] = octet ^ (1 << bit);
        if is_state(alloc, octets)? {
            digit += 1;
        }
    }
    octets[place] = octet;
    Ok(digit)
}

/// Whether two octets `ff` in this place make a state.
fn longest_at(alloc: Global, octets: &mut [u8], place: usize) -> Result<u8, AllocError>
    requires { place + 1 < length octets.old }
{
    let (first, second) = (octets[place], octets[place + 1]);
    octets[place] = 0xff;
    octets[place + 1] = 0xff;
    let is_one = is_state(alloc, octets)?;
    octets[place] = first;
    octets[place + 1] = second;
    Ok(if is_one { b'1' } else { b'0' })
}

fn bits(alloc: Global, octets: &mut [u8]) -> Result<Vec<u8>, AllocError> {
    let mut digits = Vec::new(alloc);
    for place in 0..octets.len() {
        let digit = bits_at(alloc, octets, place)?;
        digits.push(digit)?;
    }
    Ok(digits)
}

fn prefixes(alloc: Global, octets: &[u8]) -> Result<Vec<u8>, AllocError> {
    let mut digits = Vec::new(alloc);
    for len in 0..octets.len() {
        let is_one = is_state(alloc, &octets[..len])?;
        digits.push(if is_one { b'1' } else { b'0' })?;
    }
    Ok(digits)
}

fn longest(alloc: Global, octets: &mut [u8]) -> Result<Vec<u8>, AllocError> {
    let mut digits = Vec::new(alloc);
    for place in 1..octets.len() {
        let digit = longest_at(alloc, octets, place - 1)?;
        digits.push(digit)?;
    }
    Ok(digits)
}

fn changes(alloc: Global, digits: &[u8]) -> Result<String, AllocError> {
    let Some(mut octets) = read_octets(alloc, digits)? else {
        return String::from_str(alloc, "no octets");
    };
    let bits = String::from_utf8_lossy(alloc, &bits(alloc, octets.as_mut_slice())?)?;
    let prefixes = String::from_utf8_lossy(alloc, &prefixes(alloc, octets.as_slice())?)?;
    let longest = String::from_utf8_lossy(alloc, &longest(alloc, octets.as_mut_slice())?)?;
    format!(in alloc; "{bits}\n{prefixes}\n{longest}")
}

fn told(alloc: Global, digits: &[u8]) -> Result<String, AllocError> {
    let Some(octets) = read_octets(alloc, digits)? else {
        return String::from_str(alloc, "no octets");
    };
    let octets = octets.as_slice();
    match read(alloc, octets)? {
        None => String::from_str(alloc, "none"),
        Some(file) => {
            let count = file.subscribers.len();
            let again = text(alloc, &file)?;
            let same = again.as_slice() == octets;
            format!(in alloc; "{count} {same}")
        }
    }
}

fn answer(alloc: Global, line: &[u8]) -> Result<String, AllocError> {
    match cut(b' ', line) {
        (_, Some(digits)) => changes(alloc, digits),
        (digits, None) => told(alloc, digits),
    }
}

/// Says of each row of `states.txt` whether it is a state.
pub(crate) fn tell(rt: &HostRuntime) -> io::Result<()> {
    let alloc = rt.alloc();
    let octets = fs::read(rt, "states.txt")?;
    let rows = octets.as_slice();
    let mut out = BufWriter::new(alloc, io::writer(rt))?;
    for row in rows
        .strip_suffix(b"\n")
        .unwrap_or(rows)
        .split(|octet| *octet == b'\n')
    {
        let told = answer(alloc, row)?;
        writeln!(out, "{told}")?;
    }
    out.flush()
}
