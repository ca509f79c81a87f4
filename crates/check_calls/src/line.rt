//! The words of a line.
ghost use Rattle.std.specs.Prelude.{◌≤◌, IfOk};

use crate::stop::CallStop;
use pc_base::{Kbps, LAST_MOMENT, Moment};
use std::alloc::Global;
use text_fields::{next_piece, read_number, read_octets};

/// The words that are left of a line, or the parts of a word.
#[derive(Drop)]
pub struct Words<'a> {
    left: Option<&'a [u8]>,
    cut: u8,
}

impl<'a> Words<'a> {
    pub fn of(line: &'a [u8]) -> Words<'a> {
        Words {
            left: Some(line),
            cut: b' ',
        }
    }

    /// The parts of a word, cut at an octet.
    pub fn parts(word: &'a [u8], cut: u8) -> Words<'a> {
        Words {
            left: Some(word),
            cut,
        }
    }

    /// The next word, where one is left.
    pub fn next_word(&mut self) -> Option<&'a [u8]> {
        let (word, left) = next_piece(self.cut, self.left)?;
        self.left = left;
        Some(word)
    }

    /// The next word, or an empty one.
    pub fn word(&mut self) -> &'a [u8] {
        self.next_word().unwrap_or(&[])
    }

    /// The next word as a number of at most this.
    pub fn number(&mut self, last: u64) -> Result<u64, CallStop>
        ensures { IfOk result (λ number. number ≤ last) }
    {
        number_of(self.word(), last)
    }

    pub fn octet(&mut self) -> Result<u8, CallStop> {
        Ok(self.number(0xff)? as u8)
    }

    /// A number of 16 bits.
    pub fn short(&mut self) -> Result<u16, CallStop> {
        Ok(self.number(0xffff)? as u16)
    }

    /// A number of 32 bits.
    pub fn long(&mut self) -> Result<u32, CallStop> {
        Ok(self.number(0xffff_ffff)? as u32)
    }

    pub fn moment(&mut self) -> Result<Moment, CallStop> {
        Ok(Moment(self.number(LAST_MOMENT)?))
    }

    pub fn rate(&mut self) -> Result<Kbps, CallStop> {
        Ok(Kbps(self.number(0xff_ffff_ffff)?))
    }

    /// The next word as octets, of which `-` is none.
    pub fn octets(&mut self, alloc: Global) -> Result<Vec<u8>, CallStop> {
        octets_of(alloc, self.word())
    }
}

/// A word as a number of at most this.
pub fn number_of(word: &[u8], last: u64) -> Result<u64, CallStop>
    ensures { IfOk result (λ number. number ≤ last) }
{
    match read_number(word, 0, u64::MAX) {
        Some(number) if number <= last => Ok(number),
        _ => Err(CallStop::Line),
    }
}

/// A word as octets, of which `-` is none.
pub fn octets_of(alloc: Global, word: &[u8]) -> Result<Vec<u8>, CallStop> {
    if word == b"-".as_slice() {
        return Ok(Vec::new(alloc));
    }
    match read_octets(alloc, word)? {
        Some(octets) => Ok(octets),
        None => Err(CallStop::Line),
    }
}
