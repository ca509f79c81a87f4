//! The fields of a line: a letter, octets or a dash, and numbers.
use pc_base::{Addr4, Kbps, Moment, Octets, Peer, Teid};
use std::alloc::{AllocError as NoMemory, Global};
use text_fields::{next_piece, read_number, read_octets};

/// A line. A number that isn't there is 0, and one that is too large is taken modulo the range that is asked for.
#[derive(Drop)]
pub struct Fields {
    pub letter: u8,
    pub octets: Octets,
    numbers: Vec<u64>,
}

impl Fields {
    pub fn read(alloc: Global, line: &[u8]) -> Result<Fields, NoMemory> {
        let (word, left) = next_piece(b' ', Some(line)).unwrap_or((&[], None));
        let (octets, left) = next_piece(b' ', left).unwrap_or((&[], None));
        Ok(Fields {
            letter: word.first().copied().unwrap_or(0),
            octets: octets_of(alloc, octets)?,
            numbers: numbers_of(alloc, left)?,
        })
    }

    pub fn number(&self, at: usize) -> u64 {
        match self.numbers.get(at) {
            Some(number) => *number,
            None => 0,
        }
    }

    pub fn octet(&self, at: usize) -> u8 {
        (self.number(at) % 0x100) as u8
    }

    pub fn word(&self, at: usize) -> u32 {
        (self.number(at) % 0x1_0000_0000) as u32
    }

    pub fn rate(&self, at: usize) -> Kbps {
        Kbps(self.number(at) % 0x100_0000_0000)
    }

    pub fn moment(&self, at: usize) -> Moment {
        Moment(self.number(at) % 0x4_0000_0000_0000)
    }

    /// A TEID and an address.
    pub fn peer(&self, at: usize) -> Peer {
        Peer {
            teid: Teid(self.word(at)),
            addr: Addr4(self.word(at.saturating_add(1))),
        }
    }

    /// A TEID and an address behind a number that isn't 0, or none behind 0.
    pub fn given(&self, at: usize) -> Option<Peer> {
        if self.number(at) == 0 {
            return None;
        }
        Some(self.peer(at.saturating_add(1)))
    }
}

fn octets_of(alloc: Global, field: &[u8]) -> Result<Octets, NoMemory> {
    match read_octets(alloc, field)? {
        Some(octets) => Ok(Octets::of(octets)),
        None => Ok(Octets::of(Vec::new(alloc))),
    }
}

fn numbers_of(alloc: Global, text: Option<&[u8]>) -> Result<Vec<u64>, NoMemory> {
    let mut numbers = Vec::new(alloc);
    if let Some(text) = text {
        for field in text.split(|octet| *octet == b' ') {
            numbers.push(read_number(field, 0, u64::MAX).unwrap_or(0))?;
        }
    }
    Ok(numbers)
}
