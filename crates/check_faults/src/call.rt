//! The words of a line.
use std::alloc::{AllocError, Global};
use text_fields::read_number;

/// A line's words, with one space between each two. `-` is a word of no octets.
#[derive(Drop)]
pub struct Call {
    words: Vec<Vec<u8>>,
}

impl Call {
    pub fn read(alloc: Global, line: &[u8]) -> Result<Call, AllocError> {
        let mut words = Vec::new(alloc);
        for word in line.split(|octet| *octet == b' ') {
            let word = if word == b"-".as_slice() { &[] } else { word };
            words.push(Vec::from_slice(alloc, word)?)?;
        }
        Ok(Call { words })
    }

    /// The word of this number; one that isn't there has no octets.
    pub fn word(&self, at: usize) -> &[u8] {
        match self.words.get(at) {
            Some(word) => word.as_slice(),
            None => &[],
        }
    }

    /// The word of this number as a number below 2^63; 0 where it is none.
    pub fn number(&self, at: usize) -> u64 {
        read_number(self.word(at), 0, 0x7fff_ffff_ffff_ffff).unwrap_or(0)
    }

    /// The numbers of a word, with a comma between each two.
    pub fn numbers(&self, alloc: Global, at: usize) -> Result<Vec<u64>, AllocError> {
        let mut numbers = Vec::new(alloc);
        for digits in self.word(at).split(|octet| *octet == b',') {
            if let Some(number) = read_number(digits, 0, 0x7fff_ffff_ffff_ffff) {
                numbers.push(number)?;
            }
        }
        Ok(numbers)
    }

    /// The octets of a word, in which `|` is a newline and `~` a space.
    pub fn octets(&self, alloc: Global, at: usize) -> Result<Vec<u8>, AllocError> {
        let mut octets = Vec::new(alloc);
        for octet in self.word(at) {
            octets.push(match *octet {
                b'|' => b'\n',
                b'~' => b' ',
                other => other,
            })?;
        }
        Ok(octets)
    }

    /// The words from this number on, as texts.
    pub fn texts(&self, alloc: Global, from: usize) -> Result<Vec<String>, AllocError> {
        let mut texts = Vec::new(alloc);
        for word in self.words.iter().skip(from) {
            let mut text = String::new(alloc);
            for octet in word {
                text.push(char::from(*octet))?;
            }
            texts.push(text)?;
        }
        Ok(texts)
    }
}
