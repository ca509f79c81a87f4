//! A line of a script.
use pc_base::{SliceNo, Slot};
use text_fields::{cut, next_piece, read_number};

/// A step: its letter, and three numbers below 2^32. One that isn't there is 0.
#[derive(Clone, Copy)]
pub struct ScriptStep {
    pub letter: u8,
    pub one: u32,
    pub two: u32,
    pub three: u32,
}

impl ScriptStep {
    pub fn read(line: &[u8]) -> ScriptStep {
        let (word, left) = cut(b' ', line);
        let (one, left) = next_piece(b' ', left).unwrap_or((&[], None));
        let (two, left) = next_piece(b' ', left).unwrap_or((&[], None));
        let (three, _) = next_piece(b' ', left).unwrap_or((&[], None));
        ScriptStep {
            letter: word.first().copied().unwrap_or(0),
            one: number(one),
            two: number(two),
            three: number(three),
        }
    }
}

fn number(text: &[u8]) -> u32 {
    (read_number(text, 0, u64::MAX).unwrap_or(0) % 0x1_0000_0000) as u32
}

/// One of the first thousand slots.
pub fn slot_of(number: u32) -> Slot {
    Slot(number % 1000)
}

/// One of three slices.
pub fn slice_of(number: u32) -> SliceNo {
    SliceNo((number % 3) as u8)
}
