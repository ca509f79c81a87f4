//! The text of an answer.
use lane_core::{Did, NoMemory};
use std::alloc::{AllocFailed, Global};
use text_fields::Text;

/// Why a step has no answer.
#[derive(Clone, Copy, Debug)]
pub enum StepStop {
    /// It doesn't fit what is played.
    Step,
    NoMemory,
}

impl From<NoMemory> for StepStop {
    fn from(_none: NoMemory) -> StepStop {
        StepStop::NoMemory
    }
}

impl<T: Drop> From<AllocFailed<T>> for StepStop {
    fn from(_refused: AllocFailed<T>) -> StepStop {
        StepStop::NoMemory
    }
}

pub fn push_word(text: &mut Text, word: &[u8]) -> Result<(), StepStop> {
    text.extend_from_slice(word)?;
    Ok(())
}

pub fn word_of(alloc: Global, word: &[u8]) -> Result<Text, StepStop> {
    let mut text = Text::new(alloc);
    push_word(&mut text, word)?;
    Ok(text)
}

pub fn push_yes(text: &mut Text, is: bool) -> Result<(), StepStop> {
    push_word(text, if is { b"yes" } else { b"no" })
}

pub fn yes_or_no(alloc: Global, is: bool) -> Result<Text, StepStop> {
    let mut text = Text::new(alloc);
    push_yes(&mut text, is)?;
    Ok(text)
}

/// A word, and a number behind a blank.
pub fn push_counted(text: &mut Text, word: &[u8], number: u64) -> Result<(), StepStop> {
    push_word(text, word)?;
    text.push_number(number)?;
    Ok(())
}

/// Numbers, each behind a blank.
pub fn numbers(alloc: Global, of: &[u64]) -> Result<Text, StepStop> {
    let mut text = Text::new(alloc);
    push_numbers(&mut text, of)?;
    Ok(text)
}

pub fn push_numbers(text: &mut Text, of: &[u64]) -> Result<(), NoMemory> {
    for number in of {
        text.push_number(*number)?;
    }
    Ok(())
}

/// A letter for what a turn came to.
pub fn letter_of(did: Result<Did, NoMemory>) -> u8 {
    match did {
        Ok(Did::Idle) => b'i',
        Ok(Did::Held) => b'h',
        Ok(Did::Worked) => b'w',
        Err(_) => b'm',
    }
}
