//! Numbers behind words.
use std::alloc::AllocError;
use std::fmt::{Display, Write};

/// Appends a word and a value as it prints.
pub fn push_told<T: Display>(text: &mut String, word: &str, value: &T) -> Result<(), AllocError> {
    text.push_str(word)?;
    write!(text, "{value}")
}
