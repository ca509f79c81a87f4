//! How values print in an answer.
use crate::stop::CallStop;
use std::alloc::Global;
use std::fmt::{Debug, Display, Write};

/// An answer as it is written, its fields parted by a space. Where memory is refused, `end` says so: what writes a
/// field needs no `?`.
#[derive(Drop)]
pub struct AnswerLine {
    text: String,
    /// Whether a space comes before the next field.
    apart: bool,
    refused: bool,
}

impl AnswerLine {
    pub fn new(alloc: Global) -> AnswerLine {
        AnswerLine {
            text: String::new(alloc),
            apart: false,
            refused: false,
        }
    }

    pub fn end(self) -> Result<String, CallStop> {
        if self.refused {
            Err(CallStop::NoMemory)
        } else {
            Ok(self.text)
        }
    }

    fn push(&mut self, text: &str) {
        if self.text.push_str(text).is_err() {
            self.refused = true;
        }
    }

    fn begin(&mut self) {
        if self.apart {
            self.push(" ");
        }
        self.apart = true;
    }

    /// A mark within a field: no space before it or behind it.
    pub fn mark(&mut self, mark: char) {
        if self.text.push(mark).is_err() {
            self.refused = true;
        }
        self.apart = false;
    }

    pub fn bit(&mut self, is: bool) {
        self.mark(if is { '1' } else { '0' });
    }

    pub fn word(&mut self, word: &str) {
        self.begin();
        self.push(word);
    }

    /// A value as it prints.
    pub fn shown<T: Display>(&mut self, value: &T) {
        self.begin();
        if write!(self.text, "{value}").is_err() {
            self.refused = true;
        }
    }

    /// A value as it prints, or a word where there is none.
    pub fn shown_or<T: Display>(&mut self, value: &Option<T>, none: &str) {
        match value {
            Some(value) => self.shown(value),
            None => self.word(none),
        }
    }

    /// A value as it is debugged.
    pub fn debugged<T: Debug>(&mut self, value: &T) {
        self.begin();
        if write!(self.text, "{value:?}").is_err() {
            self.refused = true;
        }
    }

    /// A fault by its name, behind `err`.
    pub fn fault<T: Debug>(&mut self, fault: &T) {
        self.word("err");
        self.debugged(fault);
    }

    /// Numbers as one field, with a mark between them.
    pub fn numbers(&mut self, between: char, numbers: &[u64]) {
        let mut is_first = true;
        for number in numbers {
            if !is_first {
                self.mark(between);
            }
            self.shown(number);
            is_first = false;
        }
    }

    /// Octets in hexadecimal, `-` where there are none.
    pub fn octets(&mut self, octets: &[u8]) {
        self.word(if octets.is_empty() { "-" } else { "" });
        for octet in octets {
            if write!(self.text, "{octet:02x}").is_err() {
                self.refused = true;
            }
        }
    }

    /// Text of octets, each as the character of its number.
    pub fn chars(&mut self, octets: &[u8]) {
        for octet in octets {
            self.mark(char::from(*octet));
        }
    }
}
