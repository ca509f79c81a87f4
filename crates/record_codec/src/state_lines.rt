//! The lines before a trace, heard one by one.
ghost use Rattle.std.specs.Prelude.{◌≡◌, None, bytes_eq, option_map, IfOk};
ghost use Rattle.record_codec.specs.StateLines.{piece_in};
ghost use Rattle.record_codec.specs.StateText.{trace_word};

use crate::saving::{PIECE_LEN, STATE_WORD, TRACE_WORD};
use crate::{NoMemory, StateFile};
use std::alloc::Global;
use text_fields::read_octets;

/// What was heard of a state before its last line.
#[derive(Drop)]
pub struct StateLines {
    pub(crate) octets: Vec<u8>,
    /// How many octets the last line had.
    pub(crate) last: usize,
    /// Whether a line had too many, or stood behind one that had too few. Then no more are kept.
    pub(crate) broken: bool,
}

/// What the lines say, with the one that was heard last.
#[derive(Drop)]
pub enum StateSaid {
    /// They are lines of a state.
    More,
    /// They are a state and the line `TRACE`.
    Found(StateFile),
    /// They are no state before a trace.
    BadState,
}

impl StateLines {
    ghost use Rattle.std.specs.Prelude.{◌≡◌, ◌++◌, ◌∷◌, [], List, Some, None, IfOk, OnOk};
    ghost use Rattle.pc_outside.specs.Texts.{Text};
    ghost use Rattle.record_codec.specs.StateLines.{HasHeard, Says, piece_in};

    /// Nothing was heard yet.
    pub fn new(alloc: Global) -> StateLines
        ensures { HasHeard result [] }
    {
        StateLines {
            octets: Vec::new(alloc),
            last: PIECE_LEN,
            broken: false,
        }
    }

    /// Hears the next line.
    pub fn take(&mut self, alloc: Global, text: &[u8]) -> Result<StateSaid, NoMemory>
        ensures { (texts : List Text) → HasHeard self.old texts
            → IfOk result (λ said. Says said self.new (texts ++ text.now ∷ [])) }
    {
        match piece_in(alloc, text)? {
            Some(piece) => {
                self.take_piece(&piece)?;
                Ok(StateSaid::More)
            }
            None => self.end(alloc, text),
        }
    }

    // Hears the octets of a line.
    fn take_piece(&mut self, piece: &[u8]) -> Result<(), NoMemory>
        ensures { (texts : List Text) (text : Text) → HasHeard self.old texts → piece_in text ≡ Some piece.now
            → OnOk result (HasHeard self.new (texts ++ text ∷ [])) }
    {
        if self.broken {
            return Ok(());
        }
        if self.last != PIECE_LEN || piece.len() > PIECE_LEN {
            self.broken = true;
            return Ok(());
        }
        self.octets.extend_from_slice(piece)?;
        self.last = piece.len();
        Ok(())
    }

    // The first line that is no line of a state.
    fn end(&self, alloc: Global, text: &[u8]) -> Result<StateSaid, NoMemory>
        requires { piece_in text.now ≡ None }
        ensures { (texts : List Text) → HasHeard self.now texts
            → IfOk result (λ said. Says said self.now (texts ++ text.now ∷ [])) }
    {
        if !is_trace(text) || self.broken {
            return Ok(StateSaid::BadState);
        }
        match crate::read(alloc, &self.octets)? {
            Some(file) => Ok(StateSaid::Found(file)),
            None => Ok(StateSaid::BadState),
        }
    }
}

/// Whether a line is the one behind a state.
fn is_trace(text: &[u8]) -> bool
    ensures { result ≡ bytes_eq text.now trace_word }
{
    text == TRACE_WORD
}

/// The octets of a line of a state.
fn piece_in(alloc: Global, text: &[u8]) -> Result<Option<Vec<u8>>, NoMemory>
    ensures { IfOk result (λ piece. option_map (λ v. v.items) piece ≡ piece_in text.now) }
{
    if text.len() < STATE_WORD.len() {
        return Ok(None);
    }
    let (word, digits) = text.split_at(STATE_WORD.len());
    if word != STATE_WORD {
        return Ok(None);
    }
    read_octets(alloc, digits)
}
