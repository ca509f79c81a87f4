//! A state file to its text.
ghost use Rattle.std.specs.Prelude.{◌≡◌, ◌<◌, ◌++◌, length, All, IfOk, OnOk};
ghost use Rattle.record_codec.specs.Spelling.{state};
ghost use Rattle.record_codec.specs.StateText.{IsStateText, state_line};

use crate::{NoMemory, StateFile};
use std::alloc::Global;
use text_fields::Text;

/// How many octets a line of a state has that isn't the last one.
pub const PIECE_LEN: usize = 32_000;

/// How a line of a state begins.
pub(crate) const STATE_WORD: &[u8] = b"STATE ";

/// The line between a state and a trace.
pub(crate) const TRACE_WORD: &[u8] = b"TRACE";

/// The text of the state of a file: its octets in lines, and the line `TRACE`.
pub fn saved_text(alloc: Global, file: &StateFile) -> Result<Text, NoMemory>
    ensures text { IfOk result (λ text. IsStateText (state file.now) text) }
    ensures octets { IfOk result (λ _. All (λ octet. octet < 256) (state file.now)) }
{
    let octets = crate::text(alloc, file)?;
    known_octets(octets.as_slice());
    text_of(alloc, octets.as_slice())
}

fn known_octets(octets: &[u8])
    ensures { All (λ octet. octet < 256) octets.now }
{}

fn text_of(alloc: Global, octets: &[u8]) -> Result<Text, NoMemory>
    requires { 0 < length octets.now }
    ensures { IfOk result (λ text. IsStateText octets.now text) }
{
    let mut text = Text::new(alloc);
    let mut left = octets;
    while left.len() > PIECE_LEN {
        let (piece, behind) = left.split_at(PIECE_LEN);
        push_line(&mut text, piece)?;
        left = behind;
    }
    push_line(&mut text, left)?;
    text.extend_from_slice(b"TRACE\n")?;
    Ok(text)
}

fn push_line(text: &mut Text, piece: &[u8]) -> Result<(), NoMemory>
    ensures { OnOk result (text.new ≡ text.old ++ state_line piece.now) }
{
    text.push_headed(STATE_WORD, piece)?;
    text.push(b'\n')
}
