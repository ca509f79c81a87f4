//! Octets as an argument.
ghost use Rattle.std.specs.Prelude.{◌≡◌, ◌⊎◌, Ok, Err, OnOk, IfErr};
ghost use Rattle.std.specs.Option.{ok_or};
ghost use Rattle.text_fields.specs.Fields.{space, pieces, pieces_left};
ghost use Rattle.text_fields.specs.Hexadecimal.{octets_of};
ghost use Rattle.trace_lines.specs.Meaning.{message_meaning};
ghost use Rattle.trace_lines.specs.declared.bad.LineBad.TheVariants.{NoMemory, Hex};

use crate::LineBad;
use text_fields::{Text, cut};

// Octets are read in place of those that stood there.
#[inline(always)]
pub(crate) fn read_octets(octets: &mut Text, text: &[u8]) -> Result<(), LineBad>
    ensures value { OnOk result (ok_or (octets_of text.now) Hex ≡ Ok octets.new) }
    ensures refusal { IfErr result (λ why. (why ≡ NoMemory) ⊎ (ok_or (octets_of text.now) Hex ≡ Err why)) }
{
    if octets.read_octets(text)? {
        Ok(())
    } else {
        Err(LineBad::Hex)
    }
}

// The one argument that is left.
#[inline(always)]
pub(crate) fn read_message(octets: &mut Text, arguments: Option<&[u8]>) -> Result<(), LineBad>
    ensures value { OnOk result (message_meaning (pieces_left space arguments.entry) ≡ Ok octets.new) }
    ensures refusal { IfErr result (λ why. (why ≡ NoMemory)
        ⊎ (message_meaning (pieces_left space arguments.entry) ≡ Err why)) }
{
    match arguments {
        Some(text) => read_rest(octets, text),
        None => Err(LineBad::Field),
    }
}

// The rest of the line is taken for the argument, since a space is no digit.
#[inline(always)]
fn read_rest(octets: &mut Text, text: &[u8]) -> Result<(), LineBad>
    ensures value { OnOk result (message_meaning (pieces space text.now) ≡ Ok octets.new) }
    ensures refusal { IfErr result (λ why. (why ≡ NoMemory) ⊎ (message_meaning (pieces space text.now) ≡ Err why)) }
{
    match read_octets(octets, text) {
        Ok(()) => Ok(()),
        Err(why) => Err(refused(text, why)),
    }
}

// Why a text with no octets in it is refused: it may be two arguments.
#[inline(never)]
fn refused(text: &[u8], why: LineBad) -> LineBad
    ensures memory { why ≡ NoMemory → result ≡ NoMemory }
    ensures refusal { ok_or (octets_of text.now) Hex ≡ Err why → message_meaning (pieces space text.now) ≡ Err result }
{
    let (_, rest) = cut(b' ', text);
    match rest {
        Some(_) if why == LineBad::Hex => LineBad::Field,
        _ => why,
    }
}
