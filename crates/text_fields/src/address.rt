//! IPv4 addresses.
ghost use Rattle.std.specs.Prelude.{◌≡◌};
ghost use Rattle.text_fields.specs.Number.{number_in};
ghost use Rattle.text_fields.specs.Address.{address_of};

use crate::fields::{cut, next_piece};
use crate::number::read_number;

/// The address that the text is, its first number the highest octet.
pub fn read_address(text: &[u8]) -> Option<u32>
    ensures { result ≡ address_of text.now }
{
    let (first, rest) = cut(b'.', text);
    let (second, rest) = next_piece(b'.', rest)?;
    let (third, rest) = next_piece(b'.', rest)?;
    let (fourth, rest) = next_piece(b'.', rest)?;
    let None = next_piece(b'.', rest) else {
        return None;
    };
    let octets = [
        read_part(first)?,
        read_part(second)?,
        read_part(third)?,
        read_part(fourth)?,
    ];
    Some(u32::from_be_bytes(octets))
}

fn read_part(text: &[u8]) -> Option<u8>
    ensures { result ≡ number_in 0 255 text.now }
{
    let part = read_number(text, 0, 255)?;
    Some(part as u8)
}
