//! Octets that print in hexadecimal, as a trace and a report write them. Takes no memory.
ghost use Rattle.std.specs.Prelude.{◌≡◌, ◌∷◌, [], Some};
ghost use Rattle.std.specs.Fmt.{WritesOnOk};
ghost use Rattle.hex.specs.Hex.{encode_lower};

use std::{fmt, str};

/// Octets, each of which prints as its two hexadecimal digits, in lower case.
#[derive(Clone, Copy, Debug)]
pub struct Hexadecimal<'a>(pub &'a [u8]);

impl fmt::Display for Hexadecimal<'_> {
    ghost output = { λ shown. Some (encode_lower shown.0.now) };

    fn fmt<W: fmt::Write>(&self, f: &mut fmt::Formatter<W>) -> fmt::Result {
        for octet in self.0 {
            write_octet(*octet, f)?;
        }
        Ok(())
    }
}

fn write_octet<W: fmt::Write>(octet: u8, f: &mut fmt::Formatter<W>) -> fmt::Result
    ensures { WritesOnOk W.write_str_gives f.old result (encode_lower (octet ∷ [])) f.new }
{
    match str::from_utf8(&octet_digits(octet)) {
        Ok(digits) => f.write_str(digits),
        Err(_) => unreachable!(),
    }
}

fn octet_digits(octet: u8) -> [u8; 2]
    ensures { result ≡ encode_lower (octet ∷ []) }
{
    let mut digits = [0; 2];
    match hex::encode_to_slice([octet].as_slice(), &mut digits) {
        Ok(()) => digits,
        Err(_) => unreachable!(),
    }
}
