//! Octets as text.
ghost use Rattle.std.specs.Prelude.{◌≡◌};
ghost use Rattle.std.specs.Str.{IsAscii};

use std::str;

/// ASCII octets as a text.
pub(crate) fn ascii_text(octets: &[u8]) -> &str
    requires { IsAscii octets.now }
    ensures { result.now ≡ octets.now }
{
    match str::from_utf8(octets) {
        Ok(text) => text,
        Err(_) => unreachable!(),
    }
}
