//! Numbers in the byte order of a capture.
ghost use Rattle.std.specs.Prelude.{◌≡◌, ◌+◌, ◌≤◌, length};
ghost use Rattle.pcap_form.specs.Numbers.{number16_at, number32_at};

use wire_octets::{be16_at, be32_at};

#[inline]
pub(crate) fn number16_at(little: bool, bytes: &[u8], at: usize) -> u16
    requires { at + 2 ≤ length bytes.now }
    ensures { result ≡ number16_at little bytes.now at }
{
    if little {
        u16::from_le_bytes([bytes[at], bytes[at + 1]])
    } else {
        be16_at(bytes, at)
    }
}

#[inline]
pub(crate) fn number32_at(little: bool, bytes: &[u8], at: usize) -> u32
    requires { at + 4 ≤ length bytes.now }
    ensures { result ≡ number32_at little bytes.now at }
{
    if little {
        u32::from_le_bytes([bytes[at], bytes[at + 1], bytes[at + 2], bytes[at + 3]])
    } else {
        be32_at(bytes, at)
    }
}
