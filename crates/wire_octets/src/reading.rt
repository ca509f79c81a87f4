//! Numbers of a slice: at a place that may pass the end, and at one that is known to be inside.
ghost use Rattle.std.specs.Prelude.{◌≡◌, ◌+◌, ◌≤◌, length};
ghost use Rattle.std.specs.Option.{SomeIff};
ghost use Rattle.wire_octets.specs.Numbers.{be16_at, be24_at, be32_at, be40_at};

/// The number of the two octets from place `at`; None exactly where these pass the end.
#[inline]
pub fn be16(bytes: &[u8], at: usize) -> Option<u16>
    ensures { SomeIff result (at + 2 ≤ length bytes.now) (be16_at bytes.now at) }
{
    if bytes.len() < 2 || at > bytes.len() - 2 {
        return None;
    }
    Some(be16_at(bytes, at))
}

/// The number of the three octets from place `at`; None exactly where these pass the end.
#[inline]
pub fn be24(bytes: &[u8], at: usize) -> Option<u32>
    ensures { SomeIff result (at + 3 ≤ length bytes.now) (be24_at bytes.now at) }
{
    if bytes.len() < 3 || at > bytes.len() - 3 {
        return None;
    }
    Some(be24_at(bytes, at))
}

/// The number of the four octets from place `at`; None exactly where these pass the end.
#[inline]
pub fn be32(bytes: &[u8], at: usize) -> Option<u32>
    ensures { SomeIff result (at + 4 ≤ length bytes.now) (be32_at bytes.now at) }
{
    if bytes.len() < 4 || at > bytes.len() - 4 {
        return None;
    }
    Some(be32_at(bytes, at))
}

/// The number of the five octets from place `at`; None exactly where these pass the end.
#[inline]
pub fn be40(bytes: &[u8], at: usize) -> Option<u64>
    ensures { SomeIff result (at + 5 ≤ length bytes.now) (be40_at bytes.now at) }
{
    if bytes.len() < 5 || at > bytes.len() - 5 {
        return None;
    }
    Some(be40_at(bytes, at))
}

/// The number of the two octets from place `at`.
#[inline]
pub fn be16_at(bytes: &[u8], at: usize) -> u16
    requires { at + 2 ≤ length bytes.now }
    ensures { result ≡ be16_at bytes.now at }
{
    u16::from_be_bytes([bytes[at], bytes[at + 1]])
}

/// The number of the three octets from place `at`, below 2^24.
#[inline]
pub fn be24_at(bytes: &[u8], at: usize) -> u32
    requires { at + 3 ≤ length bytes.now }
    ensures { result ≡ be24_at bytes.now at }
{
    u32::from_be_bytes([0, bytes[at], bytes[at + 1], bytes[at + 2]])
}

/// The number of the four octets from place `at`.
#[inline]
pub fn be32_at(bytes: &[u8], at: usize) -> u32
    requires { at + 4 ≤ length bytes.now }
    ensures { result ≡ be32_at bytes.now at }
{
    u32::from_be_bytes([bytes[at], bytes[at + 1], bytes[at + 2], bytes[at + 3]])
}

/// The number of the five octets from place `at`, below 2^40.
#[inline]
pub fn be40_at(bytes: &[u8], at: usize) -> u64
    requires { at + 5 ≤ length bytes.now }
    ensures { result ≡ be40_at bytes.now at }
{
    let low = be32_at(bytes, at + 1);
    0x1_0000_0000 * u64::from(bytes[at]) + u64::from(low)
}
