ghost use Rattle.std.specs.Prelude.{
  ◌≡◌,
  ◌≤◌,
  ◌<◌,
  ◌+◌,
  ◌-◌,
  length,
  slice_index,
  IfOk,
  OnOk,
  ◌++◌,
  IfSome,
  if◌then◌else◌,
  nat_lt,
};
ghost use Rattle.std.specs.Option.{option_map};
ghost use Rattle.std.specs.List.{AllByRecursion};
ghost use Rattle.gtpv2_ie.specs.Imsi.{IsImsi, octet_of, digit_pair, pair_digits, digits_of, imsi_of, imsi_octets};

use pc_base::Octets;
use std::alloc::{AllocError as NoMemory, Global};

/// The high nibble of the last octet of an odd count.
const FILLER: u8 = 15;

/// The first digit of an octet of an IMSI and the second, both in ASCII; only a last octet may lack the second (TS
/// 29.274, section 8.3). None where a nibble is no digit.
pub fn digit_pair(octet: u8, last: bool) -> Option<(u8, Option<u8>)>
    ensures { result ≡ digit_pair octet last }
{
    let low = octet & 15;
    let high = octet >> 4;
    if low > 9 {
        None
    } else if high <= 9 {
        Some((b'0' + low, Some(b'0' + high)))
    } else if high == FILLER && last {
        Some((b'0' + low, None))
    } else {
        None
    }
}

/// Appends the digits of an octet.
fn push_pair(digits: &mut Vec<u8>, pair: (u8, Option<u8>)) -> Result<(), NoMemory>
    ensures { OnOk result (digits.new.items ≡ digits.old.items ++ pair_digits pair) }
{
    match pair {
        (low, None) => digits.extend_from_slice(&[low]),
        (low, Some(high)) => digits.extend_from_slice(&[low, high]),
    }
}

/// The digits of octets, or None where one of them isn't two digits.
fn digits_of(alloc: Global, octets: &[u8]) -> Result<Option<Vec<u8>>, NoMemory>
    ensures { IfOk result (λ digits. option_map (λ v. v.items) digits ≡ digits_of octets.now) }
{
    let mut digits = Vec::new(alloc);
    for (i, octet) in octets.iter().enumerate() {
        let Some(pair) = digit_pair(*octet, i + 1 == octets.len()) else {
            return Ok(None);
        };
        push_pair(&mut digits, pair)?;
    }
    Ok(Some(digits))
}

/// The IMSI that octets spell (TS 29.274, 8.3).
pub fn imsi_of(alloc: Global, octets: &[u8]) -> Result<Option<Octets>, NoMemory>
    ensures value { IfOk result (λ imsi. imsi ≡ imsi_of octets.now) }
    ensures valid { IfOk result (λ imsi. IfSome imsi IsImsi) }
{
    match digits_of(alloc, octets)? {
        Some(digits) if digits.len() >= 6 && digits.len() <= 15 => Ok(Some(Octets::of(digits))),
        _ => Ok(None),
    }
}

/// The octet of the digit at a place and of the one behind it.
fn pair_octet(digits: &[u8], at: usize) -> u8
    requires place { at < length digits.now }
    requires decimal { AllByRecursion (λ digit. (48 ≤ digit) × (digit ≤ 57)) digits.now }
    ensures { result ≡ octet_of (slice_index digits.now at - 48)
        (if nat_lt (at + 1) (length digits.now) then slice_index digits.now (at + 1) - 48 else 15) }
{
    let low = digits[at] - b'0';
    if at + 1 < digits.len() {
        ((digits[at + 1] - b'0') << 4) + low
    } else {
        (FILLER << 4) + low
    }
}

/// The octets of an IMSI's digits.
pub fn imsi_octets(alloc: Global, digits: &[u8]) -> Result<Vec<u8>, NoMemory>
    requires { IsImsi digits.now }
    ensures { IfOk result (λ octets. octets.items ≡ imsi_octets digits.now) }
{
    let mut octets = Vec::new(alloc);
    for i in 0..(digits.len() + 1) / 2 {
        octets.push(pair_octet(digits, 2 * i))?;
    }
    Ok(octets)
}
