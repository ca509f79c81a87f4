//! Octets in hexadecimal: sixteen at a time, and one by one where they are fewer. No loop here branches on a
//! digit: on digits in no order a guessed branch costs more than all else.
ghost use Rattle.std.specs.Prelude.{◌≡◌, ◌≢◌, ◌*◌, ◌%◌, ◌<◌, Some, None, Ok, true, length, slice_index, IfOk, OnErr};
ghost use Rattle.std.specs.List.{list_all};
ghost use Rattle.std.specs.Option.{option_map};
ghost use Rattle.hex.specs.Hex.{decode_of, encode_lower, lower_digits, hex_digit_value, is_hex_digit};
ghost use Rattle.text_fields.specs.Hexadecimal.{is_lower_digit, octets_of, lower_octets_of};

use crate::blocks::decode_blocks;
use crate::encoding::encode_blocks;
use std::alloc::{AllocError, Global};

/// The octets that the text is: an even number of digits in either case, at least two.
pub fn read_octets(alloc: Global, text: &[u8]) -> Result<Option<Vec<u8>>, AllocError>
    ensures value { IfOk result (λ octets. option_map (λ v. v.items) octets ≡ octets_of text.now) }
    // Memory is asked for only where the number of octets in the text is even, and not 0.
    ensures memory { OnErr result ((length text.now % 2 ≡ 0) × (0 < length text.now)) }
{
    if text.is_empty() || text.len() % 2 == 1 {
        return Ok(None);
    }
    let mut octets = Vec::new(alloc);
    octets.resize(text.len() / 2, 0)?;
    if decode(text, octets.as_mut_slice()) {
        Ok(Some(octets))
    } else {
        Ok(None)
    }
}

/// The octets that the text is, where its digits are in lower case. The digits are tested before memory is
/// asked for.
pub fn read_lower_octets(alloc: Global, text: &[u8]) -> Result<Option<Vec<u8>>, AllocError>
    ensures value { IfOk result (λ octets. option_map (λ v. v.items) octets ≡ lower_octets_of text.now) }
    // Memory runs out only where the text is octets.
    ensures memory { OnErr result (lower_octets_of text.now ≢ None) }
{
    if are_lower_digits(text) {
        read_octets(alloc, text)
    } else {
        Ok(None)
    }
}

fn are_lower_digits(text: &[u8]) -> bool
    ensures { result ≡ list_all is_lower_digit text.now }
{
    let mut all = true;
    for digit in text {
        all &= is_lower_digit(*digit);
    }
    all
}

fn is_lower_digit(octet: u8) -> bool
    ensures { result ≡ is_lower_digit octet }
{
    let decimal = octet.wrapping_sub(b'0') < 10;
    let lower = octet.wrapping_sub(b'a') < 6;
    decimal | lower
}

/// Each two digits as an octet; whether all of them are digits. Tests and decodes in one pass.
pub fn decode(digits: &[u8], octets: &mut [u8]) -> bool
    requires { length digits.now ≡ 2 * length octets.old }
    ensures digits { result ≡ list_all is_hex_digit digits.now }
    ensures octets { result ≡ true → decode_of digits.now ≡ Ok octets.new }
{
    if octets.len() < 16 {
        decode_each(digits, octets)
    } else {
        decode_blocks(digits, octets)
    }
}

// The same, an octet at a time.
fn decode_each(digits: &[u8], octets: &mut [u8]) -> bool
    requires { length digits.now ≡ 2 * length octets.old }
    ensures digits { result ≡ list_all is_hex_digit digits.now }
    ensures octets { result ≡ true → decode_of digits.now ≡ Ok octets.new }
{
    let mut all = true;
    for place in 0..octets.len() {
        let high = digits[2 * place];
        let low = digits[2 * place + 1];
        all &= is_hex_digit(high) & is_hex_digit(low);
        octets[place] = nibble(high).wrapping_mul(16).wrapping_add(nibble(low));
    }
    all
}

fn is_hex_digit(octet: u8) -> bool
    ensures { result ≡ is_hex_digit octet }
{
    let decimal = octet.wrapping_sub(b'0') < 10;
    let upper = octet.wrapping_sub(b'A') < 6;
    let lower = octet.wrapping_sub(b'a') < 6;
    decimal | upper | lower
}

// `0` to `9` are 0x30 to 0x39, `A` to `F` 0x41 to 0x46, and `a` to `f` 0x61 to 0x66.
fn nibble(digit: u8) -> u8
    ensures { is_hex_digit digit ≡ true → (hex_digit_value digit ≡ Some result) × (result < 16) }
{
    (digit % 16).wrapping_add((digit / 64).wrapping_mul(9))
}

/// Each octet as two digits, in lower case.
pub(crate) fn encode(octets: &[u8], digits: &mut [u8])
    requires { length digits.old ≡ 2 * length octets.now }
    ensures { digits.new ≡ encode_lower octets.now }
{
    if octets.len() < 16 {
        encode_each(octets, digits);
    } else {
        encode_blocks(octets, digits);
    }
}

// The same, an octet at a time.
fn encode_each(octets: &[u8], digits: &mut [u8])
    requires { length digits.old ≡ 2 * length octets.now }
    ensures { digits.new ≡ encode_lower octets.now }
{
    for place in 0..octets.len() {
        let octet = octets[place];
        digits[2 * place] = digit(octet / 16);
        digits[2 * place + 1] = digit(octet % 16);
    }
}

// The digit is computed, not looked up, so that the loop can be made of vectors.
fn digit(value: u8) -> u8
    requires { value < 16 }
    ensures { result ≡ slice_index lower_digits value }
{
    if value < 10 { value + 48 } else { value + 87 }
}
