//! Octets to hexadecimal digits, sixteen at a time.
ghost use Rattle.std.specs.Prelude.{◌≡◌, ◌*◌, ◌+◌, ◌≤◌, length, take, map};
ghost use Rattle.hex.specs.Hex.{encode_lower};
ghost use Rattle.text_fields.specs.Blocks.{high_digit, low_digit};

use std::simd::prelude::*;

const DIGITS: [u8; 16] = *b"0123456789abcdef";

// A high digit and its low one by turns: of the first eight octets, and of the others.
const FRONT: [usize; 16] = [0, 16, 1, 17, 2, 18, 3, 19, 4, 20, 5, 21, 6, 22, 7, 23];

const BACK: [usize; 16] = [8, 24, 9, 25, 10, 26, 11, 27, 12, 28, 13, 29, 14, 30, 15, 31];

/// Each octet as two digits, in lower case. At least 16 octets.
#[inline(always)]
pub(crate) fn encode_blocks(octets: &[u8], digits: &mut [u8])
    requires twice { length digits.old ≡ 2 * length octets.now }
    requires room { 16 ≤ length octets.now }
    ensures { digits.new ≡ encode_lower octets.now }
{
    let len = octets.len();
    for place in 0..len / 64 {
        encode_four(
            &octets[64 * place..64 * place + 64],
            &mut digits[128 * place..128 * place + 128],
        );
    }
    encode_half(octets, digits, len / 64 * 64);
}

// What is left behind whole rounds: half a round where it has that many, then what is left behind it.
#[inline(always)]
fn encode_half(octets: &[u8], digits: &mut [u8], done: usize)
    requires twice { length digits.old ≡ 2 * length octets.now }
    requires room { 16 ≤ length octets.now }
    requires left { length octets.now ≤ done + 64 }
    requires within { done ≤ length octets.now }
    requires digits { take (2 * done) digits.old ≡ encode_lower (take done octets.now) }
    ensures { digits.new ≡ encode_lower octets.now }
{
    if done + 32 <= octets.len() {
        encode_two(
            &octets[done..done + 32],
            &mut digits[2 * done..2 * done + 64],
        );
        encode_rest(octets, digits, done + 32);
    } else {
        encode_rest(octets, digits, done);
    }
}

// At most two blocks: one more where it isn't the last, then the last.
#[inline(always)]
fn encode_rest(octets: &[u8], digits: &mut [u8], done: usize)
    requires twice { length digits.old ≡ 2 * length octets.now }
    requires room { 16 ≤ length octets.now }
    requires left { length octets.now ≤ done + 32 }
    requires within { done ≤ length octets.now }
    requires digits { take (2 * done) digits.old ≡ encode_lower (take done octets.now) }
    ensures { digits.new ≡ encode_lower octets.now }
{
    if done + 16 < octets.len() {
        encode_block(
            &octets[done..done + 16],
            &mut digits[2 * done..2 * done + 32],
        );
        encode_last(octets, digits, done + 16);
    } else {
        encode_last(octets, digits, done);
    }
}

// The last block may overlap the one before, so that no octet goes by itself.
#[inline(always)]
fn encode_last(octets: &[u8], digits: &mut [u8], done: usize)
    requires twice { length digits.old ≡ 2 * length octets.now }
    requires room { 16 ≤ length octets.now }
    requires left { length octets.now ≤ done + 16 }
    requires within { done ≤ length octets.now }
    requires digits { take (2 * done) digits.old ≡ encode_lower (take done octets.now) }
    ensures { digits.new ≡ encode_lower octets.now }
{
    let at = octets.len() - 16;
    encode_block(&octets[at..at + 16], &mut digits[2 * at..2 * at + 32]);
}

// 64 octets to 128 digits; four blocks a round, since the constants are loaded anew in each.
#[inline(always)]
fn encode_four(octets: &[u8], digits: &mut [u8])
    requires octets { length octets.now ≡ 64 }
    requires digits { length digits.old ≡ 128 }
    ensures { digits.new ≡ encode_lower octets.now }
{
    encode_two(&octets[..32], &mut digits[..64]);
    encode_two(&octets[32..], &mut digits[64..]);
}

// 32 octets to 64 digits.
#[inline(always)]
fn encode_two(octets: &[u8], digits: &mut [u8])
    requires octets { length octets.now ≡ 32 }
    requires digits { length digits.old ≡ 64 }
    ensures { digits.new ≡ encode_lower octets.now }
{
    encode_block(&octets[..16], &mut digits[..32]);
    encode_block(&octets[16..], &mut digits[32..]);
}

// 16 octets to 32 digits.
#[inline(always)]
fn encode_block(octets: &[u8], digits: &mut [u8])
    requires octets { length octets.now ≡ 16 }
    requires digits { length digits.old ≡ 32 }
    ensures { digits.new ≡ encode_lower octets.now }
{
    let lanes = u8x16::from_slice(octets);
    let high = high_digits(lanes);
    let low = low_digits(lanes);
    high.shuffle(low, FRONT).copy_to_slice(&mut digits[..16]);
    high.shuffle(low, BACK).copy_to_slice(&mut digits[16..]);
}

/// Eight octets to 16 digits.
#[inline(always)]
pub(crate) fn encode_eight(octets: &[u8], digits: &mut [u8])
    requires octets { length octets.now ≡ 8 }
    requires digits { length digits.old ≡ 16 }
    ensures { digits.new ≡ encode_lower octets.now }
{
    let mut padded = [0; 16];
    padded[..8].copy_from_slice(octets);
    let lanes = u8x16::from_array(padded);
    let high = high_digits(lanes);
    let low = low_digits(lanes);
    high.shuffle(low, FRONT).copy_to_slice(digits);
}

#[inline(always)]
fn high_digits(octets: u8x16) -> u8x16
    ensures { result ≡ map high_digit octets }
{
    u8x16::from_array(DIGITS).swizzle_dyn(octets >> u8x16::splat(4))
}

#[inline(always)]
fn low_digits(octets: u8x16) -> u8x16
    ensures { result ≡ map low_digit octets }
{
    u8x16::from_array(DIGITS).swizzle_dyn(octets & u8x16::splat(15))
}
