//! Hexadecimal digits to octets, sixteen at a time.
ghost use Rattle.std.specs.Prelude.{◌≡◌, ◌++◌, ◌*◌, ◌+◌, ◌-◌, ◌%◌, ◌≤◌, ◌&&◌, length, take, map, min, bit_and};
ghost use Rattle.text_fields.specs.Blocks.{value_of, values_of, are_small, packed};

use std::simd::prelude::*;

const EVENS: [usize; 16] = [0, 2, 4, 6, 8, 10, 12, 14, 16, 18, 20, 22, 24, 26, 28, 30];

const ODDS: [usize; 16] = [1, 3, 5, 7, 9, 11, 13, 15, 17, 19, 21, 23, 25, 27, 29, 31];

/// Each two digits as an octet; whether all of them are digits. At least 16 octets.
pub(crate) fn decode_blocks(digits: &[u8], octets: &mut [u8]) -> bool
    requires twice { length digits.now ≡ 2 * length octets.old }
    requires room { 16 ≤ length octets.old }
    ensures octets { octets.new ≡ packed (values_of digits.now) }
    ensures good { result ≡ are_small (values_of digits.now) }
{
    let len = octets.len();
    let mut worst = u8x16::splat(0);
    for place in 0..len / 64 {
        worst = four_blocks(
            worst,
            &digits[128 * place..128 * place + 128],
            &mut octets[64 * place..64 * place + 64],
        );
    }
    is_small(decode_half(worst, digits, octets, len / 64 * 64))
}

// What is left behind whole rounds: half a round where it has that many, then what is left behind it.
#[inline(always)]
fn decode_half(worst: u8x16, digits: &[u8], octets: &mut [u8], done: usize) -> u8x16
    requires twice { length digits.now ≡ 2 * length octets.old }
    requires room { 16 ≤ length octets.old }
    requires left { length octets.old ≤ done + 64 }
    requires within { done ≤ length octets.old }
    requires octets { take done octets.old ≡ packed (take (2 * done) (values_of digits.now)) }
    requires worst { are_small worst ≡ are_small (take (2 * done) (values_of digits.now)) }
    ensures octets { octets.new ≡ packed (values_of digits.now) }
    ensures worst { are_small result ≡ are_small (values_of digits.now) }
{
    if done + 32 <= octets.len() {
        let worst = two_blocks(
            worst,
            &digits[2 * done..2 * done + 64],
            &mut octets[done..done + 32],
        );
        decode_rest(worst, digits, octets, done + 32)
    } else {
        decode_rest(worst, digits, octets, done)
    }
}

// At most two blocks: one more where it isn't the last, then the last.
fn decode_rest(worst: u8x16, digits: &[u8], octets: &mut [u8], done: usize) -> u8x16
    requires twice { length digits.now ≡ 2 * length octets.old }
    requires room { 16 ≤ length octets.old }
    requires left { length octets.old ≤ done + 32 }
    requires within { done ≤ length octets.old }
    requires octets { take done octets.old ≡ packed (take (2 * done) (values_of digits.now)) }
    requires worst { are_small worst ≡ are_small (take (2 * done) (values_of digits.now)) }
    ensures octets { octets.new ≡ packed (values_of digits.now) }
    ensures worst { are_small result ≡ are_small (values_of digits.now) }
{
    if done + 16 < octets.len() {
        let worst = block(
            worst,
            &digits[2 * done..2 * done + 32],
            &mut octets[done..done + 16],
        );
        decode_last(worst, digits, octets, done + 16)
    } else {
        decode_last(worst, digits, octets, done)
    }
}

// The last block may overlap the one before, so that no octet goes by itself.
fn decode_last(worst: u8x16, digits: &[u8], octets: &mut [u8], done: usize) -> u8x16
    requires twice { length digits.now ≡ 2 * length octets.old }
    requires room { 16 ≤ length octets.old }
    requires left { length octets.old ≤ done + 16 }
    requires within { done ≤ length octets.old }
    requires octets { take done octets.old ≡ packed (take (2 * done) (values_of digits.now)) }
    requires worst { are_small worst ≡ are_small (take (2 * done) (values_of digits.now)) }
    ensures octets { octets.new ≡ packed (values_of digits.now) }
    ensures worst { are_small result ≡ are_small (values_of digits.now) }
{
    let at = octets.len() - 16;
    block(
        worst,
        &digits[2 * at..2 * at + 32],
        &mut octets[at..at + 16],
    )
}

// 128 digits to 64 octets; four blocks a round, since the constants are loaded anew in each.
#[inline(always)]
fn four_blocks(worst: u8x16, digits: &[u8], octets: &mut [u8]) -> u8x16
    requires digits { length digits.now ≡ 128 }
    requires octets { length octets.old ≡ 64 }
    ensures octets { octets.new ≡ packed (values_of digits.now) }
    ensures worst { are_small result ≡ (are_small worst && are_small (values_of digits.now)) }
{
    let worst = two_blocks(worst, &digits[..64], &mut octets[..32]);
    two_blocks(worst, &digits[64..], &mut octets[32..])
}

// 64 digits to 32 octets.
#[inline(always)]
fn two_blocks(worst: u8x16, digits: &[u8], octets: &mut [u8]) -> u8x16
    requires digits { length digits.now ≡ 64 }
    requires octets { length octets.old ≡ 32 }
    ensures octets { octets.new ≡ packed (values_of digits.now) }
    ensures worst { are_small result ≡ (are_small worst && are_small (values_of digits.now)) }
{
    let worst = block(worst, &digits[..32], &mut octets[..16]);
    block(worst, &digits[32..], &mut octets[16..])
}

// 32 digits to 16 octets.
#[inline(always)]
fn block(worst: u8x16, digits: &[u8], octets: &mut [u8]) -> u8x16
    requires digits { length digits.now ≡ 32 }
    requires octets { length octets.old ≡ 16 }
    ensures octets { octets.new ≡ packed (values_of digits.now) }
    ensures worst { are_small result ≡ (are_small worst && are_small (values_of digits.now)) }
{
    let first = values(u8x16::from_slice(&digits[..16]));
    let second = values(u8x16::from_slice(&digits[16..]));
    packed(first, second).copy_to_slice(octets);
    greater(worst, greater(first, second))
}

// The value of each digit, and 16 or more where it is none.
#[inline(always)]
fn values(digits: u8x16) -> u8x16
    ensures { result ≡ map value_of digits }
{
    let decimal = plus(without(plus(digits, 0xff - b'9'), 6), 16);
    let letter = with(plus(masked(digits, 0xdf), 0xff - b'A' + 1), 10);
    decimal.simd_min(letter)
}

#[inline(always)]
fn plus(lanes: u8x16, more: u8) -> u8x16
    ensures { result ≡ map (λ x. (x + more) % 256) lanes }
{
    lanes + u8x16::splat(more)
}

#[inline(always)]
fn without(lanes: u8x16, less: u8) -> u8x16
    ensures { result ≡ map (λ x. x - less) lanes }
{
    lanes.saturating_sub(u8x16::splat(less))
}

// The constant comes first: so it is one instruction.
#[inline(always)]
fn with(lanes: u8x16, more: u8) -> u8x16
    ensures { result ≡ map (λ x. min 255 (more + x)) lanes }
{
    u8x16::splat(more).saturating_add(lanes)
}

#[inline(always)]
fn masked(lanes: u8x16, mask: u8) -> u8x16
    ensures { result ≡ map (λ x. bit_and x mask) lanes }
{
    lanes & u8x16::splat(mask)
}

#[inline(always)]
fn greater(first: u8x16, second: u8x16) -> u8x16
    ensures { are_small result ≡ (are_small first && are_small second) }
{
    first.simd_max(second)
}

// Each two values as an octet.
#[inline(always)]
fn packed(first: u8x16, second: u8x16) -> u8x16
    ensures { result ≡ packed (first ++ second) }
{
    let high = first.shuffle(second, EVENS);
    let low = first.shuffle(second, ODDS);
    high * u8x16::splat(16) + low
}

#[inline(always)]
fn is_small(worst: u8x16) -> bool
    ensures { result ≡ are_small worst }
{
    worst.simd_gt(u8x16::splat(15)).to_bitmask() == 0
}
