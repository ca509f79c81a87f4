//! The head of a line, put together from its last field to its first: each number ends where the next field
//! begins, so no length is counted, and what is written is never moved.
ghost use Rattle.std.specs.Prelude.{◌≡◌, ◌+◌, ◌≤◌, ◌++◌, [], ◌∷◌, length, drop, decimal};
ghost use Rattle.hex.specs.Hex.{encode_lower};
ghost use Rattle.text_fields.specs.Address.{dotted};

use crate::encoding::encode_eight;
use itoa::write_digits;
use std::marker::Model;

/// How many octets a head has at most.
pub const HEAD_LEN: usize = 160;

/// The head of a line; contracts see it as the octets that stand in it.
#[derive(Drop)]
pub struct Head {
    octets: [u8; HEAD_LEN],
    from: usize,
}

impl Model for Head {
    ghost use Rattle.std.specs.Prelude.{ℕ, List, ◌≤◌, drop};

    ghost Value = { List ℕ };

    ghost view = { λ head. drop head.from head.octets };

    ghost invariant = { λ head. head.from ≤ 160 };
}

impl Head {
    /// A head with nothing in it.
    #[inline(always)]
    pub fn new() -> Head
        ensures { result ≡ [] }
    {
        Head {
            octets: [0; HEAD_LEN],
            from: HEAD_LEN,
        }
    }

    /// What stands in it.
    #[inline(always)]
    pub fn as_slice(&self) -> &[u8]
        ensures { result.now ≡ self.now }
    {
        &self.octets[self.from..]
    }

    /// Puts an octet at the start.
    #[inline(always)]
    pub fn put(&mut self, octet: u8)
        requires { length self.old + 1 ≤ HEAD_LEN }
        ensures { self.new ≡ octet ∷ self.old }
    {
        self.from = octet_before(&mut self.octets, self.from, octet);
    }

    /// Puts a field at the start: a space and the octets.
    #[inline(always)]
    pub fn put_word(&mut self, word: &[u8])
        requires { length self.old + (length word.now + 1) ≤ HEAD_LEN }
        ensures { self.new ≡ 32 ∷ word.now ++ self.old }
    {
        self.from = word_before(&mut self.octets, self.from, b' ', word);
    }

    /// Puts a number at the start: a space and its decimal digits, 21 octets at most.
    #[inline(always)]
    pub fn put_number(&mut self, number: u64)
        requires { length self.old + 21 ≤ HEAD_LEN }
        ensures value { self.new ≡ 32 ∷ decimal number ++ self.old }
        ensures len { length self.new ≤ length self.old + 21 }
    {
        self.from = number_before(&mut self.octets, self.from, b' ', number);
    }

    /// Puts an address at the start: a space and the address dotted, 16 octets at most.
    #[inline(always)]
    pub fn put_address(&mut self, address: u32)
        requires { length self.old + 16 ≤ HEAD_LEN }
        ensures value { self.new ≡ 32 ∷ dotted address ++ self.old }
        ensures len { length self.new ≤ length self.old + 16 }
    {
        let [first, second, third, fourth] = address.to_be_bytes();
        self.put_part(b'.', fourth);
        self.put_part(b'.', third);
        self.put_part(b'.', second);
        self.put_part(b' ', first);
    }

    /// Puts eight octets in hexadecimal at the start, in lower case.
    #[inline(always)]
    pub fn put_eight(&mut self, octets: [u8; 8])
        requires { length self.old + 16 ≤ HEAD_LEN }
        ensures value { self.new ≡ encode_lower octets ++ self.old }
        ensures len { length self.new ≡ length self.old + 16 }
    {
        self.from = eight_before(&mut self.octets, self.from, octets);
    }

    /// Puts an octet and a number of eight bits at the start, 4 octets at most.
    #[inline(always)]
    pub fn put_part(&mut self, octet: u8, part: u8)
        requires { length self.old + 4 ≤ HEAD_LEN }
        ensures value { self.new ≡ octet ∷ decimal part ++ self.old }
        ensures len { length self.new ≤ length self.old + 4 }
    {
        self.from = part_before(&mut self.octets, self.from, octet, part);
    }
}

fn octet_before(octets: &mut [u8; HEAD_LEN], end: usize, octet: u8) -> usize
    requires room { 1 ≤ end }
    requires within { end ≤ HEAD_LEN }
    ensures value { drop result octets.new ≡ octet ∷ drop end octets.old }
    ensures room { result + 1 ≡ end }
{
    let at = end - 1;
    octets[at] = octet;
    at
}

fn eight_before(octets: &mut [u8; HEAD_LEN], end: usize, eight: [u8; 8]) -> usize
    requires room { 16 ≤ end }
    requires within { end ≤ HEAD_LEN }
    ensures value { drop result octets.new ≡ encode_lower eight ++ drop end octets.old }
    ensures len { length (drop result octets.new) ≡ length (drop end octets.old) + 16 }
    ensures within { result ≤ HEAD_LEN }
{
    let at = end - 16;
    encode_eight(&eight, &mut octets[at..end]);
    at
}

fn word_before(octets: &mut [u8; HEAD_LEN], end: usize, octet: u8, word: &[u8]) -> usize
    requires room { length word.now + 1 ≤ end }
    requires within { end ≤ HEAD_LEN }
    ensures value { drop result octets.new ≡ octet ∷ word.now ++ drop end octets.old }
    ensures room { result + (length word.now + 1) ≡ end }
{
    let at = end - word.len();
    octets[at..end].copy_from_slice(word);
    octet_before(octets, at, octet)
}

fn number_before(octets: &mut [u8; HEAD_LEN], end: usize, octet: u8, number: u64) -> usize
    requires room { 21 ≤ end }
    requires within { end ≤ HEAD_LEN }
    ensures value { drop result octets.new ≡ octet ∷ decimal number ++ drop end octets.old }
    ensures len { length (drop result octets.new) ≤ length (drop end octets.old) + 21 }
    ensures within { result ≤ HEAD_LEN }
{
    let at = write_digits(number, octets, end);
    octet_before(octets, at, octet)
}

fn part_before(octets: &mut [u8; HEAD_LEN], end: usize, octet: u8, part: u8) -> usize
    requires room { 4 ≤ end }
    requires within { end ≤ HEAD_LEN }
    ensures value { drop result octets.new ≡ octet ∷ decimal part ++ drop end octets.old }
    ensures len { length (drop result octets.new) ≤ length (drop end octets.old) + 4 }
    ensures within { result ≤ HEAD_LEN }
{
    let at = write_digits(u64::from(part), octets, end);
    octet_before(octets, at, octet)
}
