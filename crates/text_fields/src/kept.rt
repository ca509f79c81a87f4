//! A text that is kept from line to line: its room is asked for once, and each part is written where it stands.
ghost use Rattle.std.specs.Prelude.{◌≡◌, ◌≢◌, ◌+◌, ◌*◌, ◌%◌, ◌<◌, ◌≤◌, ◌++◌, ◌∷◌, [], length, take, decimal};
ghost use Rattle.std.specs.Prelude.{Some, None, Ok, true, if◌then◌else◌, IfOk, OnOk, OnErr};
ghost use Rattle.std.specs.List.{list_all};
ghost use Rattle.std.specs.Vec.{vec_len};
ghost use Rattle.hex.specs.Hex.{decode_of, encode_lower, is_hex_digit};
ghost use Rattle.text_fields.specs.Address.{dotted};
ghost use Rattle.text_fields.specs.Hexadecimal.{octets_of};

use crate::head::Head;
use crate::hexadecimal::{decode, encode};
use std::alloc::{AllocError, Global};
use std::marker::Model;

// How many octets more than it needs a text asks for.
const SPARE: usize = 1_536;

/// A text that is appended to and emptied; contracts see it as its octets. What is emptied keeps its room.
#[derive(Debug, Drop)]
pub struct Text {
    buffer: Vec<u8>,
    len: usize,
}

impl Model for Text {
    ghost use Rattle.std.specs.Prelude.{ℕ, List, ◌≤◌, take};
    ghost use Rattle.std.specs.Vec.{vec_len};

    ghost Value = { List ℕ };

    ghost view = { λ text. take text.len text.buffer.items };

    ghost invariant = { λ text. text.len ≤ vec_len text.buffer };
}

impl Text {
    /// A text with nothing in it, and no room yet.
    pub fn new(alloc: Global) -> Text
        ensures { result ≡ [] }
    {
        Text {
            buffer: Vec::new(alloc),
            len: 0,
        }
    }

    /// A text of these octets; no memory is taken.
    pub fn of(octets: Vec<u8>) -> Text
        ensures { result ≡ octets.items }
    {
        let len = octets.len();
        Text {
            buffer: octets,
            len,
        }
    }

    /// A copy, with just the room that it needs.
    pub fn try_clone(&self) -> Result<Text, AllocError>
        ensures { IfOk result (λ copy. copy ≡ self.now) }
    {
        let octets = self.as_slice().to_vec(*self.buffer.allocator())?;
        Ok(Text::of(octets))
    }

    /// Reads the octets that digits are in place of what stood in it: whether they are some, an even number of digits
    /// in either case, at least two. Else nothing stands in it.
    #[inline(always)]
    pub fn read_octets(&mut self, digits: &[u8]) -> Result<bool, AllocError>
        ensures value { IfOk result (λ read. (if read then Some self.new else None) ≡ octets_of digits.now) }
        ensures emptied { result ≢ Ok true → self.new ≡ [] }
        // Memory is asked for only where the number of digits is even, and not 0.
        ensures memory { OnErr result ((length digits.now % 2 ≡ 0) × (0 < length digits.now)) }
    {
        self.len = 0;
        if digits.is_empty() || digits.len() % 2 == 1 {
            return Ok(false);
        }
        let count = digits.len() / 2;
        hold(&mut self.buffer, count)?;
        if !put_decoded(&mut self.buffer, count, digits) {
            return Ok(false);
        }
        self.len = count;
        Ok(true)
    }

    /// What stands in it.
    #[inline(always)]
    pub fn as_slice(&self) -> &[u8]
        ensures { result.now ≡ self.now }
    {
        &self.buffer.as_slice()[..self.len]
    }

    /// Empties it.
    pub fn clear(&mut self)
        ensures { self.new ≡ [] }
    {
        self.len = 0;
    }

    /// What stands in it, as a list of its own.
    pub fn into_octets(self) -> Vec<u8>
        ensures { result.items ≡ self }
    {
        let mut octets = self.buffer;
        octets.truncate(self.len);
        octets
    }

    /// Keeps the first octets alone.
    pub fn truncate(&mut self, len: usize)
        ensures { self.new ≡ take len self.old }
    {
        if len < self.len {
            self.len = len;
        }
    }

    /// Appends an octet. As with each call that appends, nothing is where memory runs out.
    #[inline(always)]
    pub fn push(&mut self, octet: u8) -> Result<(), AllocError>
        ensures appended { OnOk result (self.new ≡ self.old ++ octet ∷ []) }
        ensures kept { OnErr result (self.new ≡ self.old) }
    {
        make_room(&mut self.buffer, self.len, 1)?;
        self.len = put(&mut self.buffer, self.len, &[octet]);
        Ok(())
    }

    /// Appends octets as they are.
    #[inline(always)]
    pub fn extend_from_slice(&mut self, octets: &[u8]) -> Result<(), AllocError>
        ensures appended { OnOk result (self.new ≡ self.old ++ octets.now) }
        ensures kept { OnErr result (self.new ≡ self.old) }
    {
        make_room(&mut self.buffer, self.len, octets.len())?;
        self.len = put(&mut self.buffer, self.len, octets);
        Ok(())
    }

    /// Appends two parts as they are, one behind the other.
    pub fn push_parts(&mut self, first: &[u8], second: &[u8]) -> Result<(), AllocError>
        ensures appended { OnOk result (self.new ≡ self.old ++ first.now ++ second.now) }
        ensures kept { OnErr result (self.new ≡ self.old) }
    {
        make_room(
            &mut self.buffer,
            self.len,
            room_for(first.len(), second.len())?,
        )?;
        let at = put(&mut self.buffer, self.len, first);
        self.len = put(&mut self.buffer, at, second);
        Ok(())
    }

    /// Appends a head as it is, and behind it octets in hexadecimal, in lower case.
    #[inline(always)]
    pub fn push_headed(&mut self, head: &[u8], octets: &[u8]) -> Result<(), AllocError>
        ensures appended { OnOk result (self.new ≡ self.old ++ head.now ++ encode_lower octets.now) }
        ensures kept { OnErr result (self.new ≡ self.old) }
    {
        make_room(
            &mut self.buffer,
            self.len,
            room_for_digits(head.len(), octets.len())?,
        )?;
        let at = put(&mut self.buffer, self.len, head);
        self.len = put_digits(&mut self.buffer, at, octets);
        Ok(())
    }

    /// Appends a field of these octets.
    pub fn push_field(&mut self, field: &[u8]) -> Result<(), AllocError>
        ensures appended { OnOk result (self.new ≡ self.old ++ 32 ∷ field.now) }
        ensures kept { OnErr result (self.new ≡ self.old) }
    {
        self.push_parts(b" ", field)
    }

    /// Appends a number in decimal.
    pub fn push_number(&mut self, number: u64) -> Result<(), AllocError>
        ensures appended { OnOk result (self.new ≡ self.old ++ 32 ∷ decimal number) }
        ensures kept { OnErr result (self.new ≡ self.old) }
    {
        let mut head = Head::new();
        head.put_number(number);
        self.extend_from_slice(head.as_slice())
    }

    /// Appends an address, dotted.
    pub fn push_address(&mut self, address: u32) -> Result<(), AllocError>
        ensures appended { OnOk result (self.new ≡ self.old ++ 32 ∷ dotted address) }
        ensures kept { OnErr result (self.new ≡ self.old) }
    {
        let mut head = Head::new();
        head.put_address(address);
        self.extend_from_slice(head.as_slice())
    }

    /// Appends octets in hexadecimal, in lower case.
    pub fn push_octets(&mut self, octets: &[u8]) -> Result<(), AllocError>
        ensures appended { OnOk result (self.new ≡ self.old ++ 32 ∷ encode_lower octets.now) }
        ensures kept { OnErr result (self.new ≡ self.old) }
    {
        self.push_headed(b" ", octets)
    }
}

// How many octets two parts take.
#[inline(always)]
fn room_for(first: usize, second: usize) -> Result<usize, AllocError>
    ensures { IfOk result (λ room. room ≡ first + second) }
{
    match first.checked_add(second) {
        Some(room) => Ok(room),
        None => Err(AllocError),
    }
}

// How many octets a head of this length and so many octets in hexadecimal take.
#[inline(always)]
fn room_for_digits(head: usize, octets: usize) -> Result<usize, AllocError>
    ensures { IfOk result (λ room. room ≡ head + 2 * octets) }
{
    match octets.checked_mul(2) {
        Some(digits) => room_for(head, digits),
        None => Err(AllocError),
    }
}

// Makes room for so many octets behind the first ones.
#[inline(always)]
fn make_room(buffer: &mut Vec<u8>, len: usize, more: usize) -> Result<(), AllocError>
    requires { len ≤ vec_len buffer.old }
    ensures kept { take len buffer.new.items ≡ take len buffer.old.items }
    ensures within { len ≤ vec_len buffer.new }
    ensures room { OnOk result (len + more ≤ vec_len buffer.new) }
{
    if buffer.len() - len >= more {
        return Ok(());
    }
    grow(buffer, more)
}

// Makes the buffer longer by so many octets at least.
#[inline(never)]
fn grow(buffer: &mut Vec<u8>, more: usize) -> Result<(), AllocError>
    ensures kept { take (vec_len buffer.old) buffer.new.items ≡ buffer.old.items }
    ensures within { vec_len buffer.old ≤ vec_len buffer.new }
    ensures room { OnOk result (vec_len buffer.old + more ≤ vec_len buffer.new) }
{
    let Some(len) = buffer.len().checked_add(more) else {
        return Err(AllocError);
    };
    buffer.resize(len.saturating_add(SPARE), 0)
}

// Makes room for so many octets in all, and for no more.
#[inline(always)]
fn hold(buffer: &mut Vec<u8>, len: usize) -> Result<(), AllocError>
    ensures { OnOk result (len ≤ vec_len buffer.new) }
{
    if buffer.len() >= len {
        return Ok(());
    }
    lengthen(buffer, len)
}

#[inline(never)]
fn lengthen(buffer: &mut Vec<u8>, len: usize) -> Result<(), AllocError>
    ensures { OnOk result (len ≤ vec_len buffer.new) }
{
    buffer.resize(len, 0)
}

// Writes octets at a place: where they end.
#[inline(always)]
fn put(buffer: &mut Vec<u8>, at: usize, octets: &[u8]) -> usize
    requires { at + length octets.now ≤ vec_len buffer.old }
    ensures value { take result buffer.new.items ≡ take at buffer.old.items ++ octets.now }
    ensures end { result ≡ at + length octets.now }
    ensures len { vec_len buffer.new ≡ vec_len buffer.old }
{
    let end = at + octets.len();
    buffer.as_mut_slice()[at..end].copy_from_slice(octets);
    end
}

// Writes octets in hexadecimal at a place: where they end.
#[inline(always)]
fn put_digits(buffer: &mut Vec<u8>, at: usize, octets: &[u8]) -> usize
    requires { at + 2 * length octets.now ≤ vec_len buffer.old }
    ensures value { take result buffer.new.items ≡ take at buffer.old.items ++ encode_lower octets.now }
    ensures end { result ≡ at + 2 * length octets.now }
    ensures len { vec_len buffer.new ≡ vec_len buffer.old }
{
    let end = at + 2 * octets.len();
    encode(octets, &mut buffer.as_mut_slice()[at..end]);
    end
}

// Writes the octets that digits are at the start; whether all of them are digits.
#[inline(always)]
fn put_decoded(buffer: &mut Vec<u8>, len: usize, digits: &[u8]) -> bool
    requires digits { length digits.now ≡ 2 * len }
    requires room { len ≤ vec_len buffer.old }
    ensures digits { result ≡ list_all is_hex_digit digits.now }
    ensures value { result ≡ true → decode_of digits.now ≡ Ok (take len buffer.new.items) }
    ensures len { vec_len buffer.new ≡ vec_len buffer.old }
{
    decode_prefix(buffer.as_mut_slice(), len, digits)
}

// The same of a slice.
#[inline(always)]
fn decode_prefix(buffer: &mut [u8], len: usize, digits: &[u8]) -> bool
    requires digits { length digits.now ≡ 2 * len }
    requires room { len ≤ length buffer.old }
    ensures digits { result ≡ list_all is_hex_digit digits.now }
    ensures value { result ≡ true → decode_of digits.now ≡ Ok (take len buffer.new) }
{
    decode(digits, &mut buffer[..len])
}
