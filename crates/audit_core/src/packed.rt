//! Texts one behind another, in fewer octets: a text's longest field behind a space, where it is octets in lower-case
//! hexadecimal digits, stands as these octets. Whatever a text says, it is given back as it was.

ghost use Rattle.std.specs.Prelude.{◌≡◌, ℕ, ◌+◌, ◌*◌, ◌<◌, ◌≤◌, ◌^◌, ◌++◌, ◌∷◌, [], List, length, IfOk, OnOk};
ghost use Rattle.audit_core.specs.Packed.{IsField, KeepsFrom, field_of};
ghost use Rattle.wire_octets.specs.Numbers.{be24_octets};

use crate::NoMemory;
use std::alloc::Global;
use std::marker::Model;
use text_fields::{Text, read_lower_octets};
use wire_octets::{be24_at, be24_octets};

// The lengths of a text's parts stand before them: what is before the field, the field's octets, what is behind it.
const LENGTHS: usize = 9;

/// Texts, each of fewer than 2^24 octets. A contract sees the octets that they are kept in.
#[derive(Drop)]
pub struct Packed {
    octets: Vec<u8>,
}

impl Model for Packed {
    ghost use Rattle.std.specs.Prelude.{ℕ, List};

    ghost Value = { List ℕ };

    ghost view = { λ packed. packed.octets.items };
}

// The parts of a text; where no octets stand in it, its head is the whole text.
#[derive(Drop)]
struct TextParts<'a> {
    head: &'a [u8],
    octets: Vec<u8>,
    tail: &'a [u8],
}

// From where to where a field stands.
#[derive(Clone, Copy)]
struct Field {
    from: usize,
    to: usize,
}

impl Packed {
    /// No texts.
    pub(crate) fn new(alloc: Global) -> Packed
        ensures { KeepsFrom result 0 [] }
    {
        Packed {
            octets: Vec::new(alloc),
        }
    }

    /// The place behind all texts.
    pub(crate) fn end(&self) -> usize
        ensures place { result ≡ length self.now }
        ensures keeps { KeepsFrom self.now result [] }
    {
        self.octets.len()
    }

    /// One text more, at the place behind all others.
    pub(crate) fn push(&mut self, text: &[u8]) -> Result<(), NoMemory>
        requires { length text.now < 2 ^ 24 }
        ensures { (at : ℕ) (texts : List (List ℕ)) → KeepsFrom self.old at texts
            → OnOk result (KeepsFrom self.new at (texts ++ text.now ∷ [])) }
    {
        let alloc = *self.octets.allocator();
        let parts = parts_of(alloc, text)?;
        push_len(&mut self.octets, parts.head.len())?;
        push_len(&mut self.octets, parts.octets.len())?;
        push_len(&mut self.octets, parts.tail.len())?;
        self.octets.extend_from_slice(parts.head)?;
        self.octets.extend_from_slice(parts.octets.as_slice())?;
        self.octets.extend_from_slice(parts.tail)?;
        Ok(())
    }

    /// Writes the text that stands at a place, and says where the next one does.
    pub(crate) fn read(&self, at: usize, text: &mut Text) -> Result<usize, NoMemory>
        requires { (own : List ℕ) × (later : List (List ℕ)) × KeepsFrom self.now at (own ∷ later) }
        ensures text { (own : List ℕ) (later : List (List ℕ)) → KeepsFrom self.now at (own ∷ later)
            → OnOk result (text.new ≡ own) }
        ensures next { (own : List ℕ) (later : List (List ℕ)) → KeepsFrom self.now at (own ∷ later)
            → IfOk result (λ next. KeepsFrom self.now next later) }
    {
        let octets = self.octets.as_slice();
        let head = at + LENGTHS;
        let field = head + be24_at(octets, at) as usize;
        let tail = field + be24_at(octets, at + 3) as usize;
        let end = tail + be24_at(octets, at + 6) as usize;
        text.clear();
        text.extend_from_slice(&octets[head..field])?;
        if field < tail {
            text.push_octets(&octets[field..tail])?;
        }
        text.extend_from_slice(&octets[tail..end])?;
        Ok(end)
    }

    /// The place behind the text that stands at this one.
    pub(crate) fn behind(&self, at: usize) -> usize
        requires { (own : List ℕ) × (later : List (List ℕ)) × KeepsFrom self.now at (own ∷ later) }
        ensures { (own : List ℕ) (later : List (List ℕ)) → KeepsFrom self.now at (own ∷ later)
            → KeepsFrom self.now result later }
    {
        let octets = self.octets.as_slice();
        let head = be24_at(octets, at) as usize;
        let field = be24_at(octets, at + 3) as usize;
        let tail = be24_at(octets, at + 6) as usize;
        at + LENGTHS + head + field + tail
    }
}

fn push_len(octets: &mut Vec<u8>, len: usize) -> Result<(), NoMemory>
    requires { len < 2 ^ 24 }
    ensures { OnOk result (octets.new.items ≡ octets.old.items ++ be24_octets len) }
{
    octets.extend_from_slice(&be24_octets(len as u32))
}

fn parts_of<'a>(alloc: Global, text: &'a [u8]) -> Result<TextParts<'a>, NoMemory>
    ensures text { IfOk result (λ parts. text.now
        ≡ parts.head.now ++ field_of parts.octets.items ++ parts.tail.now) }
    ensures short { IfOk result (λ parts. length parts.octets.items ≤ length text.now) }
{
    let field = longest_field(text);
    if field.from > 0 {
        let found = read_lower_octets(alloc, &text[field.from..field.to])?;
        if let Some(octets) = found {
            return Ok(TextParts {
                head: &text[..field.from - 1],
                octets,
                tail: &text[field.to..],
            });
        }
    }
    Ok(TextParts {
        head: text,
        octets: Vec::new(alloc),
        tail: &text[text.len()..],
    })
}

// The longest field with a space before it; where there is none, it begins at 0.
fn longest_field(text: &[u8]) -> Field
    ensures { IsField text.now result.from result.to }
{
    let mut longest = Field { from: 0, to: 0 };
    let mut from = 0usize;
    for at in 0..text.len() {
        if text[at] == b' ' {
            longest = longer(longest, Field { from, to: at });
            from = at + 1;
        }
    }
    longer(
        longest,
        Field {
            from,
            to: text.len(),
        },
    )
}

fn longer(one: Field, other: Field) -> Field
    requires one { one.from ≤ one.to }
    requires other { other.from ≤ other.to }
    ensures { (text : List ℕ) → IsField text one.from one.to → IsField text other.from other.to
        → IsField text result.from result.to }
{
    if other.from > 0 && other.to - other.from > one.to - one.from {
        other
    } else {
        one
    }
}
