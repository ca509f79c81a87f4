//! Octets to a template.

ghost use Rattle.std.specs.Prelude.{◌≡◌, ◌≢◌, ◌<◌, ◌≤◌, [], IfOk, IfErr, IfSome};
ghost use Rattle.wire_octets.specs.Memory.{OrNoMemory};
ghost use Rattle.wire_octets.specs.Numbers.{be16_at, be32_at};
ghost use Rattle.tft_codec.specs.declared.tft.Tft.{Tft};
ghost use Rattle.tft_codec.specs.Filter.{ids};
ghost use Rattle.tft_codec.specs.Spelling.{Spells};
ghost use Rattle.tft_codec.specs.Reading.{
  Finds,
  number_at,
  octet_at,
  pair_at,
  component_of,
  components_or_none,
  filter_at,
  after_filter,
  filters_at,
  ids_at,
  tft_at,
};
ghost use Rattle.tft_codec.specs.Refusal.{
  Reads,
  ReadsFirst,
  contents_fault,
  filter_fault,
  filters_fault,
  ids_fault,
  first_octet_fault,
  first_fault,
};

use crate::component::{
    Component, Components, LOCAL_ADDRESS, LOCAL_PORT, LOCAL_PORT_RANGE, PROTOCOL, REMOTE_ADDRESS,
    REMOTE_PORT, REMOTE_PORT_RANGE, SECURITY_PARAMETER_INDEX, TYPE_OF_SERVICE, has_type,
};
use crate::fault::TBad;
use crate::filter::{Filter, Ids, PacketFilters, contains_id, has_id};
use crate::tft::{
    ADD_FILTERS, CREATE_TFT, DELETE_FILTERS, DELETE_TFT, NO_OPERATION, REPLACE_FILTERS, Tft,
};
use std::alloc::Global;
use wire_octets::{be16, be32};

fn u32_at(bytes: &[u8]) -> Option<(u32, &[u8])>
    ensures { Finds (λ x. (x.0, x.1.now)) result (number_at 4 be32_at bytes.now) }
{
    let number = be32(bytes, 0)?;
    let (_, rest) = bytes.split_at(4);
    Some((number, rest))
}

fn u16_at(bytes: &[u8]) -> Option<(u16, &[u8])>
    ensures { Finds (λ x. (x.0, x.1.now)) result (number_at 2 be16_at bytes.now) }
{
    let number = be16(bytes, 0)?;
    let (_, rest) = bytes.split_at(2);
    Some((number, rest))
}

fn u8_at(bytes: &[u8]) -> Option<(u8, &[u8])>
    ensures { Finds (λ x. (x.0, x.1.now)) result (octet_at bytes.now) }
{
    match bytes {
        [] => None,
        [octet, rest @ ..] => Some((*octet, rest)),
    }
}

fn pair_u32(bytes: &[u8]) -> Option<((u32, u32), &[u8])>
    ensures { Finds (λ x. (x.0.0, x.0.1, x.1.now)) result (pair_at (number_at 4 be32_at) bytes.now) }
{
    let (first, rest) = u32_at(bytes)?;
    let (second, rest) = u32_at(rest)?;
    Some(((first, second), rest))
}

fn pair_u16(bytes: &[u8]) -> Option<((u16, u16), &[u8])>
    ensures { Finds (λ x. (x.0.0, x.0.1, x.1.now)) result (pair_at (number_at 2 be16_at) bytes.now) }
{
    let (first, rest) = u16_at(bytes)?;
    let (second, rest) = u16_at(rest)?;
    Some(((first, second), rest))
}

fn pair_u8(bytes: &[u8]) -> Option<((u8, u8), &[u8])>
    ensures { Finds (λ x. (x.0.0, x.0.1, x.1.now)) result (pair_at octet_at bytes.now) }
{
    let (first, rest) = u8_at(bytes)?;
    let (second, rest) = u8_at(rest)?;
    Some(((first, second), rest))
}

/// The component of a type octet, by what follows it, and the octets behind; None where the type is unknown or the
/// octets are too few (TS 24.008, section 10.5.6.12).
#[tactic(auto, unfolding(crate::specs::Reading::component_of))]
pub fn component_at(kind: u8, bytes: &[u8]) -> Option<(Component, &[u8])>
    ensures { Finds (λ x. (x.0, x.1.now)) result (component_of kind bytes.now) }
{
    match kind {
        REMOTE_ADDRESS => {
            let ((address, mask), rest) = pair_u32(bytes)?;
            Some((Component::RemoteAddr(address, mask), rest))
        }
        LOCAL_ADDRESS => {
            let ((address, mask), rest) = pair_u32(bytes)?;
            Some((Component::LocalAddr(address, mask), rest))
        }
        PROTOCOL => {
            let (number, rest) = u8_at(bytes)?;
            Some((Component::Protocol(number), rest))
        }
        LOCAL_PORT => {
            let (port, rest) = u16_at(bytes)?;
            Some((Component::LocalPort(port), rest))
        }
        LOCAL_PORT_RANGE => {
            let ((low, high), rest) = pair_u16(bytes)?;
            Some((Component::LocalRange(low, high), rest))
        }
        REMOTE_PORT => {
            let (port, rest) = u16_at(bytes)?;
            Some((Component::RemotePort(port), rest))
        }
        REMOTE_PORT_RANGE => {
            let ((low, high), rest) = pair_u16(bytes)?;
            Some((Component::RemoteRange(low, high), rest))
        }
        SECURITY_PARAMETER_INDEX => {
            let (spi, rest) = u32_at(bytes)?;
            Some((Component::Spi(spi), rest))
        }
        TYPE_OF_SERVICE => {
            let ((value, mask), rest) = pair_u8(bytes)?;
            Some((Component::Tos(value, mask), rest))
        }
        _ => None,
    }
}

/// The components that the contents of a filter are.
fn components_in(alloc: Global, contents: &[u8]) -> Result<Components, TBad>
    ensures { Reads (λ cs. cs) result (contents_fault contents.now) (components_or_none contents.now) }
{
    let mut items = Vec::new(alloc);
    let mut rest = contents;
    while let Some((kind, after)) = u8_at(rest) {
        let Some((item, after)) = component_at(kind, after) else {
            return Err(TBad::Component);
        };
        if has_type(&items, kind) {
            return Err(TBad::Component);
        }
        items.push(item)?;
        rest = after;
    }
    Ok(Components { items })
}

/// The filter at the start, behind others.
#[tactic(auto, unfolding(crate::specs::Refusal::filter_fault))]
fn filter_of<'a>(
    alloc: Global,
    before: &[Filter],
    bytes: &'a [u8],
) -> Result<(Filter, &'a [u8]), TBad>
    ensures { ReadsFirst result (filter_fault (ids before.now) bytes.now)
        (filter_at bytes.now) (after_filter bytes.now) }
{
    if bytes.len() < 3 {
        return Err(TBad::Short);
    }
    let id = bytes[0] % 16;
    if has_id(before, id) {
        return Err(TBad::RepeatedId);
    }
    let len = bytes[2] as usize;
    if bytes.len() < 3 + len {
        return Err(TBad::Short);
    }
    let (_head, rest) = bytes.split_at(3);
    let (contents, rest) = rest.split_at(len);
    let components = components_in(alloc, contents)?;
    let filter = Filter {
        id,
        direction: bytes[0] / 16 % 4,
        precedence: bytes[1],
        components,
    };
    Ok((filter, rest))
}

/// That many filters, and nothing behind them.
fn filters_of(alloc: Global, number: u8, bytes: &[u8]) -> Result<PacketFilters, TBad>
    requires some { 0 < number }
    requires few { number ≤ 15 }
    ensures { Reads (λ fs. fs) result (filters_fault number [] bytes.now) (filters_at number bytes.now) }
{
    let mut items = Vec::new(alloc);
    let mut rest = bytes;
    for _ in 0..number {
        let (filter, after) = filter_of(alloc, &items, rest)?;
        items.push(filter)?;
        rest = after;
    }
    if !rest.is_empty() {
        return Err(TBad::Trailing);
    }
    Ok(PacketFilters { items })
}

/// That many identifiers, and nothing behind them.
fn ids_of(alloc: Global, number: u8, bytes: &[u8]) -> Result<Ids, TBad>
    requires some { 0 < number }
    requires few { number ≤ 15 }
    ensures { Reads (λ xs. xs) result (ids_fault number [] bytes.now) (ids_at bytes.now) }
{
    let mut items = Vec::new(alloc);
    let mut rest = bytes;
    for _ in 0..number {
        let Some((first, after)) = u8_at(rest) else {
            return Err(TBad::Short);
        };
        let id = first % 16;
        if contains_id(&items, id) {
            return Err(TBad::RepeatedId);
        }
        items.push(id)?;
        rest = after;
    }
    if !rest.is_empty() {
        return Err(TBad::Trailing);
    }
    Ok(Ids { items })
}

/// The template that the octets are, all of them.
fn whole(alloc: Global, bytes: &[u8]) -> Result<Tft, TBad>
    ensures read { Reads (λ t. t) result (first_fault bytes.now) (tft_at bytes.now) }
    ensures first_octet { IfSome (first_octet_fault bytes.now) (λ fault. result ≡ Err fault) }
{
    let Some((first, rest)) = u8_at(bytes) else {
        return Err(TBad::Short);
    };
    if first / 16 % 2 == 1 {
        return Err(TBad::Parameters);
    }
    let number = first % 16;
    match first / 32 {
        CREATE_TFT if number != 0 => Ok(Tft::Create(filters_of(alloc, number, rest)?)),
        ADD_FILTERS if number != 0 => Ok(Tft::Add(filters_of(alloc, number, rest)?)),
        REPLACE_FILTERS if number != 0 => Ok(Tft::Replace(filters_of(alloc, number, rest)?)),
        DELETE_FILTERS if number != 0 => Ok(Tft::Remove(ids_of(alloc, number, rest)?)),
        DELETE_TFT if number == 0 => {
            if rest.is_empty() {
                Ok(Tft::Delete)
            } else {
                Err(TBad::Trailing)
            }
        }
        NO_OPERATION if number == 0 => {
            if rest.is_empty() {
                Ok(Tft::Nothing)
            } else {
                Err(TBad::Trailing)
            }
        }
        _ => Err(TBad::Operation),
    }
}

/// The template that the octets spell, all of them.
pub fn read(alloc: Global, bytes: &[u8]) -> Result<Tft, TBad>
    // What is read is spelled so, and what is spelled so is read.
    ensures found { IfOk result (λ t. Spells bytes.now t) }
    ensures only { (t : Tft) → Spells bytes.now t → OrNoMemory result (Ok t) TBad.NoMemory }

    // A refusal is the first fault, and each fault is refused.
    ensures refused { IfErr result (λ fault. fault ≢ TBad.NoMemory → first_fault bytes.now ≡ Some fault) }
    ensures fault { IfSome (first_fault bytes.now) (λ fault. OrNoMemory result (Err fault) TBad.NoMemory) }

    // What is wrong with the first octet is told without memory.
    ensures first_octet { IfSome (first_octet_fault bytes.now) (λ fault. result ≡ Err fault) }
{
    whole(alloc, bytes)
}
