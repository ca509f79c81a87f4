//! A template to octets.

ghost use Rattle.std.specs.Prelude.{◌≡◌, ◌≤◌, ◌<◌, ◌++◌, length, OnOk, IfOk, ◌*◌, ◌+◌};
ghost use Rattle.tft_codec.specs.Component.{component_text, contents, AreComponents};
ghost use Rattle.tft_codec.specs.Filter.{IsFilter, ArePacketFilters};
ghost use Rattle.tft_codec.specs.Spelling.{Spells, spelling, filter_text, entries_text};

use crate::NoMemory;
use crate::component::Component;
use crate::filter::Filter;
use crate::tft::{
    ADD_FILTERS, CREATE_TFT, DELETE_FILTERS, DELETE_TFT, NO_OPERATION, REPLACE_FILTERS, Tft,
};
use std::alloc::Global;
use wire_octets::{be16_octets, be32_octets};

fn put_component(text: &mut Vec<u8>, component: &Component) -> Result<(), NoMemory>
    ensures { OnOk result (text.new.items ≡ text.old.items ++ component_text component.now) }
{
    text.push(component.type_octet())?;
    match component {
        Component::RemoteAddr(first, second) | Component::LocalAddr(first, second) => {
            text.extend_from_slice(&be32_octets(*first))?;
            text.extend_from_slice(&be32_octets(*second))?;
        }
        Component::Protocol(number) => text.push(*number)?,
        Component::LocalPort(port) | Component::RemotePort(port) => {
            text.extend_from_slice(&be16_octets(*port))?;
        }
        Component::LocalRange(low, high) | Component::RemoteRange(low, high) => {
            text.extend_from_slice(&be16_octets(*low))?;
            text.extend_from_slice(&be16_octets(*high))?;
        }
        Component::Spi(spi) => text.extend_from_slice(&be32_octets(*spi))?,
        Component::Tos(value, mask) => {
            text.push(*value)?;
            text.push(*mask)?;
        }
    }
    Ok(())
}

/// How many octets the components of a filter take: at most 44.
fn contents_len(components: &[Component]) -> u8
    requires { AreComponents components.now }
    ensures { result ≡ length (contents components.now) }
{
    let mut len = 0;
    for component in components {
        len += component.text_len();
    }
    len as u8
}

fn put_filter(text: &mut Vec<u8>, filter: &Filter) -> Result<(), NoMemory>
    requires { IsFilter filter.now }
    ensures { OnOk result (text.new.items ≡ text.old.items ++ filter_text filter.now) }
{
    let components = filter.components.as_slice();
    text.push(16 * filter.direction + filter.id)?;
    text.push(filter.precedence)?;
    text.push(contents_len(components))?;
    for component in components {
        put_component(text, component)?;
    }
    Ok(())
}

/// The text of an operation with filters.
fn entries(alloc: Global, operation: u8, filters: &[Filter]) -> Result<Vec<u8>, NoMemory>
    requires operation { operation < 8 }
    requires filters { ArePacketFilters filters.now }
    ensures { IfOk result (λ text. text.items ≡ entries_text operation filters.now) }
{
    let mut text = Vec::new(alloc);
    text.push(32 * operation + filters.len() as u8)?;
    for filter in filters {
        put_filter(&mut text, filter)?;
    }
    Ok(text)
}

/// The text of the template.
fn text_of(alloc: Global, tft: &Tft) -> Result<Vec<u8>, NoMemory>
    ensures { IfOk result (λ text. text.items ≡ spelling tft.now) }
{
    match tft {
        Tft::Create(filters) => entries(alloc, CREATE_TFT, filters.as_slice()),
        Tft::Delete => Vec::from_slice(alloc, &[32 * DELETE_TFT]),
        Tft::Add(filters) => entries(alloc, ADD_FILTERS, filters.as_slice()),
        Tft::Replace(filters) => entries(alloc, REPLACE_FILTERS, filters.as_slice()),
        Tft::Remove(ids) => {
            let ids = ids.as_slice();
            let mut text = Vec::from_slice(alloc, &[32 * DELETE_FILTERS + ids.len() as u8])?;
            text.extend_from_slice(ids)?;
            Ok(text)
        }
        Tft::Nothing => Vec::from_slice(alloc, &[32 * NO_OPERATION]),
    }
}

/// The one text of the template, of at most 706 octets, with spare bits 0.
pub fn write(alloc: Global, tft: &Tft) -> Result<Vec<u8>, NoMemory>
    ensures text { IfOk result (λ text. text.items ≡ spelling tft.now) }
    ensures reads_back { IfOk result (λ text. Spells text.items tft.now) }
    ensures bound { IfOk result (λ text. length text.items ≤ 706) }
{
    tft.known();
    text_of(alloc, tft)
}
