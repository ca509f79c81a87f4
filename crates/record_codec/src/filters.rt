//! Packet filters of a bearer.
ghost use Rattle.std.specs.Prelude.{◌≡◌};
ghost use Rattle.tft_codec.specs.Reading.{tft_at};
ghost use Rattle.record_codec.specs.Read.{Reads, Makes, Creates, times, begins_one, is_filter, filter_of};
ghost use Rattle.record_codec.specs.Read.{filter_at, filters_at};

use crate::fault::Fault;
use crate::fields::{Input, known_octets, measured_16, u8_at};
use std::alloc::Global;
use tft_codec::{Filter, Filters, TBad, Tft};

/// The first octet of a template that creates one filter (TS 24.008, 10.5.6.12).
const CREATE_ONE: u8 = 0x21;

/// Whether octets begin as a template that creates one filter, its spare bits 0.
fn begins_one(octets: &[u8]) -> bool
    ensures { result ≡ begins_one octets.now }
{
    match octets {
        [] => false,
        [first] => *first == CREATE_ONE,
        [first, head, ..] => *first == CREATE_ONE && *head < 64,
    }
}

/// The filter of a template that creates it alone.
fn filter_in(alloc: Global, octets: &[u8]) -> Result<Filter, Fault>
    ensures { Makes result (is_filter octets.now) (filter_of (tft_at octets.now)) }
{
    if !begins_one(octets) {
        return Err(Fault::NotState);
    }
    match tft_codec::read(alloc, octets) {
        Ok(tft) => only_filter(&tft),
        Err(TBad::NoMemory) => Err(Fault::NoMemory),
        Err(_) => Err(Fault::NotState),
    }
}

/// The first filter that a template creates.
fn only_filter(tft: &Tft) -> Result<Filter, Fault>
    ensures { Creates result tft.now }
{
    match tft {
        Tft::Create(filters) => match filters.as_slice() {
            [filter, ..] => Ok(filter.try_clone()?),
            [] => Err(Fault::NotState),
        },
        _ => Err(Fault::NotState),
    }
}

#[tactic(auto, unfolding(crate::specs::Read::filter_at, crate::specs::Read::such, crate::specs::Read::and_then))]
fn filter_at(alloc: Global, input: &mut Input<'_>) -> Result<Filter, Fault>
    ensures { Reads (λ x. x) result (filter_at input.old.rest.now) input.new.rest.now }
{
    let template = measured_16(input)?;
    let filter = filter_in(alloc, template)?;
    Ok(filter)
}

fn filters_of(alloc: Global, count: u8, input: &mut Input<'_>) -> Result<Vec<Filter>, Fault>
    ensures { Reads (λ xs. xs.items) result (times count filter_at input.old.rest.now) input.new.rest.now }
{
    let mut filters = Vec::new(alloc);
    for _ in 0..count {
        let filter = filter_at(alloc, input)?;
        filters.push(filter)?;
    }
    Ok(filters)
}

/// The filters of a bearer, behind their number: of different identifiers.
#[tactic(auto, unfolding(crate::specs::Read::such, crate::specs::Read::listed_at, crate::specs::Read::and_then))]
pub(crate) fn filters_at(alloc: Global, input: &mut Input<'_>) -> Result<Filters, Fault>
    ensures { Reads (λ x. x) result (filters_at input.old.rest.now) input.new.rest.now }
{
    let count = u8_at(input)?;
    known_octets(input.rest);
    let filters = filters_of(alloc, count, input)?;
    match Filters::of(filters) {
        Some(filters) => Ok(filters),
        None => Err(Fault::NotState),
    }
}
