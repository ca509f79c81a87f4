//! Fields of one to eight octets at the start of octets, and values behind a flag or a length.
ghost use Rattle.std.specs.Prelude.{◌<◌, ◌^◌, IfOk};
ghost use Rattle.std.specs.Int.{w16, w32, w64};
ghost use Rattle.record_codec.specs.Read.{Reads, octet_at, number_at, octets_at, measured_at, count_at, rate_at};
ghost use Rattle.record_codec.specs.Read.{flag_at, option_at};
ghost use Rattle.wire_octets.specs.Numbers.{AreOctets};

use crate::fault::Fault;
use pc_base::{Kbps, Moment};

/// Counts and moments are below this.
const COUNTS: u64 = 1 << 50;

/// Rates are below this.
const RATES: u64 = 1 << 40;

/// The octets that are still to be read.
#[derive(Drop)]
pub(crate) struct Input<'a> {
    pub(crate) rest: &'a [u8],
}

impl<'a> Input<'a> {
    /// The next octets, so many.
    fn octets(&mut self, len: usize) -> Result<&'a [u8], Fault>
        ensures { Reads (λ xs. xs.now) result (octets_at len self.old.rest.now) self.new.rest.now }
    {
        if self.rest.len() < len {
            return Err(Fault::NotState);
        }
        let (prefix, rest) = self.rest.split_at(len);
        self.rest = rest;
        Ok(prefix)
    }
}

/// Each of some octets is below 256.
pub(crate) fn known_octets(octets: &[u8])
    ensures { AreOctets octets.now }
{}

pub(crate) fn u8_at(input: &mut Input<'_>) -> Result<u8, Fault>
    ensures { Reads (λ x. x) result (octet_at input.old.rest.now) input.new.rest.now }
{
    match input.rest {
        [] => Err(Fault::NotState),
        [octet, rest @ ..] => {
            input.rest = rest;
            Ok(*octet)
        }
    }
}

pub(crate) fn u16_at(input: &mut Input<'_>) -> Result<u16, Fault>
    ensures { Reads (λ x. x) result (number_at w16 input.old.rest.now) input.new.rest.now }
{
    if input.rest.len() < 2 {
        return Err(Fault::NotState);
    }
    let (prefix, rest) = input.rest.split_at(2);
    let number = u16::from_be_bytes([prefix[0], prefix[1]]);
    input.rest = rest;
    Ok(number)
}

pub(crate) fn u32_at(input: &mut Input<'_>) -> Result<u32, Fault>
    ensures { Reads (λ x. x) result (number_at w32 input.old.rest.now) input.new.rest.now }
{
    if input.rest.len() < 4 {
        return Err(Fault::NotState);
    }
    let (prefix, rest) = input.rest.split_at(4);
    let number = u32::from_be_bytes([prefix[0], prefix[1], prefix[2], prefix[3]]);
    input.rest = rest;
    Ok(number)
}

pub(crate) fn u64_at(input: &mut Input<'_>) -> Result<u64, Fault>
    ensures { Reads (λ x. x) result (number_at w64 input.old.rest.now) input.new.rest.now }
{
    if input.rest.len() < 8 {
        return Err(Fault::NotState);
    }
    let (prefix, rest) = input.rest.split_at(8);
    let number = u64::from_be_bytes([
        prefix[0], prefix[1], prefix[2], prefix[3], prefix[4], prefix[5], prefix[6], prefix[7],
    ]);
    input.rest = rest;
    Ok(number)
}

/// A number below 2^50.
#[tactic(auto, unfolding(crate::specs::Read::such))]
pub(crate) fn count_at(input: &mut Input<'_>) -> Result<u64, Fault>
    ensures read { Reads (λ x. x) result (count_at input.old.rest.now) input.new.rest.now }
    ensures range { IfOk result (λ x. x < 2 ^ 50) }
{
    let number = u64_at(input)?;
    if number >= COUNTS {
        return Err(Fault::NotState);
    }
    Ok(number)
}

pub(crate) fn moment_at(input: &mut Input<'_>) -> Result<Moment, Fault>
    ensures read { Reads (λ x. x) result (count_at input.old.rest.now) input.new.rest.now }
    ensures range { IfOk result (λ x. x < 2 ^ 50) }
{
    let number = count_at(input)?;
    Ok(Moment(number))
}

#[tactic(auto, unfolding(crate::specs::Read::such))]
pub(crate) fn rate_at(input: &mut Input<'_>) -> Result<Kbps, Fault>
    ensures { Reads (λ x. x) result (rate_at input.old.rest.now) input.new.rest.now }
{
    let number = u64_at(input)?;
    if number >= RATES {
        return Err(Fault::NotState);
    }
    Ok(Kbps(number))
}

/// Octets behind their length of one octet.
#[tactic(auto, unfolding(crate::specs::Read::measured_at, crate::specs::Read::and_then))]
pub(crate) fn measured_8<'a>(input: &mut Input<'a>) -> Result<&'a [u8], Fault>
    ensures { Reads (λ xs. xs.now) result (measured_at octet_at input.old.rest.now) input.new.rest.now }
{
    let len = u8_at(input)?;
    input.octets(len as usize)
}

/// Octets behind their length of two octets.
#[tactic(auto, unfolding(crate::specs::Read::measured_at, crate::specs::Read::and_then))]
pub(crate) fn measured_16<'a>(input: &mut Input<'a>) -> Result<&'a [u8], Fault>
    ensures { Reads (λ xs. xs.now) result (measured_at (number_at w16) input.old.rest.now) input.new.rest.now }
{
    let len = u16_at(input)?;
    input.octets(len as usize)
}

/// Octets behind their length of four octets.
#[tactic(auto, unfolding(crate::specs::Read::measured_at, crate::specs::Read::and_then))]
pub(crate) fn measured_32<'a>(input: &mut Input<'a>) -> Result<&'a [u8], Fault>
    ensures { Reads (λ xs. xs.now) result (measured_at (number_at w32) input.old.rest.now) input.new.rest.now }
{
    let len = u32_at(input)?;
    input.octets(len as usize)
}

/// An octet 0 or 1.
#[tactic(auto, unfolding(crate::specs::Read::flag_at))]
pub(crate) fn flag_at(input: &mut Input<'_>) -> Result<bool, Fault>
    ensures { Reads (λ x. x) result (flag_at input.old.rest.now) input.new.rest.now }
{
    match input.rest {
        [0, rest @ ..] => {
            input.rest = rest;
            Ok(false)
        }
        [1, rest @ ..] => {
            input.rest = rest;
            Ok(true)
        }
        [] | [_, ..] => Err(Fault::NotState),
    }
}

#[tactic(auto, unfolding(crate::specs::Read::option_at, crate::specs::Read::and_then))]
pub(crate) fn moment_or_none(input: &mut Input<'_>) -> Result<Option<Moment>, Fault>
    ensures { Reads (λ x. x) result (option_at count_at input.old.rest.now) input.new.rest.now }
{
    let is_there = flag_at(input)?;
    if !is_there {
        return Ok(None);
    }
    let moment = moment_at(input)?;
    Ok(Some(moment))
}
