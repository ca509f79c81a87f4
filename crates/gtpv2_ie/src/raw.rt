ghost use Rattle.std.specs.Prelude.{◌≡◌, ◌≢◌, ◌+◌, ◌<◌, ◌≤◌, length, List, All, IfOk, Ok, Err};
ghost use Rattle.gtpv2_ie.specs.declared.raw.RawIe.{RawIe};
ghost use Rattle.gtpv2_ie.specs.declared.fault.IeBad.{IeBad};
ghost use Rattle.gtpv2_ie.specs.Stand.{
  StandsAt,
  Stand,
  HasIes,
  EndsShort,
  PassesEnd,
  IsInside,
  value_len,
  ies_of,
  items_of,
};
ghost use Rattle.wire_octets.specs.Memory.{OrNoMemory};

use crate::fault::IeBad;
use std::alloc::Global;
use wire_octets::be16_at;

/// An element in octets (TS 29.274, 8.2.1): its value stands at the places `from` up to `to`.
/// 1: type   2-3: length of the value   4: spare (4) instance (4)   5-: value
#[derive(Clone, Copy, Debug, PartialEq, Eq)]
pub struct RawIe {
    pub kind: u8,
    /// Below 16.
    pub instance: u8,
    pub from: usize,
    pub to: usize,
}

/// The element whose header begins at this place, which is one of the octets' (TS 29.274, section 8.2.1). `Short` where
/// fewer than four octets stand from there on, `Length` where its value passes the end. Takes no memory.
pub fn ie_at(octets: &[u8], at: usize) -> Result<RawIe, IeBad>
    requires { at < length octets.now }
    ensures found { IfOk result (λ ie. StandsAt octets.now at ie) }
    ensures short { result ≡ Err IeBad.Short → length octets.now < at + 4 }
    ensures passes { result ≡ Err IeBad.Length
        → (at + 4 ≤ length octets.now) × (length octets.now < at + 4 + value_len octets.now at) }
    ensures memory { result ≢ Err IeBad.NoMemory }
{
    if octets.len() - at < 4 {
        return Err(IeBad::Short);
    }
    let from = at + 4;
    let len = usize::from(be16_at(octets, at + 1));
    if octets.len() - from < len {
        return Err(IeBad::Length);
    }
    Ok(RawIe {
        kind: octets[at],
        instance: octets[at + 3] & 15,
        from,
        to: from + len,
    })
}

/// How many elements stand in the octets. Takes no memory.
fn count_ies(octets: &[u8]) -> Result<usize, IeBad>
    ensures found { IfOk result (λ count. HasIes octets.now count) }
    ensures short { result ≡ Err IeBad.Short → EndsShort octets.now }
    ensures length { result ≡ Err IeBad.Length → PassesEnd octets.now }
    ensures memory { result ≢ Err IeBad.NoMemory }
{
    let mut count = 0;
    let mut at = 0;
    while at < octets.len() {
        at = ie_at(octets, at)?.to;
        count += 1;
    }
    Ok(count)
}

/// The elements that stand in the octets, in their order, with room for so many.
fn list_ies(alloc: Global, octets: &[u8], count: usize) -> Result<Vec<RawIe>, IeBad>
    ensures found { IfOk result (λ ies. Stand octets.now ies.items) }
    ensures short { result ≡ Err IeBad.Short → EndsShort octets.now }
    ensures length { result ≡ Err IeBad.Length → PassesEnd octets.now }
{
    let mut ies = Vec::with_capacity(alloc, count)?;
    let mut at = 0;
    while at < octets.len() {
        let ie = ie_at(octets, at)?;
        ies.push(ie)?;
        at = ie.to;
    }
    Ok(ies)
}

/// The elements that stand in the octets; no memory is taken before all of them are there.
fn find_ies(alloc: Global, octets: &[u8]) -> Result<Vec<RawIe>, IeBad>
    ensures found { IfOk result (λ ies. Stand octets.now ies.items) }
    ensures short { result ≡ Err IeBad.Short → EndsShort octets.now }
    ensures length { result ≡ Err IeBad.Length → PassesEnd octets.now }
    ensures fault { (bad : IeBad) → ies_of octets.now ≡ Err bad → result ≡ Err bad }
{
    let count = count_ies(octets)?;
    list_ies(alloc, octets, count)
}

/// The elements that stand in the octets, in their order, as places in them. Takes no memory beyond
/// the result.
pub fn read_ies(alloc: Global, octets: &[u8]) -> Result<Vec<RawIe>, IeBad>
    // What is found stands there, one behind another, and what stands there is found.
    ensures found { IfOk result (λ ies. Stand octets.now ies.items) }
    ensures only { (ies : List RawIe) → Stand octets.now ies → OrNoMemory (items_of result) (Ok ies) IeBad.NoMemory }
    ensures inside { IfOk result (λ ies. All (IsInside octets.now) ies.items) }

    // One to three octets in the place of a header, and nothing else, are Short, and this needs no
    // memory.
    ensures short { result ≡ Err IeBad.Short → EndsShort octets.now }
    ensures ends_short { EndsShort octets.now → result ≡ Err IeBad.Short }

    // A value that passes the end, and nothing else, is Length, and this needs no memory.
    ensures length { result ≡ Err IeBad.Length → PassesEnd octets.now }
    ensures passes_end { PassesEnd octets.now → result ≡ Err IeBad.Length }

    // The same in one, for the definitions above.
    ensures exact { OrNoMemory (items_of result) (ies_of octets.now) IeBad.NoMemory }
    ensures fault { (bad : IeBad) → ies_of octets.now ≡ Err bad → result ≡ Err bad }
{
    find_ies(alloc, octets)
}
