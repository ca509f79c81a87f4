ghost use Rattle.std.specs.Prelude.{◌≡◌, ◌<◌, ◌^◌, length, true, [], ◌∷◌, IfOk, IfSome, All};
ghost use Rattle.gtpv2_ie.specs.Stand.{IsInside};
ghost use Rattle.gtpv2_ie.specs.Validity.{IsContext};
ghost use Rattle.gtpv2_ie.specs.Value.{context_of};
ghost use Rattle.gtpv2_msg.specs.Elements as grammar;
ghost use Rattle.gtpv2_msg.specs.Elements.{contexts_in, elements_of};
ghost use Rattle.gtpv2_msg.specs.RowFault as faults;

use crate::element::ReadIe;
use crate::fault::CBad;
use crate::required::parts_fault;
use crate::table::Part;
use gtpv2_ie::{Context, Ie, IeBad, IeKind, IeValue, RawIe, read_ies, read_value};
use std::alloc::{AllocError as NoMemory, Global};

/// What stands at a place.
fn read_ie(alloc: Global, octets: &[u8], raw: RawIe) -> Result<ReadIe, NoMemory>
    requires { IsInside octets.now raw }
    ensures { IfOk result (λ ie. ie ≡ grammar.read_ie octets.now raw) }
{
    let value = read_value(alloc, raw.kind, &octets[raw.from..raw.to])?;
    let element = match value {
        Some(value) => Some(Ie {
            instance: raw.instance,
            value,
        }),
        None => None,
    };
    Ok(ReadIe {
        kind: raw.kind,
        instance: raw.instance,
        element,
    })
}

/// What stands at places, in their order.
fn read_elements(alloc: Global, octets: &[u8], raws: &[RawIe]) -> Result<Vec<ReadIe>, NoMemory>
    requires { All (IsInside octets.now) raws.now }
    ensures { IfOk result (λ ies. ies.items ≡ grammar.read_ies octets.now raws.now) }
{
    let mut ies = Vec::new(alloc);
    for raw in raws {
        ies.push(read_ie(alloc, octets, *raw)?)?;
    }
    Ok(ies)
}

/// The Context that octets spell, and what is wrong with its elements.
fn read_context(
    alloc: Global,
    octets: &[u8],
    inside: &[Part],
) -> Result<(Option<Context>, Option<CBad>), NoMemory>
    ensures value { IfOk result (λ read. read.0 ≡ context_of octets.now) }
    ensures valid { length octets.now < 2 ^ 16 → IfOk result (λ read. IfSome read.0 IsContext) }
    ensures fault { IfOk result (λ read. read.1 ≡ faults.context_fault inside.now (elements_of octets.now)) }
{
    let raws = match read_ies(alloc, octets) {
        Ok(raws) => raws,
        Err(IeBad::NoMemory) => return Err(NoMemory),
        Err(_) => {
            let bad = CBad::Incorrect {
                kind: IeKind::Context.octet(),
                instance: 0,
            };
            return Ok((None, Some(bad)));
        }
    };
    let ies = read_elements(alloc, octets, &raws)?;
    let fault = parts_fault(&ies, inside);
    let context = Context::of(alloc, known_of(alloc, ies)?)?;
    Ok((Some(context), fault))
}

/// Whether what stands at a place is a Context of instance 0.
pub fn is_context(raw: &RawIe) -> bool
    ensures { result ≡ grammar.is_context raw.now }
{
    raw.kind == IeKind::Context.octet() && raw.instance == 0
}

/// The Context of instance 0 at a place, and what is wrong with its elements.
fn read_context_ie(
    alloc: Global,
    octets: &[u8],
    raw: RawIe,
    inside: &[Part],
) -> Result<(ReadIe, Option<CBad>), NoMemory>
    requires inside { IsInside octets.now raw }
    requires context { grammar.is_context raw ≡ true }
    ensures value { IfOk result (λ read. read.0 ≡ grammar.read_ie octets.now raw) }
    ensures fault { IfOk result (λ read.
        read.1 ≡ faults.inside_fault inside.now (contexts_in octets.now (raw ∷ []))) }
{
    let (context, fault) = read_context(alloc, &octets[raw.from..raw.to], inside)?;
    let element = match context {
        Some(context) => Some(Ie {
            instance: raw.instance,
            value: IeValue::Context(context),
        }),
        None => None,
    };
    let read = ReadIe {
        kind: raw.kind,
        instance: raw.instance,
        element,
    };
    Ok((read, fault))
}

/// What stands at a place, and what is wrong inside it if it is a Context of instance 0.
fn read_one(
    alloc: Global,
    octets: &[u8],
    raw: RawIe,
    inside: &[Part],
) -> Result<(ReadIe, Option<CBad>), NoMemory>
    requires { IsInside octets.now raw }
    ensures value { IfOk result (λ read. read.0 ≡ grammar.read_ie octets.now raw) }
    ensures fault { IfOk result (λ read.
        read.1 ≡ faults.inside_fault inside.now (contexts_in octets.now (raw ∷ []))) }
{
    if is_context(&raw) {
        return read_context_ie(alloc, octets, raw, inside);
    }
    Ok((read_ie(alloc, octets, raw)?, None))
}

/// What stands at places, in their order, and what is wrong inside the Contexts of instance 0 there.
/// Each Context is decoded once.
pub fn read_message_elements(
    alloc: Global,
    octets: &[u8],
    raws: &[RawIe],
    inside: &[Part],
) -> Result<(Vec<ReadIe>, Option<CBad>), NoMemory>
    requires { All (IsInside octets.now) raws.now }
    ensures value { IfOk result (λ read. read.0.items ≡ grammar.read_ies octets.now raws.now) }
    ensures fault { IfOk result (λ read. read.1 ≡ faults.inside_fault inside.now (contexts_in octets.now raws.now)) }
{
    let mut ies = Vec::new(alloc);
    let mut first = None;
    for raw in raws {
        let (ie, fault) = read_one(alloc, octets, *raw, inside)?;
        ies.push(ie)?;
        first = first.or(fault);
    }
    Ok((ies, first))
}

/// The elements among them, in their order.
pub fn known_of(alloc: Global, ies: Vec<ReadIe>) -> Result<Vec<Ie>, NoMemory>
    ensures { IfOk result (λ known. known.items ≡ grammar.known_of ies.items) }
{
    ies.into_iter().filter_map(|ie| ie.element).collect(alloc)
}
