ghost use Rattle.std.specs.Prelude.{◌≡◌, ◌<◌, ◌-◌, ◌^◌, length, ◌++◌, [], map, IfOk, IfSome, OnOk};
ghost use Rattle.gtpv2_ie.specs.Context.{context_with, put_in, put_if};
ghost use Rattle.std.specs.List.{AllByRecursion};
ghost use Rattle.gtpv2_ie.specs.Spelling.{context_octets, inner_spellings, if_some, fteid_element};
ghost use Rattle.gtpv2_ie.specs.Validity.{IsContext, IsCounted, IsElement, IsFteid, IsOctets};
ghost use Rattle.gtpv2_ie.specs.Kind.{no_context};
ghost use Rattle.gtpv2_ie.specs.Stand.{IsInside};
ghost use Rattle.gtpv2_ie.specs.Value.{element_at, context_of};

use crate::cause::{CauseIe, push_cause};
use crate::fault::IeBad;
use crate::fteid::{Fteid, Fteids, push_fteid};
use crate::kind::IeKind;
use crate::qos::{QosIe, push_qos};
use crate::raw::{RawIe, read_ies};
use crate::reading::plain_value;
use crate::value::{Ie, IeValue};
use crate::writing::push_ie;
use pc_base::Octets;
use std::alloc::{AllocError as NoMemory, Global};

/// A Bearer Context (TS 29.274, 8.28), whose value is elements again: the first EBI, Cause, TFT and
/// Bearer QoS that is inside its grammar, and every such F-TEID. A Context stands in no other.
#[derive(Clone, Debug, Drop, PartialEq, Eq)]
pub struct Context {
    /// The EPS bearer identity: 0 or 5 to 15.
    pub ebi: Option<u8>,
    pub cause: Option<CauseIe>,
    /// A traffic flow template of 1 to 1,000 octets, not looked into.
    pub tft: Option<Octets>,
    pub fteids: Fteids,
    pub qos: Option<QosIe>,
}

impl Context {
    ghost use Rattle.std.specs.Prelude.{◌≡◌, ◌<◌, ◌^◌, length, IfOk};
    ghost use Rattle.gtpv2_ie.specs.Context.{context_with};
    ghost use Rattle.gtpv2_ie.specs.Spelling.{context_octets};
    ghost use Rattle.gtpv2_ie.specs.Validity.{IsContext};

    /// The Context of elements: of each type the first, of F-TEIDs all.
    pub fn of(alloc: Global, ies: Vec<Ie>) -> Result<Context, NoMemory>
        ensures value { IfOk result (λ context. context ≡ context_with ies.items) }

        // An element can hold it where its octets fit the length field.
        ensures valid { IfOk result (λ context. length (context_octets context) < 2 ^ 16 → IsContext context) }
    {
        let mut context = empty_context(alloc);
        for ie in ies {
            put_element(&mut context, ie)?;
        }
        Ok(context)
    }

    /// A copy of the Context.
    pub fn try_clone(&self) -> Result<Self, NoMemory>
        ensures { IfOk result (λ copy. copy ≡ self.now) }
    {
        self.clone()
    }
}

/// A Context of no elements.
fn empty_context(alloc: Global) -> Context
    ensures { result ≡ context_with [] }
{
    Context {
        ebi: None,
        cause: None,
        tft: None,
        fteids: Fteids::of(Vec::new(alloc)),
        qos: None,
    }
}

/// Puts one more element into a Context: the first of its type counts, of F-TEIDs each.
fn put(context: &mut Context, instance: u8, value: IeValue) -> Result<(), NoMemory>
    ensures { OnOk result (context.new ≡ put_in context.old (record { instance = instance; value = value })) }
{
    match value {
        IeValue::Ebi(ebi) => {
            context.ebi = context.ebi.or(Some(ebi));
            Ok(())
        }
        IeValue::Cause(cause) => {
            context.cause = context.cause.or(Some(cause));
            Ok(())
        }
        IeValue::Tft(octets) => {
            context.tft = context.tft.take().or(Some(octets));
            Ok(())
        }
        IeValue::Fteid(fteid) => context.fteids.push(instance, fteid),
        IeValue::Qos(qos) => {
            context.qos = context.qos.or(Some(qos));
            Ok(())
        }
        _ => Ok(()),
    }
}

/// Puts one more element into a Context.
fn put_element(context: &mut Context, ie: Ie) -> Result<(), NoMemory>
    ensures put { OnOk result (context.new ≡ put_in context.old ie) }
    ensures valid { IsElement ie }
{
    put(context, ie.instance, ie.value)
}

/// Puts one more element of these octets into a Context, if it is inside its grammar.
fn put_raw(alloc: Global, context: &mut Context, octets: &[u8], ie: &RawIe) -> Result<(), NoMemory>
    requires { IsInside octets.now ie.now }
    ensures put { OnOk result (context.new ≡ put_if context.old (element_at no_context octets.now ie.now)) }
    ensures counted { OnOk result
        (IfSome (element_at no_context octets.now ie.now) (IsCounted (ie.now.to - ie.now.from))) }
{
    let Some(kind) = IeKind::from_octet(ie.kind) else {
        return Ok(());
    };
    match plain_value(alloc, kind, &octets[ie.from..ie.to])? {
        Some(value) => put(context, ie.instance, value),
        None => Ok(()),
    }
}

/// The Context that octets spell: they are elements, one behind another.
pub fn context_of(alloc: Global, octets: &[u8]) -> Result<Option<Context>, NoMemory>
    ensures value { IfOk result (λ context. context ≡ context_of octets.now) }
    ensures valid { length octets.now < 2 ^ 16 → IfOk result (λ context. IfSome context IsContext) }
{
    let ies = match read_ies(alloc, octets) {
        Ok(ies) => ies,
        Err(IeBad::NoMemory) => return Err(NoMemory),
        Err(_) => return Ok(None),
    };
    let mut context = empty_context(alloc);
    for ie in &ies {
        put_raw(alloc, &mut context, octets, ie)?;
    }
    Ok(Some(context))
}

fn push_ebi(out: &mut Vec<u8>, ebi: Option<u8>) -> Result<(), NoMemory>
    ensures { OnOk result (out.new.items ≡ out.old.items ++ inner_spellings (if_some (λ e. IeValue.Ebi e) ebi)) }
{
    match ebi {
        Some(ebi) => push_ie(out, IeKind::Ebi, 0, &[ebi]),
        None => Ok(()),
    }
}

fn push_first_cause(out: &mut Vec<u8>, cause: &Option<CauseIe>) -> Result<(), NoMemory>
    ensures { OnOk result
        (out.new.items ≡ out.old.items ++ inner_spellings (if_some (λ c. IeValue.Cause c) cause.now)) }
{
    match cause {
        Some(cause) => push_cause(out, 0, cause),
        None => Ok(()),
    }
}

fn push_tft(out: &mut Vec<u8>, tft: &Option<Octets>) -> Result<(), NoMemory>
    requires { IfSome tft.now (IsOctets 1000) }
    ensures { OnOk result (out.new.items ≡ out.old.items ++ inner_spellings (if_some (λ t. IeValue.Tft t) tft.now)) }
{
    match tft {
        Some(tft) => push_ie(out, IeKind::Tft, 0, tft.as_slice()),
        None => Ok(()),
    }
}

fn push_first_qos(out: &mut Vec<u8>, qos: &Option<QosIe>) -> Result<(), NoMemory>
    ensures { OnOk result (out.new.items ≡ out.old.items ++ inner_spellings (if_some (λ q. IeValue.Qos q) qos.now)) }
{
    match qos {
        Some(qos) => push_qos(out, 0, qos),
        None => Ok(()),
    }
}

fn push_fteids(out: &mut Vec<u8>, fteids: &[(u8, Fteid)]) -> Result<(), NoMemory>
    requires { AllByRecursion (λ fteid. (fteid.0 < 16) × IsFteid fteid.1) fteids.now }
    ensures { OnOk result (out.new.items ≡ out.old.items ++ inner_spellings (map fteid_element fteids.now)) }
{
    for (instance, fteid) in fteids {
        push_fteid(out, *instance, fteid)?;
    }
    Ok(())
}

/// The octets of a Context's value: EBI, Cause, TFT, F-TEIDs and Bearer QoS.
pub fn context_octets(alloc: Global, context: &Context) -> Result<Vec<u8>, NoMemory>
    requires { IsContext context.now }
    ensures { IfOk result (λ octets. octets.items ≡ context_octets context.now) }
{
    let mut out = Vec::new(alloc);
    push_ebi(&mut out, context.ebi)?;
    push_first_cause(&mut out, &context.cause)?;
    push_tft(&mut out, &context.tft)?;
    push_fteids(&mut out, context.fteids.as_slice())?;
    push_first_qos(&mut out, &context.qos)?;
    Ok(out)
}
