ghost use Rattle.std.specs.Prelude.{◌≡◌};
ghost use Rattle.std.specs.List.{find};
ghost use Rattle.std.specs.Option.{option_copied};
ghost use Rattle.gtpv2_msg.specs.RowFault as grammar;

use crate::element::ReadIe;
use crate::fault::CBad;
use crate::table::Part;
use gtpv2_ie::{IeKind, IeValue};

/// The first element of a type and instance 0.
fn first_of(ies: &[ReadIe], octet: u8) -> Option<&ReadIe>
    ensures { option_copied result ≡ find (grammar.is_first octet) ies.now }
{
    ies.iter().find(|ie| ie.kind == octet && ie.instance == 0)
}

/// What is wrong with the first element of a kind and instance 0.
fn kind_fault(ies: &[ReadIe], required: IeKind) -> Option<CBad>
    ensures { result ≡ grammar.kind_fault ies.now required }
{
    let kind = required.octet();
    match first_of(ies, kind) {
        None => Some(CBad::Missing { kind, instance: 0 }),
        Some(ie) => {
            if ie.element.is_some() {
                None
            } else {
                Some(CBad::Incorrect { kind, instance: 0 })
            }
        }
    }
}

/// The EBI that an element is.
fn ebi_in(ie: &ReadIe) -> Option<u8>
    ensures { result ≡ grammar.ebi_in ie.now }
{
    match &ie.element {
        Some(element) => match element.value {
            IeValue::Ebi(ebi) => Some(ebi),
            _ => None,
        },
        None => None,
    }
}

/// The first EBI of instance 0.
fn first_ebi(ies: &[ReadIe]) -> Option<u8>
    ensures { result ≡ grammar.first_ebi ies.now }
{
    match first_of(ies, IeKind::Ebi.octet()) {
        Some(ie) => ebi_in(ie),
        None => None,
    }
}

/// The EBI that a Context of these elements holds: the first, whatever its instance.
#[tactic(auto, using(crate::proofs::EbiLemmas::held_before))]
fn held_ebi(ies: &[ReadIe]) -> Option<u8>
    ensures { result ≡ grammar.held_ebi ies.now }
{
    for ie in ies {
        let ebi = ebi_in(ie);
        if ebi.is_some() {
            return ebi;
        }
    }
    None
}

/// What is wrong with the EBI of a Context where one other than 0 is asked for.
fn zero_fault(ies: &[ReadIe]) -> Option<CBad>
    ensures { result ≡ grammar.zero_fault ies.now }
{
    if matches!(first_ebi(ies), Some(0)) || matches!(held_ebi(ies), Some(0)) {
        Some(CBad::Incorrect {
            kind: IeKind::Ebi.octet(),
            instance: 0,
        })
    } else {
        None
    }
}

/// What is wrong with a part of a Context.
fn part_fault(ies: &[ReadIe], part: Part) -> Option<CBad>
    ensures { result ≡ grammar.part_fault ies.now part }
{
    match part {
        Part::Ie(kind) => kind_fault(ies, kind),
        Part::AssignedEbi => kind_fault(ies, IeKind::Ebi).or(zero_fault(ies)),
    }
}

/// The first fault of kinds, in their order.
pub fn kinds_fault(ies: &[ReadIe], kinds: &[IeKind]) -> Option<CBad>
    ensures { result ≡ grammar.kinds_fault ies.now kinds.now }
{
    for kind in kinds {
        let fault = kind_fault(ies, *kind);
        if fault.is_some() {
            return fault;
        }
    }
    None
}

/// The first fault of parts, in their order.
pub fn parts_fault(ies: &[ReadIe], parts: &[Part]) -> Option<CBad>
    ensures { result ≡ grammar.parts_fault ies.now parts.now }
{
    for part in parts {
        let fault = part_fault(ies, *part);
        if fault.is_some() {
            return fault;
        }
    }
    None
}
