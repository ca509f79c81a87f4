ghost use Rattle.std.specs.Prelude.{◌≡◌, ◌≤◌, ℕ, List, length, All, IfOk, IfErr, IfSome, Ok, Err, Some};
ghost use Rattle.gtpv2_ie.specs.Spelling.{spellings};
ghost use Rattle.gtpv2_ie.specs.Stand.{Stand, IsInside};
ghost use Rattle.gtpv2_msg.specs.Elements.{contexts_in};
ghost use Rattle.gtpv2_msg.specs.HasRequired.{HasRequired};
ghost use Rattle.gtpv2_msg.specs.Message.{Message};
ghost use Rattle.gtpv2_msg.specs.Reading.{IsBody, Spells};
ghost use Rattle.gtpv2_msg.specs.Refusal.{body_fault, first_fault, Tells, IsRefusal, IsFraming};
ghost use Rattle.gtpv2_msg.specs.Required.{RequiredIes as Asked};
ghost use Rattle.gtpv2_msg.specs.RowFault as grammar;
ghost use Rattle.wire_octets.specs.Memory.{OrNoMemory};

use crate::contexts::contexts_fault;
use crate::element::ReadIe;
use crate::elements::{known_of, read_message_elements};
use crate::fault::CBad;
use crate::header::read_header;
use crate::message::{Ies, Msg};
use crate::required::kinds_fault;
use crate::table::{RequiredIes, required};
use gtpv2_ie::{Ie, IeBad, RawIe, read_ies};
use std::alloc::Global;

/// What is wrong with the elements of a message type, in the order of its row, where it is known what
/// is wrong inside their Contexts.
fn row_fault(
    row: &RequiredIes,
    raws: &[RawIe],
    ies: &[ReadIe],
    inside: Option<CBad>,
) -> Option<CBad>
    ensures { (octets : List ℕ) (asked : Asked) → row.now.before.now ≡ asked.before → row.now.must ≡ asked.must
        → row.now.after.now ≡ asked.after → inside ≡ grammar.inside_fault asked.inside (contexts_in octets raws.now)
        → result ≡ grammar.row_fault asked ies.now (contexts_in octets raws.now) }
{
    let before = kinds_fault(ies, row.before);
    if before.is_some() {
        return before;
    }
    let contexts = contexts_fault(raws, row.must, inside);
    if contexts.is_some() {
        return contexts;
    }
    kinds_fault(ies, row.after)
}

/// The elements that stand at places behind a header of some type.
fn read_required(alloc: Global, kind: u8, octets: &[u8], raws: &[RawIe]) -> Result<Vec<Ie>, CBad>
    requires stand { Stand octets.now raws.now }
    requires inside { All (IsInside octets.now) raws.now }
    ensures found { IfOk result (λ ies. IsBody kind octets.now ies.items) }
    ensures refused { IfErr result (Tells (body_fault kind octets.now)) }

    // They are written in no more octets.
    ensures no_longer { IfOk result (λ ies. length (spellings ies.items) ≤ length octets.now) }
{
    let row = required(kind);
    let (ies, inside) = read_message_elements(alloc, octets, raws, row.inside)?;
    match row_fault(&row, raws, &ies, inside) {
        Some(bad) => Err(bad),
        None => Ok(known_of(alloc, ies)?),
    }
}

/// The elements behind a header of some type.
fn read_body(alloc: Global, kind: u8, octets: &[u8]) -> Result<Vec<Ie>, CBad>
    ensures found { IfOk result (λ ies. IsBody kind octets.now ies.items) }
    ensures refused { IfErr result (Tells (body_fault kind octets.now)) }
    ensures framing { IfSome (body_fault kind octets.now) (λ bad. IsFraming bad → result ≡ Err bad) }
    ensures no_longer { IfOk result (λ ies. length (spellings ies.items) ≤ length octets.now) }
{
    match read_ies(alloc, octets) {
        Ok(raws) => read_required(alloc, kind, octets, &raws),
        Err(IeBad::NoMemory) => Err(CBad::NoMemory),
        Err(_) => Err(CBad::Length),
    }
}

/// The message that octets spell, or their first fault.
fn read_message(alloc: Global, bytes: &[u8]) -> Result<Msg, CBad>
    ensures found { IfOk result (Spells bytes.now) }
    ensures refused { IfErr result (IsRefusal bytes.now) }
    ensures framing { IfSome (first_fault bytes.now) (λ bad. IsFraming bad → result ≡ Err bad) }
{
    let header = read_header(bytes)?;
    let ies = read_body(alloc, header.kind, &bytes[header.from..header.to])?;
    Ok(Msg {
        kind: header.kind,
        teid: header.teid,
        seq: header.seq,
        ies: Ies::of(ies),
    })
}

/// The message that octets spell. Octets past its length aren't looked at.
pub fn read(alloc: Global, bytes: &[u8]) -> Result<Msg, CBad>
    // What is read is spelled so, and what is spelled so is read, unless memory runs out.
    ensures found { IfOk result (Spells bytes.now) }
    ensures only { (message : Message) → Spells bytes.now message → OrNoMemory result (Ok message) CBad.NoMemory }

    // It has the elements that its type asks for, so what is written of it reads back.
    ensures required { IfOk result HasRequired }

    // A refusal is the first fault, and each fault is refused, unless memory runs out.
    ensures refused { IfErr result (IsRefusal bytes.now) }
    ensures fault { IfSome (first_fault bytes.now) (λ bad. OrNoMemory result (Err bad) CBad.NoMemory) }

    // A fault of the header or of the list of elements is told without memory.
    ensures framing { IfSome (first_fault bytes.now) (λ bad. IsFraming bad → result ≡ Err bad) }
{
    read_message(alloc, bytes)
}
