ghost use Rattle.std.specs.Prelude.{◌≡◌, ◌++◌, ◌+◌, ◌<◌, ◌^◌, List, ℕ, IfOk, OnOk};
ghost use Rattle.std.specs.List.{AllByRecursion};
ghost use Rattle.std.specs.Option.{is_some};
ghost use Rattle.gtpv2_ie.specs.Spelling.{spellings};
ghost use Rattle.gtpv2_ie.specs.Validity.{IsElement};
ghost use Rattle.gtpv2_msg.specs.Header.{header_len};
ghost use Rattle.gtpv2_msg.specs.HasRequired.{HasRequired};
ghost use Rattle.gtpv2_msg.specs.Reading.{Spells};
ghost use Rattle.gtpv2_msg.specs.Spelling.{header_octets, spelling};
ghost use Rattle.gtpv2_msg.specs.Validity.{IsMessage};

use crate::message::{Ies, Msg};
use gtpv2_ie::write_ie;
use std::alloc::{AllocError as NoMemory, Global};
use wire_octets::{be16_octets, be24_octets, be32_octets};

/// The octets of elements, one behind another.
fn elements_octets(alloc: Global, ies: &Ies) -> Result<Vec<u8>, NoMemory>
    ensures spelling { IfOk result (λ octets. octets.items ≡ spellings ies.now) }
    ensures valid { IfOk result (λ _. AllByRecursion IsElement ies.now) }
{
    let mut octets = Vec::new(alloc);
    for ie in ies.as_slice() {
        octets.extend_from_slice(&write_ie(alloc, ie)?)?;
    }
    Ok(octets)
}

/// Appends the header before elements of so many octets.
fn push_header(
    out: &mut Vec<u8>,
    kind: u8,
    teid: Option<u32>,
    seq: u32,
    len: usize,
) -> Result<(), NoMemory>
    requires { header_len (is_some teid) + len < 4 + 2 ^ 16 }
    ensures { OnOk result (out.new.items ≡ out.old.items ++ header_octets kind teid seq len) }
{
    let [high, middle, low] = be24_octets(seq);
    match teid {
        None => {
            let [first, second] = be16_octets(4 + len as u16);
            out.extend_from_slice(&[0x40, kind, first, second, high, middle, low, 0])
        }
        Some(teid) => {
            let [first, second] = be16_octets(8 + len as u16);
            let [a, b, c, d] = be32_octets(teid);
            out.extend_from_slice(&[0x48, kind, first, second, a, b, c, d, high, middle, low, 0])
        }
    }
}

/// The octets of a message.
fn message_octets(alloc: Global, message: &Msg) -> Result<Vec<u8>, NoMemory>
    ensures spelling { IfOk result (λ octets. octets.items ≡ spelling message.now) }
    ensures message { IsMessage message.now }
    ensures elements { IfOk result (λ _. AllByRecursion IsElement message.now.ies) }
{
    let ies = elements_octets(alloc, &message.ies)?;
    let mut out = Vec::new(alloc);
    push_header(&mut out, message.kind, message.teid, message.seq, ies.len())?;
    out.extend_from_slice(&ies)?;
    Ok(out)
}

/// The one text of a message.
pub fn write(alloc: Global, message: &Msg) -> Result<Vec<u8>, NoMemory>
    ensures spelling { IfOk result (λ octets. octets.items ≡ spelling message.now) }

    // The type keeps its ranges, and what is written reads back, whatever octets follow, where the
    // elements that the message's type asks for are there.
    ensures valid { IsMessage message.now }
    ensures reads_back { IfOk result (λ octets. HasRequired message.now
        → (more : List ℕ) → Spells (octets.items ++ more) message.now) }
{
    let octets = message_octets(alloc, message)?;
    Ok(octets)
}
