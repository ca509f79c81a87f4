//! The notes on lines, as texts.
ghost use Rattle.std.specs.Prelude.{◌≡◌, IfOk, OnOk, option_map};
ghost use Rattle.gtpv2_msg.specs.Refusal.{IsRefusal, refusal_of};
ghost use Rattle.demux.specs.Texts.{octets_note, reply_note, element_note, message_note, tunnel_note, carried_note};
ghost use Rattle.demux.specs.Texts.{packet_note, template_note, move_word, move_note};

use gtpu_codec::UBad;
use gtpv2_msg::{CBad, refusal};
use ipv4_packet::IpBad;
use pc_base::{NoMemory, Octets, SliceNo, Slot};
use std::alloc::Global;
use text_fields::Text;
use tft_codec::TBad;

/// A note that is these words.
pub fn words(alloc: Global, text: &str) -> Result<Octets, NoMemory>
    ensures { IfOk result (λ note. note ≡ text.now) }
{
    Ok(Octets::of(Vec::from_slice(alloc, text.as_bytes())?))
}

// Words that more is appended to.
fn begun(alloc: Global, text: &str) -> Result<Text, NoMemory>
    ensures { IfOk result (λ note. note ≡ text.now) }
{
    let mut note = Text::new(alloc);
    note.extend_from_slice(text.as_bytes())?;
    Ok(note)
}

/// Words, and octets.
pub fn octets_note(alloc: Global, text: &str, octets: &[u8]) -> Result<Octets, NoMemory>
    ensures { IfOk result (λ note. note ≡ octets_note text.now octets.now) }
{
    let mut note = begun(alloc, text)?;
    note.push_octets(octets)?;
    Ok(Octets::of(note.into_octets()))
}

// Appends a reply, or a dash where there is none.
fn push_reply(note: &mut Text, reply: &Option<Vec<u8>>) -> Result<(), NoMemory>
    ensures { OnOk result (note.new ≡ reply_note note.old (option_map (λ v. v.items) reply.now)) }
{
    match reply {
        Some(octets) => note.push_octets(octets),
        None => note.push_field(b"-"),
    }
}

/// Words, and a reply or a dash.
pub fn reply_note(alloc: Global, text: &str, reply: &Option<Vec<u8>>) -> Result<Octets, NoMemory>
    ensures { IfOk result (λ note. note ≡ reply_note text.now (option_map (λ v. v.items) reply.now)) }
{
    let mut note = begun(alloc, text)?;
    push_reply(&mut note, reply)?;
    Ok(Octets::of(note.into_octets()))
}

// Words, an element by its type and instance, and a reply or a dash.
fn element_note(
    alloc: Global,
    text: &str,
    kind: u8,
    instance: u8,
    reply: &Option<Vec<u8>>,
) -> Result<Octets, NoMemory>
    ensures { IfOk result (λ note. note ≡ element_note text.now kind instance (option_map (λ v. v.items) reply.now)) }
{
    let mut note = begun(alloc, text)?;
    note.push_number(u64::from(kind))?;
    note.push_number(u64::from(instance))?;
    push_reply(&mut note, reply)?;
    Ok(Octets::of(note.into_octets()))
}

/// The note on octets that are no message of GTPv2-C, with the reply to a request.
pub fn message_note(alloc: Global, octets: &[u8], bad: &CBad) -> Result<Octets, NoMemory>
    requires { IsRefusal octets.now bad.now }
    ensures { IfOk result (λ note. note ≡ message_note bad.now (refusal_of octets.now bad.now)) }
{
    match *bad {
        CBad::Short => words(alloc, "s11 short"),
        CBad::Version => words(alloc, "s11 version"),
        CBad::Piggyback => words(alloc, "s11 piggyback"),
        CBad::Length => words(alloc, "s11 length"),
        CBad::Kind => words(alloc, "s11 kind"),
        CBad::Missing { kind, instance } => {
            let reply = refusal(alloc, octets, bad)?;
            element_note(alloc, "s11 missing", kind, instance, &reply)
        }
        CBad::Incorrect { kind, instance } => {
            let reply = refusal(alloc, octets, bad)?;
            element_note(alloc, "s11 incorrect", kind, instance, &reply)
        }
        CBad::NoMemory => words(alloc, "s11 memory"),
    }
}

/// The note on octets that are no message of GTP-U.
pub fn tunnel_note(bad: UBad) -> &'static str
    ensures { result.now ≡ tunnel_note bad }
{
    match bad {
        UBad::Short => "s1u short",
        UBad::Version => "s1u version",
        UBad::NotGtp => "s1u notgtp",
        UBad::Length => "s1u length",
        UBad::Extension => "s1u extension",
        UBad::Kind => "s1u kind",
    }
}

/// The note on octets that came in a tunnel and are no IPv4 packet.
pub fn carried_note(bad: IpBad) -> &'static str
    ensures { result.now ≡ carried_note bad }
{
    match bad {
        IpBad::Short => "s1u ip short",
        IpBad::Version => "s1u ip version",
        IpBad::Header => "s1u ip header",
        IpBad::Total => "s1u ip total",
    }
}

/// The note on octets that came from the internet and are no IPv4 packet.
pub fn packet_note(bad: IpBad) -> &'static str
    ensures { result.now ≡ packet_note bad }
{
    match bad {
        IpBad::Short => "sgi ip short",
        IpBad::Version => "sgi ip version",
        IpBad::Header => "sgi ip header",
        IpBad::Total => "sgi ip total",
    }
}

/// The note on octets that are no traffic flow template.
pub fn template_note(bad: TBad) -> &'static str
    ensures { result.now ≡ template_note bad }
{
    match bad {
        TBad::Short => "tft short",
        TBad::Parameters => "tft parameters",
        TBad::Operation => "tft operation",
        TBad::Component => "tft component",
        TBad::RepeatedId => "tft repeated",
        TBad::Trailing => "tft trailing",
        TBad::NoMemory => "tft memory",
    }
}

/// The word for an instruction that moves a slot to a slice: `move`, or `stay` where the slice is its destination
/// already.
pub fn move_word(destination: SliceNo, slice: SliceNo) -> &'static str
    ensures { result.now ≡ move_word destination slice }
{
    if slice == destination { "stay" } else { "move" }
}

/// The note on an instruction that moves a slot to a slice: `move`, or `stay` where the slice is its
/// destination already.
pub fn move_note(
    alloc: Global,
    destination: SliceNo,
    slot: Slot,
    slice: SliceNo,
) -> Result<Octets, NoMemory>
    ensures { IfOk result (λ note. note ≡ move_note destination slot slice) }
{
    let mut note = begun(alloc, move_word(destination, slice))?;
    note.push_number(u64::from(slot.0))?;
    note.push_number(u64::from(slice.0))?;
    Ok(Octets::of(note.into_octets()))
}
