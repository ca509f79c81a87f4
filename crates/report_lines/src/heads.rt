//! The entries of packets, which most entries are: a head put together from its last field to its first, and the
//! octets behind it.
ghost use Rattle.std.specs.Prelude.{◌≡◌, ◌+◌, ◌≤◌, ◌++◌, ◌∷◌, [], codes, decimal, length, OnOk, OnErr};
ghost use Rattle.hex.specs.Hex.{encode_lower};
ghost use Rattle.packet_steps.specs.Lent.{verdict_of};
ghost use Rattle.text_fields.specs.Address.{dotted};
ghost use Rattle.text_fields.specs.Fields.{behind, joined};
ghost use Rattle.report_lines.specs.Lent.{IsShort};
ghost use Rattle.report_lines.specs.Text.{verdict_fields};
ghost use Rattle.report_lines.specs.Words.{message_word};

use crate::NoMemory;
use gtpu_codec::gpdu_head;
use packet_steps::LentVerdict;
use pc_base::{Addr4, Octets, Slot};
use text_fields::{Head, Text};

/// A slot's packet of this number, behind so many of its commands, on a line.
#[derive(Clone, Copy)]
pub(crate) struct Which {
    pub line: u64,
    pub slot: Slot,
    pub number: u64,
    pub commands: u64,
}

/// A word, a life and octets.
#[inline(always)]
pub(crate) fn push_octets(
    out: &mut Text,
    packet: Which,
    word: &[u8],
    life: u64,
    octets: &[u8],
) -> Result<(), NoMemory>
    requires { length word.now ≤ 8 }
    ensures appended { OnOk result (out.new ≡ out.old ++ joined (codes "P" ∷ decimal packet.line ∷ decimal packet.slot
        ∷ decimal packet.number ∷ decimal packet.commands ∷ word.now ∷ decimal life
        ∷ encode_lower octets.now ∷ [])) }
    ensures kept { OnErr result (out.new ≡ out.old) }
{
    let mut head = Head::new();
    head.put(b' ');
    head.put_number(life);
    head.put_word(word);
    put_counts(&mut head, packet);
    out.push_headed(head.as_slice(), octets)
}

/// A packet's entry: its verdict is put first, since a head is put together from its last field to its first.
#[inline(always)]
pub(crate) fn push_verdict(
    out: &mut Text,
    packet: Which,
    verdict: &LentVerdict<'_>,
) -> Result<(), NoMemory>
    requires { IsShort verdict.now }
    ensures appended { OnOk result (out.new ≡ out.old ++ joined (codes "P" ∷ decimal packet.line ∷ decimal packet.slot
        ∷ decimal packet.number ∷ decimal packet.commands ∷ verdict_fields (verdict_of verdict.now) [])) }
    ensures kept { OnErr result (out.new ≡ out.old) }
{
    let mut head = Head::new();
    let octets = put_verdict(&mut head, verdict);
    put_counts(&mut head, packet);
    out.push_headed(head.as_slice(), octets)
}

// The fields of a verdict, but for the octets that stand behind them in hexadecimal. A packet that goes down is in the
// tunnel to its eNodeB: its G-PDU is written from its two parts.
#[inline(always)]
fn put_verdict<'a>(head: &mut Head, verdict: &'a LentVerdict<'_>) -> &'a [u8]
    requires short { IsShort verdict.now }
    requires empty { head.old ≡ [] }
    ensures told { head.new ++ encode_lower result.now ≡ behind (verdict_fields (verdict_of verdict.now) []) }
    ensures room { length head.new ≤ 75 }
{
    match verdict {
        LentVerdict::Up { life, octets } => {
            head.put(b' ');
            put_life(head, b"up", *life);
            octets
        }
        LentVerdict::Down { life, octets, peer } => {
            head.put_eight(gpdu_head(peer.teid, octets.len() as u16));
            head.put(b' ');
            head.put_address(peer.addr.0);
            put_life(head, b"down", *life);
            octets
        }
        LentVerdict::Held { life, message } => put_held(head, *life, message),
        LentVerdict::Idle { life } => {
            put_life(head, b"idle", *life);
            &[]
        }
        LentVerdict::Policed { life } => {
            put_life(head, b"policed", *life);
            &[]
        }
        LentVerdict::NoBearer => {
            head.put_word(b"nobearer");
            &[]
        }
        LentVerdict::Spoof => {
            head.put_word(b"spoof");
            &[]
        }
    }
}

// A packet that is held, and the message that told of it, if one did.
fn put_held<'a>(head: &mut Head, life: u64, message: &'a Option<Octets>) -> &'a [u8]
    requires { head.old ≡ [] }
    ensures told { head.new ++ encode_lower result.now
        ≡ behind (codes "held" ∷ decimal life ∷ message_word message.now ∷ []) }
    ensures room { length head.new ≤ 75 }
{
    match message {
        Some(message) => {
            head.put(b' ');
            put_life(head, b"held", life);
            message.as_slice()
        }
        None => {
            head.put_word(b"-");
            put_life(head, b"held", life);
            &[]
        }
    }
}

// A word and a life.
#[inline(always)]
fn put_life(head: &mut Head, word: &[u8], life: u64)
    requires word { length word.now ≤ 8 }
    requires room { length head.old ≤ 40 }
    ensures value { head.new ≡ 32 ∷ word.now ++ (32 ∷ decimal life ++ head.old) }
    ensures len { length head.new ≤ length head.old + 30 }
{
    head.put_number(life);
    head.put_word(word);
}

/// A packet that went down, by the octets of its G-PDU.
pub(crate) fn push_sent(
    out: &mut Text,
    packet: Which,
    life: u64,
    peer: Addr4,
    octets: &[u8],
) -> Result<(), NoMemory>
    ensures appended { OnOk result (out.new ≡ out.old ++ joined (codes "P" ∷ decimal packet.line ∷ decimal packet.slot
        ∷ decimal packet.number ∷ decimal packet.commands ∷ codes "down" ∷ decimal life ∷ dotted peer
        ∷ encode_lower octets.now ∷ [])) }
    ensures kept { OnErr result (out.new ≡ out.old) }
{
    let mut head = Head::new();
    head.put(b' ');
    head.put_address(peer.0);
    head.put_number(life);
    head.put_word(b"down");
    put_counts(&mut head, packet);
    out.push_headed(head.as_slice(), octets)
}

pub(crate) fn push_word(out: &mut Text, packet: Which, word: &[u8]) -> Result<(), NoMemory>
    requires { length word.now ≤ 8 }
    ensures appended { OnOk result (out.new ≡ out.old ++ joined (codes "P" ∷ decimal packet.line ∷ decimal packet.slot
        ∷ decimal packet.number ∷ decimal packet.commands ∷ word.now ∷ [])) }
    ensures kept { OnErr result (out.new ≡ out.old) }
{
    let mut head = Head::new();
    head.put_word(word);
    put_counts(&mut head, packet);
    out.extend_from_slice(head.as_slice())
}

pub(crate) fn push_life(
    out: &mut Text,
    packet: Which,
    word: &[u8],
    life: u64,
) -> Result<(), NoMemory>
    requires { length word.now ≤ 8 }
    ensures appended { OnOk result (out.new ≡ out.old ++ joined (codes "P" ∷ decimal packet.line ∷ decimal packet.slot
        ∷ decimal packet.number ∷ decimal packet.commands ∷ word.now ∷ decimal life ∷ [])) }
    ensures kept { OnErr result (out.new ≡ out.old) }
{
    let mut head = Head::new();
    head.put_number(life);
    head.put_word(word);
    put_counts(&mut head, packet);
    out.extend_from_slice(head.as_slice())
}

pub(crate) fn push_held(
    out: &mut Text,
    packet: Which,
    life: u64,
    message: &Option<Octets>,
) -> Result<(), NoMemory>
    ensures appended { OnOk result (out.new ≡ out.old ++ joined (codes "P" ∷ decimal packet.line ∷ decimal packet.slot
        ∷ decimal packet.number ∷ decimal packet.commands ∷ codes "held" ∷ decimal life
        ∷ message_word message.now ∷ [])) }
    ensures kept { OnErr result (out.new ≡ out.old) }
{
    match message {
        None => push_held_alone(out, packet, life),
        Some(message) => push_octets(out, packet, b"held", life, message.as_slice()),
    }
}

// Held without a message.
fn push_held_alone(out: &mut Text, packet: Which, life: u64) -> Result<(), NoMemory>
    ensures appended { OnOk result (out.new ≡ out.old ++ joined (codes "P" ∷ decimal packet.line ∷ decimal packet.slot
        ∷ decimal packet.number ∷ decimal packet.commands ∷ codes "held" ∷ decimal life ∷ codes "-" ∷ [])) }
    ensures kept { OnErr result (out.new ≡ out.old) }
{
    let mut head = Head::new();
    head.put_word(b"-");
    head.put_number(life);
    head.put_word(b"held");
    put_counts(&mut head, packet);
    out.extend_from_slice(head.as_slice())
}

// The word of the entry, and the numbers in front of a verdict.
#[inline(always)]
fn put_counts(head: &mut Head, packet: Which)
    requires { length head.old ≤ 75 }
    ensures { head.new ≡ 80 ∷ 32 ∷ decimal packet.line ++ (32 ∷ decimal packet.slot ++ (32 ∷ decimal packet.number
        ++ (32 ∷ decimal packet.commands ++ head.old))) }
{
    put_four(
        head,
        packet.line,
        u64::from(packet.slot.0),
        packet.number,
        packet.commands,
    );
    head.put(b'P');
}

/// Four numbers in front of what stands there.
#[inline(always)]
pub(crate) fn put_four(head: &mut Head, first: u64, second: u64, third: u64, fourth: u64)
    requires { length head.old ≤ 75 }
    ensures value { head.new ≡ 32 ∷ decimal first ++ (32 ∷ decimal second ++ (32 ∷ decimal third
        ++ (32 ∷ decimal fourth ++ head.old))) }
    ensures len { length head.new ≤ length head.old + 84 }
{
    head.put_number(fourth);
    head.put_number(third);
    head.put_number(second);
    head.put_number(first);
}
