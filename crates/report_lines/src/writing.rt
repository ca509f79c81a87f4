//! The text of an entry, appended to a caller's text or owned. A head is put together for each, and written at
//! once with what stands behind it: where memory runs out, nothing is appended.
ghost use Rattle.std.specs.Prelude.{◌≡◌, ◌+◌, ◌≤◌, ◌++◌, ◌∷◌, [], None, false, codes, decimal, length};
ghost use Rattle.std.specs.Prelude.{IfOk, OnOk, OnErr};
ghost use Rattle.text_fields.specs.Fields.{joined};
ghost use Rattle.report_lines.specs.declared.entry.Entry.TheVariants as entry;
ghost use Rattle.report_lines.specs.declared.entry.LineEntry.TheVariants as line_entry;
ghost use Rattle.pc_base.specs.declared.effect.Effect.TheVariants as effect;
ghost use Rattle.packet_steps.specs.Lent.{verdict_of};
ghost use Rattle.report_lines.specs.Lent.{IsShort};
ghost use Rattle.pc_base.specs.declared.effect.Fate.TheVariants as fate;
ghost use Rattle.report_lines.specs.Text.{entry_text, effect_fields, charge_fields, line_fields};
ghost use Rattle.report_lines.specs.Text.{line_shown, without_place, shown};
ghost use Rattle.report_lines.specs.Words.{outcome_word, refused_word};

use crate::charges::{push_open, push_row};
use crate::heads::{Which, push_held, push_life, push_octets, push_sent, push_verdict, push_word};
use crate::packets::push_place_behind;
use crate::words::{outcome_word, refused_word};
use crate::{ChargeEntry, Entry, Judgement, LineEntry, NoMemory};
use packet_steps::LentVerdict;
use pc_base::{Addr4, Effect, Fate, Octets, Outcome, Place, Reply, Slot, Verdict};
use std::alloc::Global;
use text_fields::{Head, Text};

/// The one text of the entry, without a newline; where places aren't shown, that of the entry without
/// its place.
pub fn text(alloc: Global, entry: &Entry, places: bool) -> Result<Octets, NoMemory>
    ensures { IfOk result (λ octets. octets ≡ entry_text (shown places entry.now)) }
{
    let mut out = Text::new(alloc);
    push_text(&mut out, entry, places)?;
    Ok(Octets::of(out.into_octets()))
}

/// Appends the text of the entry.
pub fn push_text(out: &mut Text, entry: &Entry, places: bool) -> Result<(), NoMemory>
    ensures appended { OnOk result (out.new ≡ out.old ++ entry_text (shown places entry.now)) }
    ensures kept { OnErr result (out.new ≡ out.old) }
{
    match entry {
        Entry::Line(entry) => push_line(out, entry, places),
        Entry::Effect(entry) => push_effect(out, entry.slot, entry.command, &entry.effect),
        Entry::Charge(entry) => push_charge(out, entry),
    }
}

fn push_line(out: &mut Text, entry: &LineEntry, places: bool) -> Result<(), NoMemory>
    ensures appended { OnOk result (out.new ≡ out.old ++ joined (line_fields (line_shown places entry.now))) }
    ensures kept { OnErr result (out.new ≡ out.old) }
{
    match entry {
        LineEntry::N(note) => push_note(out, note.line, note.note.as_slice()),
        LineEntry::C(answer) => {
            push_answer(out, answer.line, answer.slot, answer.number, &answer.reply)
        }
        LineEntry::P(judgement) => push_judgement(out, judgement, places),
        LineEntry::F(refusal) => push_refusal(out, refusal.line, refusal.slot, refusal.packet),
    }
}

/// Appends the entry of a note: one octet or more of printable ASCII, which isn't looked at here.
pub fn push_note(out: &mut Text, line: u64, note: &[u8]) -> Result<(), NoMemory>
    ensures appended { OnOk result (out.new ≡ out.old
        ++ entry_text (entry.Line (line_entry.N (record { line = line; note = note.now })))) }
    ensures kept { OnErr result (out.new ≡ out.old) }
{
    let mut head = Head::new();
    head.put(b' ');
    head.put_number(line);
    head.put(b'N');
    out.push_parts(head.as_slice(), note)
}

/// Appends the entry of a slot's command of this number, with its reply.
pub fn push_answer(
    out: &mut Text,
    line: u64,
    slot: Slot,
    number: u64,
    reply: &Reply,
) -> Result<(), NoMemory>
    ensures appended { OnOk result (out.new ≡ out.old
        ++ entry_text (entry.Line (line_entry.C (record {
          line = line;
          slot = slot;
          number = number;
          reply = reply.now;
        })))) }
    ensures kept { OnErr result (out.new ≡ out.old) }
{
    let mut head = Head::new();
    match &reply.message {
        None => {
            head.put_word(b"-");
            put_answer(&mut head, line, slot, number, reply.outcome);
            out.extend_from_slice(head.as_slice())
        }
        Some(message) => {
            head.put(b' ');
            put_answer(&mut head, line, slot, number, reply.outcome);
            out.push_headed(head.as_slice(), message.as_slice())
        }
    }
}

// All in front of a reply's message.
fn put_answer(head: &mut Head, line: u64, slot: Slot, number: u64, outcome: Outcome)
    requires { length head.old ≤ 8 }
    ensures { head.new ≡ 67 ∷ 32 ∷ decimal line ++ (32 ∷ decimal slot ++ (32 ∷ decimal number
        ++ (32 ∷ outcome_word outcome ++ head.old))) }
{
    head.put_word(outcome_word(outcome).as_bytes());
    head.put_number(number);
    head.put_number(u64::from(slot.0));
    head.put_number(line);
    head.put(b'C');
}

fn push_judgement(out: &mut Text, judgement: &Judgement, places: bool) -> Result<(), NoMemory>
    ensures appended { OnOk result (out.new ≡ out.old
        ++ joined (line_fields (line_shown places (line_entry.P judgement.now)))) }
    ensures kept { OnErr result (out.new ≡ out.old) }
{
    let start = out.as_slice().len();
    push_unplaced(out, judgement)?;
    if places {
        push_place_behind(out, start, judgement.place, judgement.parked)
    } else {
        Ok(())
    }
}

// All but the place.
fn push_unplaced(out: &mut Text, judgement: &Judgement) -> Result<(), NoMemory>
    ensures appended { OnOk result (out.new
        ≡ out.old ++ joined (line_fields (line_entry.P (without_place judgement.now)))) }
    ensures kept { OnErr result (out.new ≡ out.old) }
{
    push_judged(
        out,
        judgement.line,
        judgement.slot,
        judgement.number,
        judgement.commands,
        &judgement.verdict,
    )
}

/// Appends the entry, without a place, of a slot's packet of this number, judged behind so many of the
/// slot's commands.
pub fn push_judged(
    out: &mut Text,
    line: u64,
    slot: Slot,
    number: u64,
    commands: u64,
    verdict: &Verdict,
) -> Result<(), NoMemory>
    ensures appended { OnOk result (out.new ≡ out.old ++ entry_text (entry.Line (line_entry.P (record {
      line = line;
      slot = slot;
      number = number;
      commands = commands;
      verdict = verdict.now;
      place = None;
      parked = false;
    })))) }
    ensures kept { OnErr result (out.new ≡ out.old) }
{
    let packet = Which {
        line,
        slot,
        number,
        commands,
    };
    match verdict {
        Verdict::Up { life, octets } => push_octets(out, packet, b"up", *life, octets.as_slice()),
        Verdict::Down { life, peer, octets } => {
            push_sent(out, packet, *life, *peer, octets.as_slice())
        }
        Verdict::NoBearer => push_word(out, packet, b"nobearer"),
        Verdict::Spoof => push_word(out, packet, b"spoof"),
        Verdict::Idle { life } => push_life(out, packet, b"idle", *life),
        Verdict::Held { life, message } => push_held(out, packet, *life, message),
        Verdict::Policed { life } => push_life(out, packet, b"policed", *life),
    }
}

/// Appends the entry without a place, of a verdict whose octets are lent. A packet that goes down is in the tunnel to
/// its eNodeB.
#[inline(always)]
pub fn push_packet(
    out: &mut Text,
    line: u64,
    slot: Slot,
    number: u64,
    commands: u64,
    verdict: &LentVerdict<'_>,
) -> Result<(), NoMemory>
    requires { IsShort verdict.now }
    ensures appended { OnOk result (out.new ≡ out.old ++ entry_text (entry.Line (line_entry.P (record {
      line = line;
      slot = slot;
      number = number;
      commands = commands;
      verdict = verdict_of verdict.now;
      place = None;
      parked = false;
    })))) }
    ensures kept { OnErr result (out.new ≡ out.old) }
{
    let packet = Which {
        line,
        slot,
        number,
        commands,
    };
    push_verdict(out, packet, verdict)
}

/// Appends the same entry with its place, and with the word of a packet that was parked, which only one with a
/// place was.
pub fn push_placed(
    out: &mut Text,
    line: u64,
    slot: Slot,
    number: u64,
    commands: u64,
    verdict: &LentVerdict<'_>,
    place: Option<Place>,
    parked: bool,
) -> Result<(), NoMemory>
    requires { IsShort verdict.now }
    ensures appended { OnOk result (out.new ≡ out.old ++ entry_text (entry.Line (line_entry.P (record {
      line = line;
      slot = slot;
      number = number;
      commands = commands;
      verdict = verdict_of verdict.now;
      place = place;
      parked = parked;
    })))) }
    ensures kept { OnErr result (out.new ≡ out.old) }
{
    let start = out.as_slice().len();
    push_packet(out, line, slot, number, commands, verdict)?;
    push_place_behind(out, start, place, parked)
}

/// Appends the entry of a packet, or of a command, that found its queue full.
pub fn push_refusal(out: &mut Text, line: u64, slot: Slot, packet: bool) -> Result<(), NoMemory>
    ensures appended { OnOk result (out.new ≡ out.old
        ++ entry_text (entry.Line (line_entry.F (record { line = line; slot = slot; packet = packet })))) }
    ensures kept { OnErr result (out.new ≡ out.old) }
{
    let mut head = Head::new();
    put_refusal(&mut head, line, slot, packet);
    out.extend_from_slice(head.as_slice())
}

fn put_refusal(head: &mut Head, line: u64, slot: Slot, packet: bool)
    requires { length head.old ≤ 8 }
    ensures { head.new ≡ 70 ∷ 32 ∷ decimal line ++ (32 ∷ decimal slot ++ (32 ∷ refused_word packet ++ head.old)) }
{
    head.put_word(refused_word(packet).as_bytes());
    head.put_number(u64::from(slot.0));
    head.put_number(line);
    head.put(b'F');
}

/// Appends the entry of an effect of a slot's command of this number.
pub fn push_effect(
    out: &mut Text,
    slot: Slot,
    command: u64,
    effect: &Effect,
) -> Result<(), NoMemory>
    ensures appended { OnOk result (out.new ≡ out.old
        ++ entry_text (entry.Effect (record { slot = slot; command = command; effect = effect.now }))) }
    ensures kept { OnErr result (out.new ≡ out.old) }
{
    match effect {
        Effect::Marker { life, peer, octets } => {
            push_marker(out, slot, command, *life, *peer, octets)
        }
        Effect::Fate { packet, fate } => push_settlement(out, slot, command, *packet, fate),
    }
}

fn push_marker(
    out: &mut Text,
    slot: Slot,
    command: u64,
    life: u64,
    peer: Addr4,
    octets: &Octets,
) -> Result<(), NoMemory>
    ensures appended { OnOk result (out.new
        ≡ out.old ++ joined (effect_fields slot command (effect.Marker life peer octets.now))) }
    ensures kept { OnErr result (out.new ≡ out.old) }
{
    let mut head = Head::new();
    head.put(b' ');
    head.put_address(peer.0);
    put_three(&mut head, slot, life, command);
    head.put(b'M');
    out.push_headed(head.as_slice(), octets.as_slice())
}

// A slot, and two numbers.
fn put_three(head: &mut Head, slot: Slot, second: u64, third: u64)
    requires { length head.old ≤ 75 }
    ensures value { head.new ≡ 32 ∷ decimal slot ++ (32 ∷ decimal second ++ (32 ∷ decimal third ++ head.old)) }
    ensures len { length head.new ≤ length head.old + 63 }
{
    head.put_number(third);
    head.put_number(second);
    head.put_number(u64::from(slot.0));
}

fn push_settlement(
    out: &mut Text,
    slot: Slot,
    command: u64,
    packet: u64,
    fate: &Fate,
) -> Result<(), NoMemory>
    ensures appended { OnOk result (out.new
        ≡ out.old ++ joined (effect_fields slot command (effect.Fate packet fate.now))) }
    ensures kept { OnErr result (out.new ≡ out.old) }
{
    match fate {
        Fate::Down { life, peer, octets } => {
            push_delivered(out, slot, command, packet, *life, *peer, octets)
        }
        Fate::Policed { life } => push_settled(out, slot, command, packet, b"policed", *life),
        Fate::Gone { life } => push_settled(out, slot, command, packet, b"gone", *life),
    }
}

// A packet that was held and went down.
fn push_delivered(
    out: &mut Text,
    slot: Slot,
    command: u64,
    packet: u64,
    life: u64,
    peer: Addr4,
    octets: &Octets,
) -> Result<(), NoMemory>
    ensures appended { OnOk result (out.new
        ≡ out.old ++ joined (effect_fields slot command (effect.Fate packet (fate.Down life peer octets.now)))) }
    ensures kept { OnErr result (out.new ≡ out.old) }
{
    let mut head = Head::new();
    head.put(b' ');
    head.put_address(peer.0);
    head.put_number(life);
    head.put_word(b"down");
    put_three(&mut head, slot, packet, command);
    head.put(b'H');
    out.push_headed(head.as_slice(), octets.as_slice())
}

// A packet that was held, and what else became of it.
fn push_settled(
    out: &mut Text,
    slot: Slot,
    command: u64,
    packet: u64,
    word: &[u8],
    life: u64,
) -> Result<(), NoMemory>
    requires { length word.now ≤ 8 }
    ensures appended { OnOk result (out.new ≡ out.old ++ joined (codes "H" ∷ decimal slot ∷ decimal packet
        ∷ decimal command ∷ word.now ∷ decimal life ∷ [])) }
    ensures kept { OnErr result (out.new ≡ out.old) }
{
    let mut head = Head::new();
    head.put_number(life);
    head.put_word(word);
    put_three(&mut head, slot, packet, command);
    head.put(b'H');
    out.extend_from_slice(head.as_slice())
}

fn push_charge(out: &mut Text, entry: &ChargeEntry) -> Result<(), NoMemory>
    ensures appended { OnOk result (out.new ≡ out.old ++ joined (charge_fields entry.now)) }
    ensures kept { OnErr result (out.new ≡ out.old) }
{
    match entry {
        ChargeEntry::R { slot, row } => push_row(out, *slot, row),
        ChargeEntry::O { slot, counters } => push_open(out, *slot, counters),
    }
}
