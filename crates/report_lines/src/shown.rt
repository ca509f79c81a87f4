//! An entry prints as its text, with its place. Takes no memory.
ghost use Rattle.std.specs.Prelude.{◌∷◌, [], Some};
ghost use Rattle.std.specs.Fmt.{WritesOnOk};
ghost use Rattle.text_fields.specs.Fields.{behind, joined};
ghost use Rattle.report_lines.specs.Text.{
  entry_text,
  line_fields,
  verdict_fields,
  place_fields,
  fate_fields,
  effect_fields,
  charge_fields,
  counters_fields,
};
ghost use Rattle.report_lines.specs.Words.{message_word, moment_word};
ghost use Rattle.report_lines.specs.declared.entry.LineEntry.TheVariants as line_entry;
ghost use Rattle.report_lines.specs.declared.entry.ChargeEntry.TheVariants as charge;

use crate::words::{outcome_word, refused_word, why_word};
use crate::{ChargeEntry, EffectEntry, Entry, Judgement, LineEntry, Note};
use charging_book::{ChargeRow, Open};
use pc_base::{Effect, Fate, Hexadecimal, Moment, Octets, Place, Slot, Verdict};
use std::{fmt, str};

impl fmt::Display for Entry {
    ghost output = { λ told. Some (entry_text told) };

    fn fmt<W: fmt::Write>(&self, f: &mut fmt::Formatter<W>) -> fmt::Result {
        match self {
            Entry::Line(entry) => write_line(entry, f),
            Entry::Effect(entry) => write_effect(entry, f),
            Entry::Charge(ChargeEntry::R { slot, row }) => write_row(*slot, row, f),
            Entry::Charge(ChargeEntry::O { slot, counters }) => {
                write!(f, "O {}", slot.0)?;
                write_counters(counters, f)
            }
        }
    }
}

fn write_line<W: fmt::Write>(entry: &LineEntry, f: &mut fmt::Formatter<W>) -> fmt::Result
    ensures { WritesOnOk W.write_str_gives f.old result (joined (line_fields entry.now)) f.new }
{
    match entry {
        LineEntry::N(note) => {
            write!(f, "N {} ", note.line)?;
            write_note(note, f)
        }
        LineEntry::C(told) => {
            let outcome = outcome_word(told.reply.outcome);
            write!(
                f,
                "C {} {} {} {outcome}",
                told.line, told.slot.0, told.number
            )?;
            write_message(&told.reply.message, f)
        }
        LineEntry::P(told) => write_judgement(told, f),
        LineEntry::F(told) => {
            write!(
                f,
                "F {} {} {}",
                told.line,
                told.slot.0,
                refused_word(told.packet)
            )
        }
    }
}

// A note is printable ASCII.
fn write_note<W: fmt::Write>(note: &Note, f: &mut fmt::Formatter<W>) -> fmt::Result
    ensures { WritesOnOk W.write_str_gives f.old result note.now.note f.new }
{
    match str::from_utf8(note.note.as_slice()) {
        Ok(text) => f.write_str(text),
        Err(_) => unreachable!(),
    }
}

// A message, or a dash for none.
fn write_message<W: fmt::Write>(message: &Option<Octets>, f: &mut fmt::Formatter<W>) -> fmt::Result
    ensures { WritesOnOk W.write_str_gives f.old result (32 ∷ message_word message.now) f.new }
{
    match message {
        None => f.write_str(" -"),
        Some(message) => write!(f, " {}", Hexadecimal(message.as_slice())),
    }
}

fn write_judgement<W: fmt::Write>(told: &Judgement, f: &mut fmt::Formatter<W>) -> fmt::Result
    ensures { WritesOnOk W.write_str_gives f.old result (joined (line_fields (line_entry.P told.now))) f.new }
{
    write!(
        f,
        "P {} {} {} {}",
        told.line, told.slot.0, told.number, told.commands
    )?;
    write_verdict(&told.verdict, f)?;
    write_place(told.place, told.parked, f)
}

fn write_verdict<W: fmt::Write>(verdict: &Verdict, f: &mut fmt::Formatter<W>) -> fmt::Result
    ensures { WritesOnOk W.write_str_gives f.old result (behind (verdict_fields verdict.now [])) f.new }
{
    match verdict {
        Verdict::Up { life, octets } => {
            write!(f, " up {life} {}", Hexadecimal(octets.as_slice()))
        }
        Verdict::Down { life, peer, octets } => {
            write!(f, " down {life} {peer} {}", Hexadecimal(octets.as_slice()))
        }
        Verdict::NoBearer => f.write_str(" nobearer"),
        Verdict::Spoof => f.write_str(" spoof"),
        Verdict::Idle { life } => write!(f, " idle {life}"),
        Verdict::Held { life, message } => {
            write!(f, " held {life}")?;
            write_message(message, f)
        }
        Verdict::Policed { life } => write!(f, " policed {life}"),
    }
}

fn write_place<W: fmt::Write>(
    place: Option<Place>,
    parked: bool,
    f: &mut fmt::Formatter<W>,
) -> fmt::Result
    ensures { WritesOnOk W.write_str_gives f.old result (behind (place_fields place parked)) f.new }
{
    let Some(place) = place else {
        return Ok(());
    };
    match place {
        Place::At(slice) => write!(f, " @{}", slice.0)?,
        Place::Closing => f.write_str(" @-")?,
    }
    if parked { f.write_str(" p") } else { Ok(()) }
}

fn write_effect<W: fmt::Write>(told: &EffectEntry, f: &mut fmt::Formatter<W>) -> fmt::Result
    ensures { WritesOnOk W.write_str_gives f.old result
        (joined (effect_fields told.now.slot told.now.command told.now.effect)) f.new }
{
    let (slot, command) = (told.slot.0, told.command);
    match &told.effect {
        Effect::Marker { life, peer, octets } => {
            write!(
                f,
                "M {slot} {life} {command} {peer} {}",
                Hexadecimal(octets.as_slice())
            )
        }
        Effect::Fate { packet, fate } => {
            write!(f, "H {slot} {packet} {command}")?;
            write_fate(fate, f)
        }
    }
}

fn write_fate<W: fmt::Write>(fate: &Fate, f: &mut fmt::Formatter<W>) -> fmt::Result
    ensures { WritesOnOk W.write_str_gives f.old result (behind (fate_fields fate.now)) f.new }
{
    match fate {
        Fate::Down { life, peer, octets } => {
            write!(f, " down {life} {peer} {}", Hexadecimal(octets.as_slice()))
        }
        Fate::Policed { life } => write!(f, " policed {life}"),
        Fate::Gone { life } => write!(f, " gone {life}"),
    }
}

fn write_row<W: fmt::Write>(slot: Slot, row: &ChargeRow, f: &mut fmt::Formatter<W>) -> fmt::Result
    ensures { WritesOnOk W.write_str_gives f.old result (joined (charge_fields (charge.R slot row.now))) f.new }
{
    write!(
        f,
        "R {} {} {} {} {}",
        slot.0, row.life, row.ebi, row.qci, row.seq
    )?;
    write!(
        f,
        " {} {} {} {}",
        row.up_octets, row.down_octets, row.up_packets, row.down_packets
    )?;
    write_moment(row.first, f)?;
    write_moment(row.last, f)?;
    write!(f, " {}", why_word(row.why))
}

fn write_counters<W: fmt::Write>(counters: &Open, f: &mut fmt::Formatter<W>) -> fmt::Result
    ensures { WritesOnOk W.write_str_gives f.old result (behind (counters_fields counters.now [])) f.new }
{
    let Open {
        life,
        ebi,
        qci,
        seq,
        up_octets,
        down_octets,
        up_packets,
        down_packets,
    } = *counters;
    write!(f, " {life} {ebi} {qci} {seq}")?;
    write!(f, " {up_octets} {down_octets} {up_packets} {down_packets}")
}

// A moment, or a dash for none.
fn write_moment<W: fmt::Write>(moment: Option<Moment>, f: &mut fmt::Formatter<W>) -> fmt::Result
    ensures { WritesOnOk W.write_str_gives f.old result (32 ∷ moment_word moment) f.new }
{
    match moment {
        None => f.write_str(" -"),
        Some(moment) => write!(f, " {moment}"),
    }
}
