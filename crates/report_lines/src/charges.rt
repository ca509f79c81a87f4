//! Charging records and open counters, both ways.
ghost use Rattle.std.specs.Prelude.{◌≡◌, ◌+◌, ◌≤◌, ◌++◌, ◌∷◌, decimal, length, OnOk, OnErr};
ghost use Rattle.text_fields.specs.Fields.{space, pieces_left};
ghost use Rattle.report_lines.specs.declared.entry.Entry.TheVariants as entry;
ghost use Rattle.report_lines.specs.declared.entry.ChargeEntry.TheVariants as charge;
ghost use Rattle.report_lines.specs.Reading.{Gives, counters_at, row_of, row_with, open_of};
ghost use Rattle.report_lines.specs.Text.{entry_text};
ghost use Rattle.report_lines.specs.Words.{moment_word, why_word};

use crate::NoMemory;
use crate::fields::{next_count, next_moment, next_number, next_octet};
use crate::heads::put_four;
use crate::words::{read_why, why_word};
use charging_book::{ChargeRow, Open, Why};
use pc_base::{Moment, Slot};
use text_fields::{Head, Text, next_piece};

fn next_counters(left: Option<&[u8]>) -> Option<(Open, Option<&[u8]>)>
    ensures { Gives result (counters_at (pieces_left space left.entry)) }
{
    let (life, left) = next_count(left)?;
    let (ebi, left) = next_octet(left)?;
    let (qci, left) = next_octet(left)?;
    let (seq, left) = next_count(left)?;
    let (up_octets, left) = next_number(left, u64::MAX)?;
    let (down_octets, left) = next_number(left, u64::MAX)?;
    let (up_packets, left) = next_count(left)?;
    let (down_packets, left) = next_count(left)?;
    let counters = Open {
        life,
        ebi,
        qci,
        seq,
        up_octets,
        down_octets,
        up_packets,
        down_packets,
    };
    Some((counters, left))
}

pub(crate) fn read_open(left: Option<&[u8]>) -> Option<Open>
    ensures { result ≡ open_of (pieces_left space left.entry) }
{
    let Some((counters, left)) = next_counters(left) else {
        return None;
    };
    match next_piece(b' ', left) {
        None => Some(counters),
        Some(_) => None,
    }
}

pub(crate) fn read_row(left: Option<&[u8]>) -> Option<ChargeRow>
    ensures { result ≡ row_of (pieces_left space left.entry) }
{
    let Some((counters, left)) = next_counters(left) else {
        return None;
    };
    let Some((first, left)) = next_moment(left) else {
        return None;
    };
    let Some((last, left)) = next_moment(left) else {
        return None;
    };
    let (why, left) = next_piece(b' ', left)?;
    let why = read_why(why)?;
    let None = next_piece(b' ', left) else {
        return None;
    };
    Some(row(counters, first, last, why))
}

fn row(counters: Open, first: Option<Moment>, last: Option<Moment>, why: Why) -> ChargeRow
    ensures { result ≡ row_with counters first last why }
{
    ChargeRow {
        life: counters.life,
        ebi: counters.ebi,
        qci: counters.qci,
        seq: counters.seq,
        up_octets: counters.up_octets,
        down_octets: counters.down_octets,
        up_packets: counters.up_packets,
        down_packets: counters.down_packets,
        first,
        last,
        why,
    }
}

/// Appends the entry of a charging record of a slot.
pub fn push_row(out: &mut Text, slot: Slot, row: &ChargeRow) -> Result<(), NoMemory>
    ensures appended { OnOk result (out.new ≡ out.old ++ entry_text (entry.Charge (charge.R slot row.now))) }
    ensures kept { OnErr result (out.new ≡ out.old) }
{
    let mut piece = Head::new();
    put_piece(&mut piece, slot, row.life, row.ebi, row.qci, row.seq);
    piece.put(b'R');
    let mut counts = Head::new();
    put_ending(&mut counts, row.first, row.last, row.why);
    put_four(
        &mut counts,
        row.up_octets,
        row.down_octets,
        row.up_packets,
        row.down_packets,
    );
    out.push_parts(piece.as_slice(), counts.as_slice())
}

/// Appends the entry of a slot's open counters.
pub fn push_open(out: &mut Text, slot: Slot, counters: &Open) -> Result<(), NoMemory>
    ensures appended { OnOk result (out.new ≡ out.old ++ entry_text (entry.Charge (charge.O slot counters.now))) }
    ensures kept { OnErr result (out.new ≡ out.old) }
{
    let mut piece = Head::new();
    put_piece(
        &mut piece,
        slot,
        counters.life,
        counters.ebi,
        counters.qci,
        counters.seq,
    );
    piece.put(b'O');
    let mut counts = Head::new();
    put_four(
        &mut counts,
        counters.up_octets,
        counters.down_octets,
        counters.up_packets,
        counters.down_packets,
    );
    out.push_parts(piece.as_slice(), counts.as_slice())
}

// The slot, and which piece of which bearer's life.
fn put_piece(head: &mut Head, slot: Slot, life: u64, ebi: u8, qci: u8, seq: u64)
    requires { length head.old ≤ 1 }
    ensures value { head.new ≡ 32 ∷ decimal slot ++ (32 ∷ decimal life ++ (32 ∷ decimal ebi ++ (32 ∷ decimal qci
        ++ (32 ∷ decimal seq ++ head.old)))) }
    ensures len { length head.new ≤ length head.old + 105 }
{
    put_four(head, life, u64::from(ebi), u64::from(qci), seq);
    head.put_number(u64::from(slot.0));
}

// The moments of a piece, and why it was finished.
fn put_ending(head: &mut Head, first: Option<Moment>, last: Option<Moment>, why: Why)
    requires { length head.old ≤ 1 }
    ensures value { head.new ≡ 32 ∷ moment_word first ++ (32 ∷ moment_word last ++ (32 ∷ why_word why ++ head.old)) }
    ensures len { length head.new ≤ length head.old + 49 }
{
    head.put_word(why_word(why).as_bytes());
    put_moment(head, last);
    put_moment(head, first);
}

// A moment, or a dash for none.
fn put_moment(head: &mut Head, moment: Option<Moment>)
    requires { length head.old ≤ 100 }
    ensures value { head.new ≡ 32 ∷ moment_word moment ++ head.old }
    ensures len { length head.new ≤ length head.old + 21 }
{
    match moment {
        None => head.put_word(b"-"),
        Some(moment) => head.put_number(moment.0),
    }
}
