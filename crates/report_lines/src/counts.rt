//! Counts by a report's text.
ghost use Rattle.std.specs.Prelude.{◌≡◌};
ghost use Rattle.text_fields.specs.Fields.{pieces_left};
ghost use Rattle.report_lines.specs.Counts.{Counts, all_held, counts_of, down_octets, line_counts, nothing};
ghost use Rattle.report_lines.specs.Counts.{packet_counts, plus, up_octets};

use text_fields::{cut, next_piece};

// The octets of a G-PDU's header.
const TUNNEL_LEN: u64 = 8;

/// Counts of entries, and of octets of packets. A count stays at 2^64 − 1.
#[derive(Drop)]
pub struct EntryCounts {
    pub notes: u64,
    pub commands: u64,
    pub packets: u64,
    pub refusals: u64,
    pub records: u64,
    pub opens: u64,
    pub up: u64,
    pub down: u64,
}

impl EntryCounts {
    /// Nothing is counted yet.
    pub fn new() -> EntryCounts
        ensures { result ≡ nothing }
    {
        EntryCounts {
            notes: 0,
            commands: 0,
            packets: 0,
            refusals: 0,
            records: 0,
            opens: 0,
            up: 0,
            down: 0,
        }
    }

    /// Counts the entries of a text, a line each. It takes no memory.
    pub fn add(&mut self, text: &[u8])
        ensures { (before : Counts) → self.old ≡ all_held before
            → self.new ≡ all_held (plus before (counts_of text.now)) }
    {
        let mut left = text;
        loop {
            let (line, rest) = cut(b'\n', left);
            self.add_counts(&counted(line));
            match rest {
                Some(rest) => left = rest,
                None => return,
            }
        }
    }

    fn add_counts(&mut self, more: &EntryCounts)
        ensures { self.new ≡ all_held (plus self.old more.now) }
    {
        self.notes = self.notes.saturating_add(more.notes);
        self.commands = self.commands.saturating_add(more.commands);
        self.packets = self.packets.saturating_add(more.packets);
        self.refusals = self.refusals.saturating_add(more.refusals);
        self.records = self.records.saturating_add(more.records);
        self.opens = self.opens.saturating_add(more.opens);
        self.up = self.up.saturating_add(more.up);
        self.down = self.down.saturating_add(more.down);
    }
}

// What a line counts.
fn counted(line: &[u8]) -> EntryCounts
    ensures { result ≡ line_counts line.now }
{
    let mut counts = EntryCounts::new();
    let (kind, fields) = cut(b' ', line);
    if kind == b"N".as_slice() {
        counts.notes = 1;
    } else if kind == b"C".as_slice() {
        counts.commands = 1;
    } else if kind == b"P".as_slice() {
        counts = packet(fields);
    } else if kind == b"F".as_slice() {
        counts.refusals = 1;
    } else if kind == b"R".as_slice() {
        counts.records = 1;
    } else if kind == b"O".as_slice() {
        counts.opens = 1;
    }
    counts
}

// What a packet's entry counts, by the fields behind its kind.
fn packet(fields: Option<&[u8]>) -> EntryCounts
    ensures { result ≡ packet_counts (pieces_left 32 fields.entry) }
{
    let mut counts = EntryCounts::new();
    counts.packets = 1;
    let Some((_, fields)) = next_piece(b' ', fields) else {
        return counts;
    };
    let Some((_, fields)) = next_piece(b' ', fields) else {
        return counts;
    };
    let Some((_, fields)) = next_piece(b' ', fields) else {
        return counts;
    };
    let Some((_, verdict)) = next_piece(b' ', fields) else {
        return counts;
    };
    counts.up = up_octets(verdict);
    counts.down = down_octets(verdict);
    counts
}

fn up_octets(verdict: Option<&[u8]>) -> u64
    ensures { result ≡ up_octets (pieces_left 32 verdict.entry) }
{
    let Some((word, left)) = next_piece(b' ', verdict) else {
        return 0;
    };
    let Some((_, left)) = next_piece(b' ', left) else {
        return 0;
    };
    let Some((octets, _)) = next_piece(b' ', left) else {
        return 0;
    };
    if word == b"up".as_slice() {
        octets.len() as u64 / 2
    } else {
        0
    }
}

fn down_octets(verdict: Option<&[u8]>) -> u64
    ensures { result ≡ down_octets (pieces_left 32 verdict.entry) }
{
    let Some((word, left)) = next_piece(b' ', verdict) else {
        return 0;
    };
    let Some((_, left)) = next_piece(b' ', left) else {
        return 0;
    };
    let Some((_, left)) = next_piece(b' ', left) else {
        return 0;
    };
    let Some((octets, _)) = next_piece(b' ', left) else {
        return 0;
    };
    if word == b"down".as_slice() {
        (octets.len() as u64 / 2).saturating_sub(TUNNEL_LEN)
    } else {
        0
    }
}
