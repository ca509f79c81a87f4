// What is counted for a piece of a life, and the row that a finished piece gives.
use pc_base::Moment;
use std::marker::Model;

/// How many octets fill a piece.
pub const VOLUME_OCTETS: u64 = 1_000_000;

// A count above this doesn't rise any more, so that none passes 2^61.
const MOST_COUNT: u64 = 0x2000_0000_0000_0000 - 20;

/// Why a piece was finished.
#[derive(Clone, Copy, Debug, PartialEq, Eq)]
pub enum Why {
    /// It has 1,000,000 octets or more.
    Volume,

    /// The quality of service changed.
    Qos,

    /// The life ended.
    Gone,
}

/// A finished piece of a life. `seq` counts a life's rows from 0. `first` and `last` are the
/// moments of its first and last packet, None in a piece without packets.
#[derive(Clone, Copy, Debug, PartialEq, Eq)]
pub struct ChargeRow {
    pub life: u64,
    pub ebi: u8,
    pub qci: u8,
    pub seq: u64,
    pub up_octets: u64,
    pub down_octets: u64,
    pub up_packets: u64,
    pub down_packets: u64,
    pub first: Option<Moment>,
    pub last: Option<Moment>,
    pub why: Why,
}

/// What is counted in the last piece of a life that isn't over. `seq` is the number of its rows.
#[derive(Clone, Copy, Debug, PartialEq, Eq)]
pub struct Open {
    pub life: u64,
    pub ebi: u8,
    pub qci: u8,
    pub seq: u64,
    pub up_octets: u64,
    pub down_octets: u64,
    pub up_packets: u64,
    pub down_packets: u64,
}

/// The last piece of a life that isn't over, as it is kept and made again: what is counted in it, and
/// the moments of its first and last packet, None in a piece without packets.
#[derive(Clone, Copy, Debug, PartialEq, Eq)]
pub struct Piece {
    pub counts: Open,
    pub first: Option<Moment>,
    pub last: Option<Moment>,
}

impl Piece {
    ghost use Rattle.std.specs.Prelude.{◌≡◌, ◌+◌, nat_lt};
    ghost use Rattle.charging_book.specs.Pieces.{volume};
    ghost use Rattle.charging_book.specs.Parts.{piece_of};

    pub(super) fn new(counts: &Open, span: &Span) -> Piece
        ensures { result ≡ piece_of counts.now span.now }
    {
        Piece {
            counts: *counts,
            first: span.first,
            last: span.last,
        }
    }

    // Whether it has fewer octets than fill a piece.
    pub(super) fn is_counting(&self) -> bool
        ensures { result ≡ nat_lt (self.now.counts.up_octets + self.now.counts.down_octets) volume }
    {
        let (up, down) = (self.counts.up_octets, self.counts.down_octets);
        up < VOLUME_OCTETS && down < VOLUME_OCTETS && up + down < VOLUME_OCTETS
    }
}

impl Model for Open {
    ghost use Rattle.std.specs.Prelude.{◌^◌, ◌≤◌};
    ghost use Rattle.charging_book.specs.Rows.{Counters};

    ghost Value = { Counters };

    ghost view = { λ held. record {
      life = held.life;
      ebi = held.ebi;
      qci = held.qci;
      seq = held.seq;
      up_octets = held.up_octets;
      down_octets = held.down_octets;
      up_packets = held.up_packets;
      down_packets = held.down_packets;
    } };

    ghost invariant = { λ held. (held.life ≤ 2 ^ 61) × (held.seq ≤ 2 ^ 61)
        × (held.up_packets ≤ 2 ^ 61) × (held.down_packets ≤ 2 ^ 61) };

    ghost inverse = { λ counters. record {
      life = counters.life;
      ebi = counters.ebi;
      qci = counters.qci;
      seq = counters.seq;
      up_octets = counters.up_octets;
      down_octets = counters.down_octets;
      up_packets = counters.up_packets;
      down_packets = counters.down_packets;
    } };
}

impl Open {
    ghost use Rattle.std.specs.Prelude.{◌≡◌, ◌+◌, ◌-◌, ◌<◌, ◌≤◌, ◌^◌, [], nat_le, IsTrue, ◌↔◌};
    ghost use Rattle.charging_book.specs.Pieces.{volume, open_of};
    ghost use Rattle.charging_book.specs.Counters.{with_packet, next_piece, HasRoom};

    /// The counters of a life's first piece, with nothing counted; the life's number is at most 2^61.
    pub fn new(life: u64, ebi: u8, qci: u8) -> Open
        requires { life ≤ 2 ^ 61 }
        ensures { result ≡ open_of life ebi qci 0 [] }
    {
        Open {
            life,
            ebi,
            qci,
            seq: 0,
            up_octets: 0,
            down_octets: 0,
            up_packets: 0,
            down_packets: 0,
        }
    }

    /// The counters with one packet of so many octets more, up or down; they have room, and the piece isn't full.
    pub fn with(&self, up: bool, octets: u32) -> Open
        requires octets { self.now.up_octets + self.now.down_octets < volume }
        requires room { HasRoom self.now }
        ensures { result ≡ with_packet self.now up octets }
    {
        let octets = u64::from(octets);
        let mut more = *self;
        if up {
            more.up_octets += octets;
            more.up_packets += 1;
        } else {
            more.down_octets += octets;
            more.down_packets += 1;
        }
        more
    }

    /// The counters of the life's next piece, with nothing counted; this one's number is at most 2^61 - 20.
    pub fn next(&self) -> Open
        requires { self.now.seq ≤ 2 ^ 61 - 20 }
        ensures { result ≡ next_piece self.now }
    {
        Open {
            life: self.life,
            ebi: self.ebi,
            qci: self.qci,
            seq: self.seq + 1,
            up_octets: 0,
            down_octets: 0,
            up_packets: 0,
            down_packets: 0,
        }
    }

    /// Whether each count may still rise: pieces and packets, up and down, are at most 2^61 - 20 each.
    pub fn has_room(&self) -> bool
        ensures { IsTrue result ↔ HasRoom self.now }
    {
        self.seq <= MOST_COUNT && self.up_packets <= MOST_COUNT && self.down_packets <= MOST_COUNT
    }

    /// Whether the octets, up and down together, fill a piece.
    pub fn is_full(&self) -> bool
        requires { self.now.up_octets + self.now.down_octets < 2 ^ 64 }
        ensures { result ≡ nat_le volume (self.now.up_octets + self.now.down_octets) }
    {
        self.up_octets + self.down_octets >= VOLUME_OCTETS
    }
}

// The moments of the first and the last packet of a piece.
#[derive(Clone, Copy, Debug, PartialEq, Eq)]
pub struct Span {
    first: Option<Moment>,
    last: Option<Moment>,
}

impl Model for Span {
    ghost use Rattle.charging_book.specs.Rows.{Moments};

    ghost Value = { Moments };

    ghost view = { λ span. record { first = span.first; last = span.last } };

    ghost inverse = { λ moments. record { first = moments.first; last = moments.last } };
}

impl Span {
    ghost use Rattle.std.specs.Prelude.{◌≡◌};
    ghost use Rattle.charging_book.specs.Counters.{no_moments, with_moment};
    ghost use Rattle.charging_book.specs.Parts.{moments_in};

    pub(super) fn new() -> Span
        ensures { result ≡ no_moments }
    {
        Span {
            first: None,
            last: None,
        }
    }

    pub(super) fn of(piece: &Piece) -> Span
        ensures { result ≡ moments_in piece.now }
    {
        Span {
            first: piece.first,
            last: piece.last,
        }
    }

    pub(super) fn with(&self, at: Moment) -> Span
        ensures { result ≡ with_moment self.now at }
    {
        Span {
            first: Some(self.first.unwrap_or(at)),
            last: Some(at),
        }
    }
}

impl Model for ChargeRow {
    ghost use Rattle.std.specs.Prelude.{◌^◌, ◌≤◌};
    ghost use Rattle.charging_book.specs.Rows.{Charged};

    ghost Value = { Charged };

    ghost view = { λ row. record {
      life = row.life;
      ebi = row.ebi;
      qci = row.qci;
      seq = row.seq;
      up_octets = row.up_octets;
      down_octets = row.down_octets;
      up_packets = row.up_packets;
      down_packets = row.down_packets;
      first = row.first;
      last = row.last;
      why = row.why;
    } };

    ghost invariant = { λ row. (row.life ≤ 2 ^ 61) × (row.seq ≤ 2 ^ 61)
        × (row.up_packets ≤ 2 ^ 61) × (row.down_packets ≤ 2 ^ 61) };

    ghost inverse = { λ charged. record {
      life = charged.life;
      ebi = charged.ebi;
      qci = charged.qci;
      seq = charged.seq;
      up_octets = charged.up_octets;
      down_octets = charged.down_octets;
      up_packets = charged.up_packets;
      down_packets = charged.down_packets;
      first = charged.first;
      last = charged.last;
      why = charged.why;
    } };
}

impl ChargeRow {
    ghost use Rattle.std.specs.Prelude.{◌≡◌};
    ghost use Rattle.charging_book.specs.Counters.{row_from};

    pub(super) fn new(counted: &Open, span: &Span, why: Why) -> ChargeRow
        ensures { result ≡ row_from counted.now span.now why }
    {
        ChargeRow {
            life: counted.life,
            ebi: counted.ebi,
            qci: counted.qci,
            seq: counted.seq,
            up_octets: counted.up_octets,
            down_octets: counted.down_octets,
            up_packets: counted.up_packets,
            down_packets: counted.down_packets,
            first: span.first,
            last: span.last,
            why,
        }
    }
}
