ghost use Rattle.std.specs.Prelude.{◌≡◌, IfOk};
ghost use Rattle.trace_lines.specs.Kind.{Fence};

use pc_base::{Imsi, Kbps, Moment, Peer, SliceNo};
use std::alloc::{AllocError, Global};
use std::marker::Model;
use text_fields::Text;

/// What a line says, by its kind. The octets of a message or a template, at least one, stand beside it. Rates of a
/// session (`up`, `down`) are below 2^32 kbps, those of a bearer below 2^40, and EBIs 5 to 15.
#[derive(Clone, Copy, Debug, PartialEq, Eq)]
pub enum LineKind {
    /// `S11`: a GTPv2-C message of the MME.
    S11,
    /// `S1U`: a GTP-U message of an eNodeB.
    S1u,
    /// `SGI`: an IPv4 packet of the internet.
    Sgi,
    /// `ATTACH`: a subscriber's session with its first bearer, towards this eNodeB.
    Attach {
        imsi: Imsi,
        enb: Peer,
        up: Kbps,
        down: Kbps,
    },
    /// `BEARER`: one more bearer, of this QCI (1 to 255), with these rates (maximum, guaranteed) and
    /// a traffic flow template.
    Bearer {
        imsi: Imsi,
        qci: u8,
        mbr_up: Kbps,
        mbr_down: Kbps,
        gbr_up: Kbps,
        gbr_down: Kbps,
    },
    /// `FILTERS`: a change to the filters of the bearer of this EBI.
    Filters {
        imsi: Imsi,
        ebi: u8,
    },
    /// `DROP`: the bearer of this EBI is given up.
    Drop {
        imsi: Imsi,
        ebi: u8,
    },
    /// `AMBR`: other rates of the session.
    Ambr {
        imsi: Imsi,
        up: Kbps,
        down: Kbps,
    },
    /// `MOVE`: the subscriber goes to this slice.
    Move {
        imsi: Imsi,
        slice: SliceNo,
    },
    /// `FENCE`: the epoch ends here.
    Fence,
}

/// A line of a trace: its number, counted from 1, its moment, and what it says. It prints as its text, without a
/// newline. Many lines can be read into one, each in place of the one before: the memory of their octets is kept.
#[derive(Debug, Drop)]
pub struct TraceLine {
    pub number: u64,
    pub moment: Moment,
    pub kind: LineKind,

    /// Those of a message or a template; beside another kind they say nothing.
    pub octets: Text,
}

impl Model for TraceLine {
    ghost use Rattle.trace_lines.specs.Line.{Line, IsLine};
    ghost use Rattle.trace_lines.specs.Beside.{with_octets};

    ghost Value = { Line };

    ghost view = { λ line. record {
      number = line.number;
      moment = line.moment;
      kind = with_octets line.kind line.octets;
    } };

    ghost invariant = { λ line. IsLine (record {
      number = line.number;
      moment = line.moment;
      kind = with_octets line.kind line.octets;
    }) };
}

impl TraceLine {
    /// A line to read others into.
    pub fn new(alloc: Global) -> TraceLine
        ensures { result ≡ record { number = 0; moment = 0; kind = Fence } }
    {
        TraceLine {
            number: 0,
            moment: Moment(0),
            kind: LineKind::Fence,
            octets: Text::new(alloc),
        }
    }

    /// A copy that owns its octets.
    pub fn try_clone(&self) -> Result<TraceLine, AllocError>
        ensures { IfOk result (λ copy. copy ≡ self.now) }
    {
        Ok(TraceLine {
            number: self.number,
            moment: self.moment,
            kind: self.kind,
            octets: self.octets.try_clone()?,
        })
    }
}
