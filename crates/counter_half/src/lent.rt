//! A packet where it lies in its line, and what became of it.
ghost use Rattle.std.specs.Prelude.{◌≡◌};
ghost use Rattle.packet_steps.specs.Lent.{verdict_of};
ghost use Rattle.report_lines.specs.Lent.{IsShort};
ghost use Rattle.slot_execution.specs.Lending.{HasOctets};

use ipv4_packet::Ip4;
use packet_steps::LentVerdict;
use pc_base::{Moment, Way};
use slot_execution::lend_again;
use std::marker::Model;

/// A packet of a subscriber, its octets lent by its line. A clause sees it as the packet that it is.
#[derive(Debug, Drop)]
pub struct SentPacket<'p> {
    /// Its place among the subscriber's packets.
    pub number: u64,
    pub moment: Moment,
    pub way: Way,
    pub ip: Ip4<'p>,
}

impl<'p> Model for SentPacket<'p> {
    ghost use Rattle.pc_base.specs.declared.packet.Packet.{Packet};

    ghost Value = { Packet };

    ghost view = { λ sent. record { number = sent.number; moment = sent.moment; way = sent.way; octets = sent.ip } };
}

/// What became of a packet, with its octets where its line has them. A clause sees it as the verdict that it is.
#[derive(Debug, Drop)]
pub struct ToldVerdict<'p> {
    lent: LentVerdict<'p>,
}

impl<'p> Model for ToldVerdict<'p> {
    ghost use Rattle.pc_base.specs.declared.packet.Verdict.{Verdict};
    ghost use Rattle.packet_steps.specs.Lent.{verdict_of};
    ghost use Rattle.report_lines.specs.Lent.{IsShort};

    ghost Value = { Verdict };

    ghost view = { λ verdict. verdict_of verdict.lent };

    ghost invariant = { λ verdict. IsShort verdict.lent };
}

impl<'p> ToldVerdict<'p> {
    ghost use Rattle.pc_base.specs.declared.packet.Verdict.TheVariants.{NoBearer};

    /// A verdict on this packet, its octets lent by the packet's line.
    pub(crate) fn of(judged: LentVerdict<'_>, ip: &Ip4<'p>) -> ToldVerdict<'p>
        requires { HasOctets judged ip.now }
        ensures { result ≡ verdict_of judged.entry }
    {
        ToldVerdict {
            lent: lend_again(judged, ip.octets()),
        }
    }

    /// That the subscriber has no such bearer.
    pub fn no_bearer() -> ToldVerdict<'p>
        ensures { result ≡ NoBearer }
    {
        ToldVerdict {
            lent: LentVerdict::NoBearer,
        }
    }

    /// The verdict, its octets lent.
    pub fn lent(&self) -> &LentVerdict<'p>
        ensures verdict { verdict_of result.now ≡ self.now }
        ensures short { IsShort result.now }
    {
        &self.lent
    }
}
