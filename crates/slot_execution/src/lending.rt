//! A verdict whose octets are lent from where its packet lies.
ghost use Rattle.std.specs.Prelude.{◌≡◌};
ghost use Rattle.ipv4_packet.specs.Packet.{IsPacket};
ghost use Rattle.packet_steps.specs.Lent.{verdict_of};
ghost use Rattle.report_lines.specs.Lent.{IsShort};
ghost use Rattle.slot_execution.specs.Lending.{verdict_with};

use packet_steps::LentVerdict;

/// The verdict with these octets in place of those that it has, if any.
pub fn lend_again<'a>(judged: LentVerdict<'_>, octets: &'a [u8]) -> LentVerdict<'a>
    ensures verdict { verdict_of result ≡ verdict_with judged.entry octets.now }
    ensures short { IsPacket octets.now → IsShort result }
{
    match judged {
        LentVerdict::Up { life, octets: _ } => LentVerdict::Up { life, octets },
        LentVerdict::Down {
            life,
            peer,
            octets: _,
        } => LentVerdict::Down { life, peer, octets },
        LentVerdict::NoBearer => LentVerdict::NoBearer,
        LentVerdict::Spoof => LentVerdict::Spoof,
        LentVerdict::Idle { life } => LentVerdict::Idle { life },
        LentVerdict::Held { life, message } => LentVerdict::Held { life, message },
        LentVerdict::Policed { life } => LentVerdict::Policed { life },
    }
}
