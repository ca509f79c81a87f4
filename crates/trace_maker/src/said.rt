//! What a line says, by the few numbers that make it.
ghost use Rattle.std.specs.Prelude.{◌≡◌, ◌<◌, ◌≤◌, IfOk};
ghost use Rattle.trace_lines.specs.Beside.{with_octets};
ghost use Rattle.trace_maker.specs.Generated.{line_drawn};
ghost use Rattle.trace_maker.specs.Said.{IsSaid, digit, imsi_of, kind_of};

use crate::draws::Draws;
use crate::packets::{push_downlink, push_uplink};
use pc_base::{Addr4, Imsi, Kbps, NoMemory, Peer, SliceNo, Slot, Teid};
use std::alloc::Global;
use text_fields::Text;
use trace_lines::LineKind;

/// What a line says of the subscriber of a slot.
#[derive(Clone, Copy)]
pub enum Said {
    Attach { slot: Slot },
    /// A packet of so many octets, from the subscriber.
    Up { slot: Slot, len: u16 },
    /// .. to the subscriber.
    Down { slot: Slot, len: u16 },
    /// One rate for both ways.
    Rates { slot: Slot, rate: u32 },
    Move { slot: Slot, slice: u8 },
}

// Draws a line of one of so many subscribers.
pub(crate) fn draw_line(draws: &mut Draws, subscribers: u32) -> Said
    requires some { 0 < subscribers }
    requires most { subscribers ≤ 65533 }

    ensures drawn { line_drawn subscribers draws.old ≡ record { said = result; state = draws.new } }
    ensures ranges { IsSaid result }
{
    let slot = Slot(draws.draw(subscribers));
    let choice = draws.draw(16);
    let len = 20 + draws.draw(181) as u16;
    if choice < 8 {
        Said::Up { slot, len }
    } else if choice < 14 {
        Said::Down { slot, len }
    } else if choice == 14 {
        let rate = 1000 * (1 + draws.draw(100));
        Said::Rates { slot, rate }
    } else {
        let slice = draws.draw(2) as u8;
        Said::Move { slot, slice }
    }
}

// The same as a line of a trace says it, and the octets beside it.
pub(crate) fn kind_of(alloc: Global, said: Said) -> Result<(LineKind, Text), NoMemory>
    requires { IsSaid said }
    ensures { IfOk result (λ kind. with_octets kind.0 kind.1 ≡ kind_of said) }
{
    match said {
        Said::Attach { slot } => {
            let kind = LineKind::Attach {
                imsi: imsi_of(slot),
                enb: Peer {
                    teid: Teid(slot.0 + 1),
                    addr: Addr4(0xc633_6401),
                },
                up: Kbps(100_000),
                down: Kbps(100_000),
            };
            Ok((kind, Text::new(alloc)))
        }
        Said::Up { slot, len } => {
            let mut octets = Vec::new(alloc);
            push_uplink(&mut octets, slot, len)?;
            Ok((LineKind::S1u, Text::of(octets)))
        }
        Said::Down { slot, len } => {
            let mut octets = Vec::new(alloc);
            push_downlink(&mut octets, slot, len)?;
            Ok((LineKind::Sgi, Text::of(octets)))
        }
        Said::Rates { slot, rate } => {
            let kind = LineKind::Ambr {
                imsi: imsi_of(slot),
                up: Kbps(u64::from(rate)),
                down: Kbps(u64::from(rate)),
            };
            Ok((kind, Text::new(alloc)))
        }
        Said::Move { slot, slice } => {
            let kind = LineKind::Move {
                imsi: imsi_of(slot),
                slice: SliceNo(slice),
            };
            Ok((kind, Text::new(alloc)))
        }
    }
}

fn imsi_of(slot: Slot) -> Imsi
    ensures { result ≡ imsi_of slot }
{
    let digits = digits_of(slot);
    match Imsi::of(&digits) {
        Some(imsi) => imsi,
        None => unreachable!(),
    }
}

fn digits_of(slot: Slot) -> [u8; 15]
    ensures { result ≡ imsi_of slot }
{
    [
        b'0',
        b'0',
        b'1',
        b'0',
        b'1',
        digit(slot, 1_000_000_000),
        digit(slot, 100_000_000),
        digit(slot, 10_000_000),
        digit(slot, 1_000_000),
        digit(slot, 100_000),
        digit(slot, 10_000),
        digit(slot, 1_000),
        digit(slot, 100),
        digit(slot, 10),
        digit(slot, 1),
    ]
}

fn digit(slot: Slot, power: u32) -> u8
    requires { 0 < power }
    ensures { result ≡ digit slot power }
{
    b'0' + (slot.0 / power % 10) as u8
}
