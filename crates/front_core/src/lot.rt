//! What the front has of a slot.
ghost use Rattle.std.specs.Prelude.{◌≡◌, ◌<◌, true, Some, None, length, is_some, OnOk, IfErr};
ghost use Rattle.front_core.specs.declared.lot.Lot.TheVariants.{Split};
ghost use Rattle.front_core.specs.Lots.{
  IsSplit,
  LotAccepts,
  LotMoves,
  lot_moved,
  LotRefuses,
  LotSends,
  MayAccept,
  MayMoveLot,
  MaySend,
  MakesItem,
  commands_at,
  end_of,
};

use control_half::BoxedCommand;
use counter_half::{DataItem, SentPacket};
use lane_core::Full;
use split_record::FrontEnd;
use std::sync::Wait;

/// A slot that a line of the epoch was about: its subscriber rests and moved, or is split.
#[derive(Drop)]
pub enum Lot {
    Moved,
    Split(FrontEnd),
}

/// Whether the subscriber is split.
pub fn is_split(lot: &Option<Lot>) -> bool
    ensures { result ≡ is_some (end_of lot.now) }
{
    match lot {
        Some(Lot::Split(_)) => true,
        Some(Lot::Moved) => false,
        None => false,
    }
}

/// Whether the subscriber rests and moved.
pub fn has_moved(lot: &Option<Lot>) -> bool
    ensures { result ≡ lot_moved lot.now }
{
    match lot {
        Some(Lot::Split(_)) => false,
        Some(Lot::Moved) => true,
        None => false,
    }
}

/// The subscriber moves; where it is split, the count of its commands before.
pub fn move_on(lot: &mut Option<Lot>) -> Option<u64>
    requires { MayMoveLot lot.old }
    ensures moves { LotMoves lot.old lot.new }
    ensures split { is_some (end_of lot.old) ≡ is_some result }
    ensures commands { result ≡ commands_at lot.old }
{
    match lot {
        Some(Lot::Split(end)) => {
            end.moved();
            Some(end.commands())
        }
        _ => {
            *lot = Some(Lot::Moved);
            None
        }
    }
}

/// Offers a command of a split subscriber.
pub fn send<R: Wait>(
    rt: &R,
    lot: &mut Option<Lot>,
    line: u64,
    command: BoxedCommand,
) -> Result<(), Full<BoxedCommand>>
    requires { MaySend lot.old }
    ensures sent { OnOk result (LotSends line command lot.old lot.new) }
    ensures full { IfErr result (λ full. (full.0 ≡ command) × LotRefuses lot.old lot.new) }
{
    match lot {
        Some(Lot::Split(end)) => end.give_command(rt, line, command),
        Some(Lot::Moved) => unreachable!(),
        None => unreachable!(),
    }
}

/// The item of a packet of a split subscriber.
pub fn item_of<'p>(lot: &Option<Lot>, line: u64, packet: SentPacket<'p>) -> DataItem<'p>
    requires { IsSplit lot.now }
    ensures { MakesItem line packet.entry lot.now result }
{
    match lot {
        Some(Lot::Split(end)) => end.packet_item(line, packet),
        Some(Lot::Moved) => unreachable!(),
        None => unreachable!(),
    }
}

/// Counts a packet of a split subscriber, which was accepted.
pub fn accept(lot: &mut Option<Lot>)
    requires { MayAccept lot.old }
    ensures { LotAccepts lot.old lot.new }
{
    match lot {
        Some(Lot::Split(end)) => end.accepted(),
        Some(Lot::Moved) => unreachable!(),
        None => unreachable!(),
    }
}
