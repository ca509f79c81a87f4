//! The halves of a subscriber finish what is left, and are one again.
ghost use Rattle.std.specs.Prelude.{◌≡◌, ◌++◌, length, IfOk, IfErr};
ghost use Rattle.counter_half.specs.Half.{handled_by, places_of};
ghost use Rattle.counter_half.specs.Handled.{places_in};
ghost use Rattle.split_record.specs.Rejoined.{AreOfOneSplit, AreAccepted, Finishes, start_of, commands_sent};
ghost use Rattle.subscriber.specs.Standing.{commands_met};
ghost use Rattle.split_record.specs.Finishing.{AllMeetBehind, handled_as, counts_told};
ghost use Rattle.split_record.specs.Parts.{IsOf};
ghost use Rattle.split_record.specs.Places.{at_closing};

use crate::{FrontEnd, RecordParts};
use charging_book::ChargeRow;
use control_half::{CommandDone, ControlHalf};
use counter_half::{DataHalf, DataItem, PacketDone, VersionDone};
use std::alloc::Global;
use std::sync::Wait;
use subscriber::Subscriber;

/// A subscriber that is one record again, and what became of the commands and packets since its split.
#[derive(Drop)]
pub struct Finished<'p> {
    pub record: Subscriber,
    /// The replies to its commands, in their order.
    pub commands: Vec<CommandDone>,
    /// The verdicts on its packets, in their order.
    pub packets: Vec<PacketDone<'p>>,
    /// The effects of each command.
    pub effects: Vec<VersionDone>,
    /// The charging records that were made.
    pub rows: Vec<ChargeRow>,
}

/// Does what the halves of a subscriber have left to do, with the packets that were accepted and that no
/// one handled, and makes them one record. The three come from one split. The items that the data half
/// handled and those that are left are those that the front end counted, in order, and their moments don't
/// fall. Those that are left are handled at the end of an epoch (`Place::Closing`). Out of memory, all is
/// handed back.
pub fn finish<'p, R: Wait>(
    rt: &R,
    alloc: Global,
    front: FrontEnd,
    control: ControlHalf,
    data_half: DataHalf<'p>,
    left: Vec<DataItem<'p>>,
) -> Result<Finished<'p>, RecordParts<'p>>
    requires one { AreOfOneSplit front control data_half }
    requires accepted { AreAccepted front (handled_by data_half ++ left.items) }

    ensures finished { IfOk result (λ made. Finishes (start_of front) (commands_sent front)
        (handled_by data_half.entry ++ left.entry.items) front.destination made) }
    ensures placed { IfOk result (λ made. places_in made.packets.items
        ≡ places_of data_half.entry ++ at_closing left.entry.items) }

    // A packet that was left has each command before it that the floors allow.
    ensures met { IfOk result (λ made. AllMeetBehind (length (handled_by data_half.entry))
        (commands_met (start_of front)) (commands_sent front)
        (handled_as (handled_by data_half.entry ++ left.entry.items) (counts_told made.packets.items))) }

    ensures parts { IfErr result (λ parts. IsOf parts front data_half.entry left.entry.items) }
{
    RecordParts::new(alloc, front, control, data_half, left).again(rt)
}
