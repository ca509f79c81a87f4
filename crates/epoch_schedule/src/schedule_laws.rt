//! Rows of the schedule, worked by hand, and what holds of every schedule.
ghost use Rattle.epoch_schedule.specs.Fits.{EachSlotFits, EachPacketIsHandled};
ghost use Rattle.epoch_schedule.specs.Tallies.{EachOutcomeIsDue};
ghost use Rattle.epoch_schedule.specs.Rows.{
  ParkedOnTheWay,
  PlacesOfTurns,
  MovesInARow,
  FullRoom,
  TwoCommandsOneBatch,
  ParkingQueueFull,
  SliceLaneFull,
  NewerWait,
  SeventeenCommands,
  WaitsForCommands,
  NineOrders,
  SeventeenBatches,
  TwoHalvesLeave,
  NextHalfWorks,
  FullOrders,
  FullHome,
};

/// What becomes of sixteen short traces under their turns.
pub fn worked_rows()
    ensures parked_on_the_way { ParkedOnTheWay }
    ensures places_of_turns { PlacesOfTurns }
    ensures moves_in_a_row { MovesInARow }
    ensures full_room { FullRoom }
    ensures two_commands_one_batch { TwoCommandsOneBatch }
    ensures parking_queue_full { ParkingQueueFull }
    ensures slice_lane_full { SliceLaneFull }
    ensures newer_wait { NewerWait }
    ensures seventeen_commands { SeventeenCommands }
    ensures waits_for_commands { WaitsForCommands }
    ensures nine_orders { NineOrders }
    ensures seventeen_batches { SeventeenBatches }
    ensures two_halves_leave { TwoHalvesLeave }
    ensures next_half_works { NextHalfWorks }
    ensures full_orders { FullOrders }
    ensures full_home { FullHome }
{}

/// Whatever the turns, the numbers of each slot are right behind each line, and all packets that were accepted
/// are handled behind the epoch: once each and in order, behind at least the commands that they wait for, and
/// behind none that waits for a later packet.
pub fn every_schedule_fits()
    ensures fits { EachSlotFits }
    ensures handled { EachPacketIsHandled }
{}

/// Whatever the turns, nothing is refused and no packet parked but for a reason that the lines tell: a command is
/// refused where as many commands of its slot were accepted as may wait, a packet where a slice's lane is full or,
/// behind a move, its slot's queue; and a packet is parked behind a move, before those that aren't.
pub fn every_outcome_is_due()
    ensures { EachOutcomeIsDue }
{}
