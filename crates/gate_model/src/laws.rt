//! What holds of every past of a slot.
ghost use Rattle.gate_model.specs.Versions.{SessionsAreOfCommands, VersionsAreOfCommands, EachVersionFollows};
ghost use Rattle.gate_model.specs.Versions.{OpenLivesAreActive, CommandsAreLearnt, PacketsAreJudged};
ghost use Rattle.gate_model.specs.Versions.{SessionsKeepTheirSlot};
ghost use Rattle.gate_model.specs.Rates.{LivesArePoliced, SharesArePoliced};
ghost use Rattle.gate_model.specs.Holding.{EachHeldPacketOnce};
ghost use Rattle.gate_model.specs.Ledger.{ForwardedIsTold, EachPacketInOnePiece, RecordsAreAdded};
ghost use Rattle.gate_model.specs.Room.{FewEventsLeaveRoom, EventsBoundCounts};
ghost use Rattle.gate_model.specs.Few.{FewEventsAreFew, FewCommandsFollow, AtMostSixteenAreHeld};

/// A session depends on the commands alone, and packets go by its version under their number.
pub fn sessions_are_of_commands()
    ensures sessions { SessionsAreOfCommands }
    ensures versions { VersionsAreOfCommands }
{}

/// No event changes a session's slot.
pub fn sessions_keep_their_slot()
    ensures { SessionsKeepTheirSlot }
{}

/// The version that a command leaves may follow on the past before it, so that running counters that
/// represent the past before an event represent the past behind it.
pub fn each_version_follows()
    ensures follows { EachVersionFollows }
    ensures opened { OpenLivesAreActive }
    ensures learnt { CommandsAreLearnt }
    ensures judged { PacketsAreJudged }
{}

/// What was forwarded for a life with a guaranteed rate conforms to it as a whole, each way, and so does what
/// was forwarded for the others while the AMBR stood. So no window of time passes more.
pub fn rates_are_kept()
    ensures lives { LivesArePoliced }
    ensures shares { SharesArePoliced }
{}

/// A packet that was held once has one fate, or is held still.
pub fn each_held_packet_once()
    ensures { EachHeldPacketOnce }
{}

/// The exact ledger: what verdicts and fates tell as forwarded is remembered so, each packet of it
/// stands in one piece of its life, and records are never taken back.
pub fn each_packet_in_one_piece()
    ensures told { ForwardedIsTold }
    ensures pieces { EachPacketInOnePiece }
    ensures added { RecordsAreAdded }
{}

/// Where few events came (fewer than 2^40), the counts may rise.
pub fn few_events_leave_room()
    ensures { FewEventsLeaveRoom }
{}

/// Each count is at most that of the events.
pub fn events_bound_counts()
    ensures { EventsBoundCounts }
{}

/// Behind fewer than 2^52 events every count of what is charged may rise, and the version that one command
/// more leaves follows on the past. At most sixteen packets are held.
pub fn few_events_are_few()
    ensures charged { FewEventsAreFew }
    ensures follows { FewCommandsFollow }
    ensures held { AtMostSixteenAreHeld }
{}
