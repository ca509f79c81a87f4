//! What the one-thread gateway says of every past, and what follows for a subscriber.
ghost use Rattle.gate_model.specs.Versions.{SessionsAreOfCommands, VersionsAreOfCommands};
ghost use Rattle.gate_model.specs.Versions.{CommandsAreLearnt, PacketsAreJudged, SessionsKeepTheirSlot};
ghost use Rattle.gate_model.specs.Few.{FewEventsAreFew, FewCommandsFollow};
ghost use Rattle.subscriber.specs.Standing.{FewEventsLeaveRoom};
ghost use Rattle.subscriber.specs.Fitting.{RepresentedPartsFit};

use gate_model::{
    each_version_follows, events_bound_counts, few_events_are_few, sessions_are_of_commands,
    sessions_keep_their_slot,
};

/// The laws that a subscriber's steps rest on.
pub(crate) fn known_pasts()
    ensures sessions { SessionsAreOfCommands }
    ensures versions { VersionsAreOfCommands }
    ensures learnt { CommandsAreLearnt }
    ensures judged { PacketsAreJudged }
    ensures charged { FewEventsAreFew }
    ensures follows { FewCommandsFollow }
    ensures slot { SessionsKeepTheirSlot }
{
    sessions_are_of_commands();
    each_version_follows();
    few_events_are_few();
    sessions_keep_their_slot();
}

/// Where a subscriber represents fewer than 2^40 events, its counts may rise.
pub fn few_events_leave_room()
    ensures { FewEventsLeaveRoom }
{
    events_bound_counts();
}

/// The parts of a subscriber that represents events fit its version: counters are made of them again.
pub fn represented_parts_fit()
    ensures { RepresentedPartsFit }
{
    few_events_are_few();
}
