//! What the one-thread gateway says of every past.
ghost use Rattle.gate_model.specs.Versions.{SessionsAreOfCommands, VersionsAreOfCommands, OpenLivesAreActive};
ghost use Rattle.gate_model.specs.Versions.{CommandsAreLearnt, PacketsAreJudged};

use gate_model::{each_version_follows, sessions_are_of_commands};

/// The laws that bringing halves together rests on.
pub(crate) fn known_pasts()
    ensures sessions { SessionsAreOfCommands }
    ensures versions { VersionsAreOfCommands }
    ensures opened { OpenLivesAreActive }
    ensures learnt { CommandsAreLearnt }
    ensures judged { PacketsAreJudged }
{
    sessions_are_of_commands();
    each_version_follows();
}
