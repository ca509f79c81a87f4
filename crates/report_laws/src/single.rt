//! What `save` and `resume` write is one text.
ghost use Rattle.report_laws.specs.OneText.{OneResumedReport, OneResumedText, OneSavedText};

use solo_command::states_are_told;

/// Behind any state an input has one report, and runs of `resume` over one input that tell all of it write one text,
/// with one status.
pub fn one_resumed_report()
    ensures report { OneResumedReport }
    ensures text { OneResumedText }
{
    states_are_told();
}

/// The lines of a trace have one saved text.
pub fn one_saved_text()
    ensures { OneSavedText }
{}
