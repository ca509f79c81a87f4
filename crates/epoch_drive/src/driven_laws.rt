//! Laws of driven epochs and runs.
ghost use Rattle.epoch_drive.specs.Driven.{OneIsDriven, EachScheduleIsDriven, DrivenEpochsAreLawful};
ghost use Rattle.epoch_drive.specs.Noted.{NoteIsDriven};
ghost use Rattle.epoch_drive.specs.Runs.{OneRunIsDriven, EachRunIsDriven, DrivenRunsAreLawful, EpochsGoOn};

/// A schedule leaves no choice: two epochs of the same lines under the same turns are equal, and so are two runs.
pub fn one_is_driven()
    ensures epoch { OneIsDriven }
    ensures run { OneRunIsDriven }
{}

/// Each schedule has an epoch, whatever its lines mean, and a run.
pub fn each_schedule_is_driven()
    ensures epoch { EachScheduleIsDriven }
    ensures run { EachRunIsDriven }
{}

/// Whatever the turns, an epoch under them is a lawful one: the counts of commands that its packets meet rise, and lie
/// within their bounds, lines are refused only where a queue or lane could be full, and packets parked only behind
/// moves and before those that aren't.
pub fn driven_epochs_are_lawful()
    ensures { DrivenEpochsAreLawful }
{}

/// So is a run, in which each slot begins an epoch bound for where its last move sent it.
pub fn driven_runs_are_lawful()
    ensures { DrivenRunsAreLawful }
{}

/// Turns and destinations go on from epoch to epoch.
pub fn epochs_go_on()
    ensures { EpochsGoOn }
{}

/// Where a line can't be read, its note stands behind the lines of its epoch, and no turns behind it. It changes
/// nothing that is told of them.
pub fn a_note_is_driven()
    ensures { NoteIsDriven }
{}
