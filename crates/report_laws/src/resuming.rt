//! A trace that is cut, saved and resumed.
ghost use Rattle.report_laws.specs.Resuming.{CutRunsGoOn};

use solo_command::resumed_runs_go_on;

/// A trace may be cut behind a FENCE: what `solo` writes of the first part, without the open counters at its end, and
/// what `resume` writes of the state that `save` wrote of it, with the second part behind, is what `solo` writes of
/// both. Their statuses are the same.
pub fn cut_runs_go_on()
    ensures { CutRunsGoOn }
{
    resumed_runs_go_on();
}
