//! A trace that goes on behind its saved state.
ghost use Rattle.solo_command.specs.Law.{ResumedReportsGoOn, ResumedRunsGoOn, ResumedTextsGoOn};
ghost use Rattle.solo_command.specs.Resumes.{StatesAreOne, StatesAreToldExactly};

use record_codec::{lines_say_one_state, texts_say_their_states};

/// What is resumed behind the state of whole epochs goes on as the whole does.
pub fn resumed_goes_on()
    ensures reports { ResumedReportsGoOn }
    ensures texts { ResumedTextsGoOn }
{}

/// The status of `resume` says exactly whether its input begins with a state; and there is one, or none.
pub fn states_are_told()
    ensures exactly { StatesAreToldExactly }
    ensures one { StatesAreOne }
{
    lines_say_one_state();
}

/// The same of a run of `resume` that tells all of its report: what it reads is the saved state of the first part, and
/// the second behind it.
pub fn resumed_runs_go_on()
    ensures { ResumedRunsGoOn }
{
    texts_say_their_states();
    lines_say_one_state();
    resumed_goes_on();
}
