//! The sequential gateway, on one thread: each line is answered before the next; and the command `solo`, which
//! tells its report. It is said twice, by the lines before and by its book and what its subscribers hold, so a
//! gateway may also go on behind a saved state (`Resumer`). And the law of `save` and `resume`: a trace that is cut
//! behind whole epochs, saved and resumed, has the report of the whole; it holds of any gateway that answers by
//! what its subscribers hold. Words and statuses are left to pepc.
#![tactic(auto)]

mod entry_text;
mod gateway_laws;
mod gathered;
mod resume_laws;
mod resumer;
mod run;
mod solo;

pub use gateway_laws::{lines_go_on, pieces_fit_in_order};
pub use resume_laws::{resumed_goes_on, resumed_runs_go_on, states_are_told};
pub use resumer::Resumer;
pub use run::run_solo;
pub use solo::Solo;
