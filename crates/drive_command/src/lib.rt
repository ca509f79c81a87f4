//! A run of `drive`: lines are kept until their epoch ends, then driven under the schedule, and the epoch's text is
//! written in one piece; behind the last one stand the open counters.
#![tactic(auto)]

mod drive_laws;
mod driver;
mod epochs;
mod telling;

pub use drive_laws::driven_reports_are_lawful;
pub use driver::Driver;
