//! The command `save`: a trace is answered as by the sequential gateway, and the subscribers that it leaves at rest are
//! written, as the text of their state. No report is written. What a trace behind the state leads to is left to the
//! crates above.
#![tactic(auto)]

mod keeping;
mod known;
mod run;
mod saver;

pub use run::save;
