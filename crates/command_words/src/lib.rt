//! The words of the command line, read with clap. What they mean is a table over lists of words
//! (specs); how a job is done is left to the program.
#![tactic(auto)]

mod jobs;
mod program;
mod turns;
mod words;

pub use crate::jobs::{Job, Lanes};
pub use crate::turns::{AskedTurns, TurnList};
pub use crate::words::job;
