//! The schedule of an epoch as a world of numbers, and in code: which lines are taken, refused and parked under a
//! list of turns, and how many commands each packet meets, and where.
//!
//! ```
//! use epoch_schedule::{every_outcome_is_due, every_schedule_fits, worked_rows};
//!
//! fn main(rt: HostRuntime) {
//!     assert_eq!(rt; (every_schedule_fits(), every_outcome_is_due(), worked_rows()), ((), (), ()));
//! }
//! ```
#![tactic(auto)]

mod ask;
mod busy;
mod copying;
mod floors;
mod front;
mod grow;
mod halves;
mod homes;
mod met;
mod passing;
mod planning;
mod pumping;
mod roster;
mod schedule_laws;
mod setup;
mod sides;
mod slot;
mod standing;
mod turning;
mod turns;
mod waiting;
mod workers;
mod world;

pub use ask::{LineAsk, Rooms};
pub use met::{LineOutcome, Met};
pub use planning::{Scheduled, schedule};
pub use schedule_laws::{every_outcome_is_due, every_schedule_fits, worked_rows};
pub use turns::Turns;
