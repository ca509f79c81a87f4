//! What becomes of a subscriber's packets by one version of its session: which are forwarded, held or
//! refused, and what a new version brings (TS 23.401, in this gateway's profile). Running counters
//! answer as the subscriber's whole past would. How versions come about is left to others.
#![tactic(auto)]

mod advancing;
mod changing;
mod counters;
mod effects;
mod forwarded;
mod handling;
mod held;
mod judging;
mod lent;
mod messages;
mod meters;
mod parts;
mod plan;
mod releasing;
mod stepping;

pub use advancing::advance;
pub use changing::{bearer_of, markers, marks};
pub use counters::Counters;
pub use effects::Effects;
pub use forwarded::{Forwarded, same_way};
pub use handling::{handle, judge};
pub use held::{HeldPacket, copies_of};
pub use judging::MOST_HELD;
pub use lent::LentVerdict;
pub use messages::{gpdu, notification};
pub use parts::{CountersParts, parts_represent_the_same};
pub use std::alloc::AllocError as NoMemory;
