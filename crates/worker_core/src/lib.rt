//! Workers, which hold halves of subscribers that travel between slices and turn them one after another. A half
//! comes by an order, and goes home when it is told to leave and has done what it is to do before. What a half does
//! in its turn is left to the half. A `Worker` has control halves, each with lanes of its own; a `DataWorker` data
//! halves, and one lane carries all that goes to a slice: halves that arrive, items for them, and orders to leave.
//! An item always finds its half. By a `Post` a front and the thread that turns workers tell each other when to
//! look or stop, and who sleeps. Beside them what any side of a front does at the desks of its workers, and any
//! homecoming with a lane home.
#![tactic(auto)]

mod attended;
mod by_slot;
mod closing;
mod data_finding;
mod data_half;
mod data_order;
mod data_pairing;
mod data_serving;
mod data_worker;
mod desks;
mod home_lane;
mod log;
mod order;
mod pairing;
mod post;
mod seen;
mod traveller;
mod turning;
mod worker;

pub use attended::Attended;
pub use by_slot::{grow, widen};
pub use closing::close_home;
pub use data_half::{DataKind, DataTraveller};
pub use data_order::DataOrder;
pub use data_pairing::{DataDesk, data_pair};
pub use data_worker::{DataEnd, DataWorker};
pub use desks::{Desk, LaneDesk, offer, take_home};
pub use home_lane::HomeLane;
pub use log::Log;
pub use order::Order;
pub use pairing::pair;
pub use post::{Post, have_rested, mark_all, posts_of, stop_all, wake_all};
pub use seen::Seen;
pub use std::alloc::AllocError as NoMemory;
pub use traveller::Traveller;
pub use worker::{Worker, WorkerEnd};
