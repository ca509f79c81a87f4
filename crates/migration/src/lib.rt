//! The sides of the front: which half is at the front, which slice has it, and which one it is bound for. A side
//! admits halves, moves them between the workers of its desks by orders, and takes home what comes back. `Side` is
//! that of control halves; `DataSide` that of data halves, which also sends items after them. Who decides on a
//! move, and what a half does, is left to others.
#![tactic(auto)]

mod data_due;
mod data_leavers;
mod data_place;
mod data_side;
mod data_steps;
mod place;
mod side;
mod steps;

pub use data_place::{DataNo, DataPlace, DataState, UnexpectedHalf};
pub use data_side::{DataSide, DataSideEnd};
pub use place::{ControlPlace, ControlState};
pub use side::{Side, SideEnd};
