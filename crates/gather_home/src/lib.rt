//! The homecoming of halves: at the end of a run a side and its workers are taken apart, and each half that was
//! admitted is found, once, wherever it was; with data halves (`gather_data`) the accepted items that they didn't
//! handle, in order. Nothing is sent any more.
#![tactic(auto)]

mod data_hand;
mod data_home;
mod data_homecoming;
mod data_parts;
mod data_steps;
mod homecoming;
mod parts;
mod steps;

pub use data_home::Home;
pub use data_homecoming::gather_data;
pub use data_parts::DataParts;
pub use homecoming::gather;
pub use parts::HomeParts;
