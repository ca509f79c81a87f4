//! A subscriber's session with its bearers (TS 23.401, 4.7 and 5.3), and the version of it that its
//! packets go by. Each type keeps its ranges, and each change of a session keeps them whole.
//! Which command asks for which change, and what is answered, is left to the layer above.
#![tactic(auto)]

mod ask;
mod bearer;
mod bearers;
mod changes;
mod kept;
mod qos;
mod ranges;
mod session;
mod version;

pub use ask::{Ask, Asks};
pub use bearer::{Bearer, Phase};
pub use bearers::Bearers;
pub use kept::Kept;
pub use qos::{Qos, is_guaranteed};
pub use session::Session;
pub use std::alloc::AllocError as NoMemory;
pub use version::{ActiveBearer, Version};
