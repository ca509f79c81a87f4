//! A lane home that is not closed yet.
ghost use Rattle.std.specs.Prelude.{◌≡◌};
ghost use Rattle.lane_core.specs.Ends.{sender_lane, receiver_lane};

use lane_core::{Carried, Receiver, Sender};

/// Both ends of a lane home.
#[derive(Drop)]
pub struct HomeLane<H: Carried> {
    pub tx: Sender<H>,
    pub rx: Receiver<H>,
    pub ghost one: { sender_lane tx ≡ receiver_lane rx },
}
