//! The version that packets go by, the running counters, and what was made of both.
ghost use Rattle.counter_half.specs.Handled.{HasHandled};
ghost use Rattle.counter_half.specs.Tells.{TellsLawfully};
ghost use Rattle.counter_half.specs.Learnt.{learnt_in};

use crate::start::Start;
use crate::{DataItem, PacketDone, VersionDone};
use bearer_state::Version;
use packet_steps::Counters;
use worker_core::Log;

/// What a data half knows, and what it noted, since its subscriber was split. What it learnt and what
/// it handled, in order, only proofs read.
#[derive(Drop)]
pub struct HalfState<'p> {
    /// What the subscriber was when it was split.
    pub(crate) started: Start,
    /// The version learnt last.
    pub version: Version,
    pub counters: Counters,
    /// How many commands of the subscriber were learnt, and how many of its packets handled.
    pub met: u64,
    pub done: u64,
    pub notes: Vec<PacketDone<'p>>,
    pub effects: Vec<VersionDone>,
    pub(crate) learnt: Log<Version, u64>,
    pub(crate) handled: Log<DataItem<'p>, u64>,
    pub ghost handles: { HasHandled started.version.number started.packets (learnt_in learnt.items)
        handled.items met done notes.items },
    pub ghost tells: { TellsLawfully started
        (learnt_in learnt.items) handled.items version counters notes.items effects.items },
}
