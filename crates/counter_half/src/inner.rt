//! What a data half holds beside its slot.
ghost use Rattle.std.specs.Prelude.{◌≡◌, ◌≤◌, ◌^◌, ◌++◌, length};
ghost use Rattle.lane_core.specs.Ends.{taken};
ghost use Rattle.control_half.specs.Published.{in_batches, in_kept};
ghost use Rattle.counter_half.specs.Kept.{kept_count};
ghost use Rattle.counter_half.specs.Learnt.{learnt_in};

use crate::half_state::HalfState;
use bearer_state::Version;
use control_half::Batch;
use lane_core::Receiver;

/// What the half knows and noted, and its versions on their way in.
#[derive(Drop)]
pub struct DataInner<'p> {
    pub(crate) state: HalfState<'p>,
    /// A batch that was taken and isn't learnt, or not whole.
    pub(crate) batch: Option<Batch<Version>>,
    pub(crate) versions: Receiver<Batch<Version>>,
    pub(crate) asks: u64,
    pub(crate) learns: u64,
    pub ghost in_order: { in_batches (taken versions) ≡ learnt_in state.learnt.items ++ in_kept batch },
    ghost came: { kept_count batch ≤ length (taken versions) },
    pub ghost few: { (state.started.version.number ≤ 2 ^ 60) × (state.started.packets ≤ 2 ^ 60) },
}
