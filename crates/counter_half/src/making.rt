//! How a half is made, and what is left of it.
ghost use Rattle.std.specs.Prelude.{◌≡◌, ◌≤◌, ◌^◌, [], ◌++◌, IfOk, IfErr};
ghost use Rattle.lane_core.specs.Ends.{receiver_lane, taken};
ghost use Rattle.control_half.specs.Published.{in_batches, in_kept};
ghost use Rattle.counter_half.specs.Learnt.{learnt_in};
ghost use Rattle.counter_half.specs.Named.{started};

use crate::half::DataHalf;
use crate::half_state::HalfState;
use crate::inner::DataInner;
use crate::start::Start;
use bearer_state::{Session, Version};
use control_half::Batch;
use lane_core::Receiver;
use packet_steps::Counters;
use worker_core::Log;

/// What is left of a half that is turned no more.
#[derive(Drop)]
pub struct DataRest<'p> {
    pub state: HalfState<'p>,
    pub batch: Option<Batch<Version>>,
    pub versions: Receiver<Batch<Version>>,
    pub ghost in_order: { in_batches (taken versions) ≡ learnt_in state.learnt.items ++ in_kept batch },
    pub ghost few: { (state.started.version.number ≤ 2 ^ 60) × (state.started.packets ≤ 2 ^ 60) },
}

impl<'p> DataHalf<'p> {
    ghost use Rattle.counter_half.specs.Half.{name_of, rest_name, handled_by};

    /// The half of a subscriber with a session, version, counters and count of packets, and with its
    /// end of a new lane. Version and counters come back when out of memory.
    pub fn new(
        session: &Session,
        version: Version,
        counters: Counters,
        packets: u64,
        versions: Receiver<Batch<Version>>,
    ) -> Result<DataHalf<'p>, (Version, Counters)>
        requires few { (version.number ≤ 2 ^ 60) × (packets ≤ 2 ^ 60) }
        requires new { taken versions ≡ [] }

        ensures name { IfOk result (λ half. name_of half ≡ record {
          started = started session.now version counters packets;
          versions = receiver_lane versions;
        }) }
        ensures handled { IfOk result (λ half. handled_by half ≡ []) }
        ensures version { IfOk result (λ half. half.inner.value.state.version ≡ version) }
        ensures counters { IfOk result (λ half. half.inner.value.state.counters ≡ counters) }
        ensures back { IfErr result (λ back. (back.0 ≡ version) × (back.1 ≡ counters)) }
    {
        let slot = session.slot;
        let alloc = session.bearers.allocator();
        let inner = DataInner::start(session, version, counters, packets, versions);
        match Box::new(alloc, inner) {
            Ok(inner) => Ok(DataHalf { slot, inner }),
            Err(failed) => Err(parts_of(failed.value)),
        }
    }

    /// Takes the half apart.
    pub fn into_rest(self) -> DataRest<'p>
        ensures name { rest_name result ≡ name_of self.entry }
        ensures state { result.state ≡ self.entry.inner.value.state }
    {
        let DataInner {
            state,
            batch,
            versions,
            ..
        } = Box::into_inner(self.inner);
        DataRest {
            state,
            batch,
            versions,
        }
    }
}

/// The version and the counters that are held.
fn parts_of(inner: DataInner<'_>) -> (Version, Counters)
    ensures { (result.0 ≡ inner.entry.state.version) × (result.1 ≡ inner.entry.state.counters) }
{
    let DataInner { state, .. } = inner;
    let HalfState {
        version,
        counters,
        ..
    } = state;
    (version, counters)
}

impl<'p> DataInner<'p> {
    ghost use Rattle.counter_half.specs.Half.{inner_name, inner_handled};

    /// What a new half holds.
    fn start(
        session: &Session,
        version: Version,
        counters: Counters,
        packets: u64,
        versions: Receiver<Batch<Version>>,
    ) -> DataInner<'p>
        requires few { (version.number ≤ 2 ^ 60) × (packets ≤ 2 ^ 60) }
        requires new { taken versions ≡ [] }
        ensures name { inner_name result ≡ record {
          started = started session.now version counters packets;
          versions = receiver_lane versions;
        } }
        ensures handled { inner_handled result ≡ [] }
        ensures version { result.state.version ≡ version }
        ensures counters { result.state.counters ≡ counters }
    {
        let alloc = session.bearers.allocator();
        let started = Start::of(session, &version, &counters, packets);
        let met = version.number;
        DataInner {
            state: HalfState {
                started,
                version,
                counters,
                met,
                done: packets,
                notes: Vec::new(alloc),
                effects: Vec::new(alloc),
                learnt: Log::new(),
                handled: Log::new(),
            },
            batch: None,
            versions,
            asks: 0,
            learns: 0,
        }
    }
}
