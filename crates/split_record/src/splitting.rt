//! A subscriber is split.
ghost use Rattle.std.specs.Prelude.{◌≡◌, ◌≤◌, IfOk, IfErr};
ghost use Rattle.subscriber.specs.Standing.{HasRoom};
ghost use Rattle.split_record.specs.Rejoined.{IsSplit};

use crate::FrontEnd;
use control_half::ControlHalf;
use counter_half::{DataHalf, DataRest, HalfState};
use lane_core::lane;
use std::alloc::Global;
use std::snapshot::Snapshot;
use subscriber::Subscriber;

/// Splits a subscriber into its front end and its two halves, with lanes of this room for commands and
/// for versions. When out of memory it comes back.
pub fn split<'p>(
    alloc: Global,
    subscriber: Subscriber,
    room: u32,
    hop: u64,
) -> Result<(FrontEnd, ControlHalf, DataHalf<'p>), Subscriber>
    requires room { (1 ≤ room) × (room ≤ 256) }
    requires few { HasRoom subscriber }
    ensures ok { IfOk result (λ halves. IsSplit subscriber room hop halves.0 halves.1 halves.2) }
    ensures err { IfErr result (λ back. back ≡ subscriber) }
{
    let Ok((lane_in, commands)) = lane(alloc, room) else {
        return Err(subscriber);
    };
    let Ok((published, versions)) = lane(alloc, room) else {
        return Err(subscriber);
    };
    let started = Snapshot::of(&subscriber);
    let Subscriber {
        session,
        version,
        counters,
        packets,
        destination,
    } = subscriber;
    let slot = session.slot;
    let number = version.number;
    let data_half = match DataHalf::new(&session, version, counters, packets, versions) {
        Ok(data_half) => data_half,
        Err((version, counters)) => {
            return Err(Subscriber {
                session,
                version,
                counters,
                packets,
                destination,
            });
        }
    };
    match ControlHalf::new(session, number, hop, commands, published) {
        Ok(control) => {
            let front = FrontEnd {
                slot,
                started,
                destination,
                lane: lane_in,
                commands: number,
                packets,
                hop,
                packets_before: packets,
                commands_before: number,
            };
            Ok((front, control, data_half))
        }
        Err(session) => {
            let DataRest { state, .. } = data_half.into_rest();
            let HalfState {
                version,
                counters,
                ..
            } = state;
            Err(Subscriber {
                session,
                version,
                counters,
                packets,
                destination,
            })
        }
    }
}
