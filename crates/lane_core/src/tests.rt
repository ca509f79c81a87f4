//! A lane between two threads.
ghost use Rattle.std.specs.Prelude.{◌≡◌, ◌<◌, [], ◌∷◌, ◌++◌, ◌^◌, length};
ghost use Rattle.lane_core.specs.Ends.{sender_lane, receiver_lane, sent};

use crate::{Carried, Full, Receiver, Sender, close, lane};
use std::process::Abort;
use std::sync::Wait;
use std::test::Fail;
use std::thread;

#[derive(Debug, Drop, PartialEq, Eq)]
struct Parcel(u32);

impl Carried for Parcel {}

/// How many parcels go from one thread to another, the last three of which are left to `close`.
const PARCELS: u32 = 100_000;

const TAKEN: u32 = 99_997;

#[test]
fn through_two_threads(rt: HostRuntime) -> Result<(), Fail> {
    let (tx, rx) = lane(rt.alloc(), 4)?;
    let (tx, rx) = thread::join(
        &rt,
        move || -> Sender<Parcel>
            requires { sent tx ≡ [] }
            ensures { sender_lane result ≡ sender_lane tx }
        { send_numbers(&rt, tx, PARCELS) },
        move || -> Receiver<Parcel>
            ensures { receiver_lane result ≡ receiver_lane rx }
        { take_numbers(&rt, rx, TAKEN) },
    );
    assert_eq!(rt; tx.offers(), u64::from(PARCELS));
    let Ok(rest) = close(&rt, rt.alloc(), tx, rx) else {
        return Err("memory".into());
    };
    assert_eq!(rt;
        rest.as_slice(),
        [Parcel(99_997), Parcel(99_998), Parcel(99_999)].as_slice()
    );
    Ok(())
}

// Sends the numbers below a count, each as often as it takes.
fn send_numbers<R: Wait>(rt: &R, mut tx: Sender<Parcel>, count: u32) -> Sender<Parcel>
    requires { sent tx ≡ [] }
    ensures lane { sender_lane result ≡ sender_lane tx }
    ensures sent { length (sent result) ≡ count }
{
    for n in 0..count {
        tx = sent_at_last(rt, tx, Parcel(n));
    }
    tx
}

fn sent_at_last<R: Wait>(rt: &R, mut tx: Sender<Parcel>, parcel: Parcel) -> Sender<Parcel>
    requires { length (sent tx) < 2 ^ 50 }
    ensures lane { sender_lane result ≡ sender_lane tx }
    ensures sent { sent result ≡ sent tx ++ parcel ∷ [] }
{
    let mut parcel = parcel;
    for _ in rt.forever() {
        match tx.offer(rt, parcel) {
            Ok(()) => return tx,
            Err(Full(back)) => parcel = back,
        }
        thread::yield_now();
    }
    unreachable!()
}

// Takes parcels until it has the numbers below a count, in order.
fn take_numbers<R: Wait + Abort>(rt: &R, mut rx: Receiver<Parcel>, count: u32) -> Receiver<Parcel>
    ensures { receiver_lane result ≡ receiver_lane rx }
{
    let mut next = 0;
    for _ in rt.forever() {
        if next >= count {
            return rx;
        }
        match rx.take(rt) {
            Some(parcel) => {
                assert_eq!(rt; parcel, Parcel(next));
                next += 1;
            }
            None => thread::yield_now(),
        }
    }
    unreachable!()
}
