//! The rule under which the two ends of a lane share its queue.
ghost use Rattle.std.specs.Prelude.{◌≡◌, ◌≤◌, ◌^◌, true, false, [], ◌∷◌, ◌++◌, length};
ghost use Rattle.lane_core.specs.Sequence.{log, Laid, Lawful};

use crate::Carried;
use crossbeam_queue::RuledArrayQueue;
use crossbeam_queue::protocol::{Join, Lesson, Outcome, Protocol, Split};
use std::collections::LinkedList;

/// What an end knows: whether it may push and pop, what it sent and what it took. No value of it is
/// made.
pub struct EndLog<T> {
    pub pushes: bool,
    pub pops: bool,
    pub sent: LinkedList<T>,
    pub got: LinkedList<T>,
}

pub struct InOrder;

impl<T: Carried> Protocol<T, EndLog<T>> for InOrder {
    ghost holds = { Laid T.follows };

    ghost first = { log true true [] [] };
}

/// The queue of a lane.
pub type Line<T> = RuledArrayQueue<T, EndLog<T>, InOrder>;

/// One pass becomes that of the sender and that of the receiver.
pub struct Parted;

impl<T> Split<EndLog<T>> for Parted {
    ghost left = { λ v. log true false v.sent [] };

    ghost right = { λ v. log false true [] v.got };
}

/// The passes of sender and receiver become one.
pub struct Joined;

impl<T> Join<EndLog<T>> for Joined {
    ghost both = { λ v w. log true true v.sent w.got };

    ghost spent = { log false false [] [] };
}

/// A push. Where it fails, as many items as the queue held were sent.
pub struct Sends;

impl<T: Carried> Outcome<T, EndLog<T>> for Sends {
    ghost then = { λ v x w. (w ≡ log v.pushes v.pops (v.sent ++ x ∷ []) v.got)
        × Lawful T.follows (v.sent ++ x ∷ []) };
}

impl<T: Carried> Lesson<T, EndLog<T>> for Sends {
    ghost fact = { λ v items. (length items ≤ length v.sent) × Lawful T.follows v.sent };
}

/// A pop.
pub struct Takes;

impl<T: Carried> Outcome<T, EndLog<T>> for Takes {
    ghost then = { λ v x w. (w ≡ log v.pushes v.pops v.sent (v.got ++ x ∷ []))
        × Lawful T.follows (v.got ++ x ∷ [])
        × (length (v.got ++ x ∷ []) ≤ 2 ^ 50) };
}

impl<T: Carried> Lesson<T, EndLog<T>> for Takes {
    ghost fact = { λ v items. Lawful T.follows v.got };
}

/// A pop, or a look, of who has both lists.
pub struct Drains;

impl<T: Carried> Outcome<T, EndLog<T>> for Drains {
    ghost then = { λ v x w. (w ≡ log v.pushes v.pops v.sent (v.got ++ x ∷ []))
        × (length (v.got ++ x ∷ []) ≤ length v.sent) };
}

impl<T: Carried> Lesson<T, EndLog<T>> for Drains {
    ghost fact = { λ v items. (v.sent ≡ v.got ++ items) × Lawful T.follows v.sent };
}
