//! How a lane is made.
ghost use Rattle.std.specs.Prelude.{◌≡◌, ◌≤◌, IfOk};
ghost use Rattle.lane_core.specs.Ends.{sender_lane, receiver_lane, AreNewEnds};

use crate::sequence::{Line, Parted};
use crate::{Carried, NoMemory, Receiver, Sender};
use std::alloc::Global;
use std::sync::Arc;

/// A new lane, of 1 to 65,536 places. All its memory is taken here.
pub fn lane<T: Carried>(alloc: Global, room: u32) -> Result<(Sender<T>, Receiver<T>), NoMemory>
    requires { (1 ≤ room) × (room ≤ 65536) }

    // Both are ends of one lane, which has this room.
    ensures lane { IfOk result (λ ends. sender_lane ends.0 ≡ receiver_lane ends.1) }
    ensures room { IfOk result (λ ends. (sender_lane ends.0).room ≡ room) }

    // Nothing was sent or taken yet, and no offer or take refused.
    ensures new { IfOk result (λ ends. AreNewEnds ends.0 ends.1) }
{
    let (queue, mut pass) = Line::<T>::ruled(alloc, room as usize)?;
    let theirs = queue.another::<Parted>(&mut pass);
    let queue = Arc::new(alloc, queue)?;
    let tx = Sender {
        queue: Arc::try_clone(&queue)?,
        pass,
        offers: 0,
        fulls: 0,
    };
    let rx = Receiver {
        queue,
        pass: theirs,
        takes: 0,
        empties: 0,
    };
    Ok((tx, rx))
}
