//! The front's own thread: it takes the lines of an epoch.
ghost use Rattle.std.specs.Prelude.{◌+◌, ◌≤◌, ◌^◌, length, IfOk};
ghost use Rattle.front_core.specs.Words.{IsWhole, latest_in, lines_in};
ghost use Rattle.at_rest.specs.Coming.{AreLater};
ghost use Rattle.slice_core.specs.Lines.{TakesAll, Pumps};

use crate::served::Posts;
use crate::waking::Waking;
use crate::{Calls, NoMemory};
use front_core::{Front, Took};
use pc_base::SliceNo;
use std::sync::Wait;
use std::{slice, thread};
use trace_lines::TraceLine;
use worker_core::{Post, have_rested, mark_all};

// Where more halves are on their way than these, workers are let go first.
const CROWD: usize = 32;

// One line in so many is taken behind a pump: what comes home meanwhile comes in one go.
const PUMPED: u32 = 16;

/// Takes each line, each sixteenth behind a pump, and calls the half that one was sent to. Behind a line that was
/// refused other threads may go first, and also while many halves are on their way; the next line then is behind a
/// pump. Out of memory the front is given up.
pub(crate) fn take_lines<'p, R: Wait>(
    rt: &R,
    mut front: Front<'p>,
    lines: &'p [TraceLine],
    patience: u32,
    posts: &Posts,
) -> Result<Front<'p>, NoMemory>
    requires whole { IsWhole front }
    requires few { lines_in front + length lines.now ≤ 2 ^ 39 }
    requires later { AreLater (latest_in front) lines.now }

    ensures { IfOk result (λ now. TakesAll (patience + 1) lines.now front.entry now) }
{
    front.expect(lines.len())?;
    let mut waking = Waking::new(front.lane());
    for line in lines {
        pump_if(rt, &mut front, waking.since().is_multiple_of(PUMPED));
        let took = front.line_at_once(rt, line, patience, posts.slices.as_slice())?;
        call(rt, &front, posts.calls.as_slice());
        let crowded = took == Took::Full || front.on_their_way() > CROWD;
        let_go(
            posts.slices.as_slice(),
            &mut waking,
            front.last_slice(),
            crowded,
        );
    }
    Ok(front)
}

// Pumps, where it is time to.
fn pump_if<R: Wait>(rt: &R, front: &mut Front<'_>, due: bool)
    ensures { Pumps front.old front.new }
{
    if due {
        front.pump(rt);
    }
}

// Calls the control half that the last line was sent to, at the slice where it is.
fn call<R: Wait>(rt: &R, front: &Front<'_>, calls: &[Calls]) {
    if let Some((slice, slot)) = front.called() {
        if let Some(theirs) = calls.get(slice.0 as usize) {
            theirs.call(rt, slot);
        }
    }
}

// Behind a line for a slice: where there is a crowd, those that there was a line for are woken, and other threads go
// first; else whom it is time to wake.
fn let_go(posts: &[Post], waking: &mut Waking, slice: Option<SliceNo>, crowded: bool) {
    waking.note(posts, slice);
    if crowded {
        waking.wake(posts);
        thread::yield_now();
    }
}

/// Pumps at most so many times, until all workers have rested, and then until they have once more, as halves of one may
/// have waited for those of another.
pub(crate) fn linger_on<R: Wait>(rt: &R, front: &mut Front<'_>, posts: &Posts, linger: u32)
    ensures { Pumps front.old front.new }
{
    let left = linger_for(rt, front, posts.slices.as_slice(), linger);
    let _left = linger_for(rt, front, posts.slices.as_slice(), left);
}

// Pumps at most so many times, until no half is on its way and these workers have rested. Behind each other threads may
// go first, and those are woken that haven't rested; all are where a half may have been sent on. Tells how many times
// are left.
fn linger_for<R: Wait>(rt: &R, front: &mut Front<'_>, posts: &[Post], linger: u32) -> u32
    ensures { Pumps front.old front.new }
{
    mark_all(posts);
    for times in 0..linger {
        let moving = front.on_their_way();
        if moving == 0 && have_rested(posts) {
            return linger - times;
        }
        front.pump(rt);
        wake_for(posts, front.on_their_way() != moving);
        thread::yield_now();
    }
    0
}

// Wakes all threads that sleep, or those that haven't rested.
fn wake_for(posts: &[Post], all: bool) {
    for post in posts {
        let rested = have_rested(slice::from_ref(post));
        if all || !rested {
            post.wake();
        }
    }
}
