//! A post of a thread.
ghost use Rattle.std.specs.Prelude.{◌≡◌, vec_len, IfOk};

use crate::NoMemory;
use crossbeam_utils::CachePadded;
use std::alloc::Global;
use std::sync::Wait;
use std::sync::atomic::{AtomicBool, AtomicU64, Ordering};
use std::thread::Parker;

// How many rounds without work show that a thread has seen what it was last sent: one may have begun before that.
const RESTED: u64 = 2;

/// What one thread and the front tell each other. Words that different threads write have cache lines of their own.
#[derive(Drop)]
pub struct Post {
    /// Whether the thread is to stop.
    stop: CachePadded<AtomicBool>,
    /// How many of its rounds found nothing to do.
    idle: CachePadded<AtomicU64>,
    /// What the front last found there.
    marked: CachePadded<AtomicU64>,
    /// Whether the thread sleeps, or will behind one round more.
    sleeps: CachePadded<AtomicBool>,
    bed: CachePadded<Parker>,
}

impl Post {
    /// The thread isn't to stop, and had no round yet.
    pub const fn new() -> Post {
        Post {
            stop: CachePadded::new(AtomicBool::new(false)),
            idle: CachePadded::new(AtomicU64::new(0)),
            marked: CachePadded::new(AtomicU64::new(0)),
            sleeps: CachePadded::new(AtomicBool::new(false)),
            bed: CachePadded::new(Parker::new()),
        }
    }

    /// The thread is to stop before its next round.
    pub fn stop(&self) {
        self.stop.store(true, Ordering::SeqCst);
        self.wake();
    }

    pub fn is_stopped(&self) -> bool {
        self.stop.load(Ordering::SeqCst)
    }

    /// Notes a round that found nothing to do.
    pub fn note_idle(&self) {
        let _before = self.idle.fetch_add(1, Ordering::SeqCst);
    }

    /// Behind a round that came to nothing, and so many such before it in a row, the thread says that it will sleep and
    /// looks once more; then it sleeps until it is woken. It tells how many such rounds there were since.
    pub fn rest<R: Wait>(&self, rt: &R, quiet: u32) -> u32 {
        if quiet == 0 {
            self.sleeps.store(true, Ordering::SeqCst);
            return 1;
        }
        self.bed.park(rt);
        self.sleeps.store(false, Ordering::SeqCst);
        0
    }

    /// Behind a round that came to something the thread doesn't sleep.
    pub fn rise(&self, quiet: u32) {
        if quiet > 0 {
            self.sleeps.store(false, Ordering::SeqCst);
        }
    }

    /// Wakes the thread, if it sleeps.
    pub fn wake(&self) {
        if self.sleeps.load(Ordering::SeqCst) {
            self.sleeps.store(false, Ordering::SeqCst);
            self.bed.unpark();
        }
    }

    fn mark(&self) {
        self.marked
            .store(self.idle.load(Ordering::SeqCst), Ordering::SeqCst);
    }

    fn has_rested(&self) -> bool {
        let idle = self.idle.load(Ordering::SeqCst);
        let since = idle.wrapping_sub(self.marked.load(Ordering::SeqCst));
        since >= RESTED || self.is_stopped()
    }
}

/// So many posts, of threads that aren't to stop.
pub fn posts_of(alloc: Global, many: usize) -> Result<Vec<Post>, NoMemory>
    ensures { IfOk result (λ posts. vec_len posts ≡ many) }
{
    let mut posts = Vec::with_capacity(alloc, many)?;
    for _ in 0..many {
        posts.push_reserved(Post::new());
    }
    Ok(posts)
}

/// Tells each thread to stop before its next round.
pub fn stop_all(posts: &[Post]) {
    for post in posts {
        post.stop();
    }
}

/// Wakes each thread that sleeps.
pub fn wake_all(posts: &[Post]) {
    for post in posts {
        post.wake();
    }
}

/// Marks the rounds of each thread, for `have_rested`.
pub fn mark_all(posts: &[Post]) {
    for post in posts {
        post.mark();
    }
}

/// Whether each thread had two rounds without work since `mark_all`, or stopped. Then it has come to all that it was
/// sent or told before. Nothing is proved of it, and nothing may rest on it but how long the front waits.
pub fn have_rested(posts: &[Post]) -> bool {
    posts.iter().all(|post| post.has_rested())
}
