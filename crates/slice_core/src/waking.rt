//! When the threads of slices are woken while lines are taken.
use pc_base::SliceNo;
use worker_core::Post;

// How many slices there are at most.
const SLICES: usize = 64;

// A slice that sleeps is woken once so many lines were for it, or as many as fill a quarter of its lane, if these are
// fewer: what came meanwhile it does in one go.
const BATCH: u32 = 256;

// Behind so many lines each slice that there was one for is woken.
const LINES: u32 = 1024;

/// How many lines there were for each slice since it was woken, and how many since all were.
#[derive(Clone, Copy)]
pub(crate) struct Waking {
    lines: [u32; SLICES],
    batch: u32,
    since: u32,
}

impl Waking {
    /// No line was taken; a slice's lane has so many places.
    pub(crate) fn new(lane: u32) -> Waking {
        Waking {
            lines: [0; SLICES],
            batch: (lane / 4).min(BATCH),
            since: 0,
        }
    }

    /// Notes a line, and for which slice it was, and wakes whom it is time to: that slice, or all.
    pub(crate) fn note(&mut self, posts: &[Post], slice: Option<SliceNo>) {
        if let Some(slice) = slice {
            note_for(&mut self.lines, self.batch, posts, slice.0 as usize);
        }
        if self.since >= LINES {
            self.wake(posts);
        }
        self.since = self.since.saturating_add(1);
    }

    /// Wakes each slice that there was a line for.
    pub(crate) fn wake(&mut self, posts: &[Post]) {
        for (place, post) in posts.iter().enumerate() {
            if take(&mut self.lines, place) {
                post.wake();
            }
        }
        self.since = 0;
    }

    /// How many lines were taken since all were woken.
    pub(crate) fn since(&self) -> u32 {
        self.since
    }
}

// Notes a line for a slice, which is woken behind so many.
fn note_for(lines: &mut [u32], batch: u32, posts: &[Post], place: usize) {
    if place >= lines.len() || place >= posts.len() {
        return;
    }
    if lines[place] < batch {
        lines[place] += 1;
        return;
    }
    lines[place] = 0;
    posts[place].wake();
}

// Whether there was a line for a slice; then there was none since.
fn take(lines: &mut [u32], place: usize) -> bool {
    if place >= lines.len() {
        return false;
    }
    let some = lines[place] > 0;
    lines[place] = 0;
    some
}
