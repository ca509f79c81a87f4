//! A gate at which the threads of two slices wait for each other.
use pc_base::SliceNo;
use slice_core::Gate;
use std::sync::atomic::{AtomicBool, Ordering};
use std::thread;

// How often a thread looks whether the other one has come, at most.
const MOST_LOOKS: u32 = 10_000_000;

/// Of a slice: whether its thread came, and whether it saw that the other one had.
#[derive(Drop)]
pub struct Comer {
    came: AtomicBool,
    saw: AtomicBool,
}

/// The gate of slices 0 and 1. Threads that run one after another don't meet: the first has left before the second
/// comes.
#[derive(Drop)]
pub struct Meeting {
    first: Comer,
    second: Comer,
}

impl Meeting {
    /// None came yet.
    pub fn new() -> Meeting {
        Meeting {
            first: Comer::new(),
            second: Comer::new(),
        }
    }

    /// Whether each saw the other.
    pub fn met(&self) -> bool {
        self.first.saw.load(Ordering::SeqCst) && self.second.saw.load(Ordering::SeqCst)
    }
}

impl Comer {
    fn new() -> Comer {
        Comer {
            came: AtomicBool::new(false),
            saw: AtomicBool::new(false),
        }
    }

    fn wait_for(&self, other: &Comer) {
        self.came.store(true, Ordering::SeqCst);
        for _ in 0..MOST_LOOKS {
            if other.came.load(Ordering::SeqCst) {
                self.saw.store(true, Ordering::SeqCst);
                return;
            }
            thread::yield_now();
        }
    }
}

impl Gate for Meeting {
    fn meet(&self, slice: SliceNo) {
        if slice.0 == 0 {
            self.first.wait_for(&self.second);
        } else {
            self.second.wait_for(&self.first);
        }
    }
}
