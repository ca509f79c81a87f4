//! Why nothing more is printed.
use std::alloc::{AllocError as NoMemory, AllocFailed};

/// Why the halves don't come home.
#[derive(Clone, Copy)]
pub enum ThreadStop {
    NoMemory,
    /// What was given came back.
    Back,
}

impl From<NoMemory> for ThreadStop {
    fn from(_: NoMemory) -> ThreadStop {
        ThreadStop::NoMemory
    }
}

impl<T: Drop> From<AllocFailed<T>> for ThreadStop {
    fn from(_refused: AllocFailed<T>) -> ThreadStop {
        ThreadStop::NoMemory
    }
}
