//! Why a line has no answer.
use std::alloc::{AllocError, AllocFailed};

/// Why a line has no answer.
#[derive(Clone, Copy, Debug)]
pub enum CallStop {
    /// It is no call.
    Line,
    /// Two calls that are to give the same give two things.
    Differ,
    NoMemory,
}

impl CallStop {
    pub fn word(self) -> &'static str {
        match self {
            CallStop::Line => "no call",
            CallStop::Differ => "two answers",
            CallStop::NoMemory => "no memory",
        }
    }
}

impl From<AllocError> for CallStop {
    fn from(_error: AllocError) -> CallStop {
        CallStop::NoMemory
    }
}

impl<T: Drop> From<AllocFailed<T>> for CallStop {
    fn from(_error: AllocFailed<T>) -> CallStop {
        CallStop::NoMemory
    }
}
