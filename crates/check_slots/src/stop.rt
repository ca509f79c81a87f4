//! Why a line has no answer.
use std::alloc::AllocError;

/// Why a line has no answer.
#[derive(Clone, Copy, Debug)]
pub enum EventStop {
    /// It is no event.
    Line,
    /// The plain gateway and the running counters say two things.
    Differ,
    NoMemory,
}

impl EventStop {
    pub fn word(self) -> &'static str {
        match self {
            EventStop::Line => "no event",
            EventStop::Differ => "two answers",
            EventStop::NoMemory => "no memory",
        }
    }
}

impl From<AllocError> for EventStop {
    fn from(_error: AllocError) -> EventStop {
        EventStop::NoMemory
    }
}
