//! Why a trace has no report.
use std::alloc::AllocError as NoMemory;

/// Why a trace has no report.
#[derive(Clone, Copy)]
pub enum RowStop {
    /// A row, or a line, isn't one.
    Row,
    NoMemory,
}

impl From<NoMemory> for RowStop {
    fn from(_: NoMemory) -> RowStop {
        RowStop::NoMemory
    }
}
