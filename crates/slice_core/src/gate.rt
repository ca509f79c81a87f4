//! Where the threads of slices may be made to meet.
use pc_base::SliceNo;

/// What the thread of a slice passes once in each epoch, before it first looks at its post. A test can hold them
/// there until all have come.
pub trait Gate: Sync {
    fn meet(&self, slice: SliceNo);
}

/// Holds none.
#[derive(Clone, Copy)]
pub struct OpenGate;

impl Gate for OpenGate {
    fn meet(&self, _slice: SliceNo) {}
}
