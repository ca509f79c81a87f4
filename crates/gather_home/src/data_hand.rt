//! What a homecoming took from lanes and workers.
use worker_core::{DataKind, DataOrder};

/// Halves and items that are found, and those of the slice whose lanes were closed last.
#[derive(Drop)]
pub struct Hand<H: DataKind> {
    pub found: Vec<H>,
    /// By slot, the items that are found, in order.
    pub lefts: Vec<Vec<H::Item>>,
    /// An item that comes behind those of its slot.
    pub item: Option<H::Item>,
    /// Orders that no worker took, the first one last. Their items come behind that one.
    pub left: Vec<DataOrder<H>>,
    /// Halves that a worker held, or that were in its lane home.
    pub held: Vec<H>,
    /// A half that waited to go home.
    pub waiting: Option<H>,
}
