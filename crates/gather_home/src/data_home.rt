//! A half that came home.
use worker_core::DataKind;

/// A half, and the items that were accepted for it and that it didn't handle, in order.
#[derive(Drop)]
pub struct Home<H: DataKind> {
    pub half: H,
    pub left: Vec<H::Item>,
}
