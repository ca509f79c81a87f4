//! Which workers have a turn behind each line.

/// The turns behind each line, which worker 2i of control and worker 2i + 1 of data of slice i have.
#[derive(Drop)]
pub enum Turns {
    /// The same ones behind each line.
    List(Vec<u32>),
    /// So many that a generator draws, whose state goes on from line to line and from epoch to epoch.
    Drawn { state: u64, per: u32 },
}
