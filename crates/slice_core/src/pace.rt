//! How patiently an epoch is run.

/// How often a line whose queue or lane is full is tried again before it is refused, and how often the front pumps
/// behind the last line, so that the slices get on before they are stopped.
#[derive(Clone, Copy)]
pub struct Pace {
    pub patience: u32,
    pub linger: u32,
}
