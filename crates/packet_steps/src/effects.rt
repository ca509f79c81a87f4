//! What a new version does beside the answer to its command.
use pc_base::{Effect, Items};

/// Effects in their order. Seen as their list.
pub type Effects = Items<Effect>;
