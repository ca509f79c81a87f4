//! The answer to a command.
ghost use Rattle.std.specs.Prelude.{◌≡◌, IfOk};

use crate::{NoMemory, Octets};

/// What became of a command.
#[derive(Clone, Copy, Debug, PartialEq, Eq)]
pub enum Outcome {
    Done,
    /// Refused; nothing else changed.
    No,
    /// The repeat of an answered request.
    Again,
}

/// The answer to a command, with the GTPv2-C message that goes to the MME, if one does.
#[derive(Clone, Debug, Drop, PartialEq, Eq)]
pub struct Reply {
    pub outcome: Outcome,
    pub message: Option<Octets>,
}

impl Reply {
    /// A copy of the answer.
    pub fn try_clone(&self) -> Result<Reply, NoMemory>
        ensures { IfOk result (λ copy. copy ≡ self.now) }
    {
        self.clone()
    }
}
