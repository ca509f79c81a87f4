//! A session, its commands' count, and what they were answered.
ghost use Rattle.std.specs.Prelude.{◌≡◌, ◌+◌, ◌<◌, ◌≤◌, ◌^◌, [], ◌∷◌, ◌++◌, IfOk, OnOk, OnErr};
ghost use Rattle.bearer_state.specs.Session.{HasRoom};
ghost use Rattle.bearer_state.specs.Version.{version_of};
ghost use Rattle.control_half.specs.Controlled.{stepped, replied};

use crate::{CommandDone, CommandItem, NoMemory};
use bearer_state::{Session, Version};
use control_steps::step;
use std::alloc::Global;

/// A session to which commands are applied: how many the subscriber had, and what was answered here.
#[derive(Debug, Drop)]
pub struct Controller {
    pub session: Session,
    pub number: u64,
    pub notes: Vec<CommandDone>,
}

impl Controller {
    /// Applies a command, and notes its reply. Out of memory, nothing changes.
    pub fn apply(&mut self, item: &CommandItem) -> Result<(), NoMemory>
        requires room { HasRoom self.old.session }
        requires few { self.old.number < 2 ^ 61 }

        ensures session { OnOk result (self.new.session ≡ stepped self.old.session item.now) }
        ensures number { OnOk result (self.new.number ≡ self.old.number + 1) }
        ensures notes { OnOk result (self.new.notes.items
            ≡ self.old.notes.items ++ replied self.old.number self.old.session item.now ∷ []) }
        ensures kept { OnErr result ((self.new.session ≡ self.old.session) × (self.new.number ≡ self.old.number)
            × (self.new.notes.items ≡ self.old.notes.items)) }
    {
        let alloc = *self.notes.allocator();
        self.notes.reserve(1)?;
        let reply = step(alloc, &mut self.session, item.command.command())?;
        self.notes.push_reserved(CommandDone {
            line: item.line,
            number: self.number,
            reply,
        });
        self.number += 1;
        Ok(())
    }

    /// The version that the last command left.
    pub fn version(&self) -> Result<Version, NoMemory>
        requires { self.now.number ≤ 2 ^ 61 }
        ensures { IfOk result (λ version. version ≡ version_of self.now.session self.now.number) }
    {
        self.session.version(self.number)
    }
}
