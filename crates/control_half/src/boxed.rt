//! A command behind one pointer.
use crate::NoMemory;
use control_steps::Command;
use std::alloc::Global;
use std::marker::Model;

/// A command behind one pointer, since a lane has a place for each item that it can hold. A contract sees the command.
#[derive(Debug, Drop)]
pub struct BoxedCommand {
    command: Box<Command>,
}

impl Model for BoxedCommand {
    ghost use Rattle.control_steps.specs.declared.command.CommandKind.{CommandKind};

    ghost Value = { CommandKind };

    ghost view = { λ boxed. boxed.command.value };
}

impl BoxedCommand {
    ghost use Rattle.std.specs.Prelude.{◌≡◌, IfOk};

    /// The command, behind a pointer.
    pub fn of(alloc: Global, command: Command) -> Result<BoxedCommand, NoMemory>
        ensures { IfOk result (λ boxed. boxed ≡ command) }
    {
        let command = Box::new(alloc, command)?;
        Ok(BoxedCommand { command })
    }

    /// The command.
    pub fn command(&self) -> &Command
        ensures { result.now ≡ self.now }
    {
        &self.command
    }
}
