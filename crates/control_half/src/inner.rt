//! What a control half holds beside its slot.
ghost use Rattle.std.specs.Prelude.{◌+◌, ◌≤◌, ◌++◌, length, option_to_list};
ghost use Rattle.lane_core.specs.Ends.{sent, taken};
ghost use Rattle.control_half.specs.Applied.{before_head, KeepsNext, in_due, JoinsBatch, HasRoomFor};
ghost use Rattle.control_half.specs.Controlled.{HasApplied};
ghost use Rattle.control_half.specs.Published.{in_batches, in_kept};

use crate::controller::Controller;
use crate::{AsSplit, Batch, CommandItem};
use bearer_state::{Session, Version};
use lane_core::{Receiver, Sender};

/// The session of a subscriber, its commands on their way in, and its versions on their way out.
#[derive(Drop)]
pub struct ControlInner {
    /// The session as it was when the subscriber was split, after so many commands.
    pub(crate) started: AsSplit<Session>,
    pub(crate) first: u64,
    pub(crate) control: Controller,
    /// How often the subscriber had moved when this half was last sent to a slice.
    pub(crate) hop: u64,
    /// A command that was taken and isn't applied yet.
    pub(crate) head: Option<CommandItem>,
    /// The last command was applied under this floor, and its version is still to be made.
    pub(crate) due: Option<u64>,
    /// Versions that aren't sent yet.
    pub(crate) batch: Option<Batch<Version>>,
    pub(crate) commands: Receiver<CommandItem>,
    pub(crate) versions: Sender<Batch<Version>>,
    pub(crate) turns: u64,
    pub(crate) works: u64,
    pub ghost in_order: { KeepsNext head (taken commands) },
    pub ghost applies: { HasApplied first started (before_head head (taken commands))
        control.session control.number control.notes.items
        (in_batches (sent versions) ++ (in_kept batch ++ in_due due control.session control.number)) },
    ghost joins: { JoinsBatch due batch },
    ghost sparse: { first
        + (length (sent versions) + (length (option_to_list batch) + length (option_to_list due))) ≤ control.number },
    ghost roomy: { HasRoomFor started first },
}
