//! What tells a half from each other one.
use crate::{Batch, CommandItem};
use bearer_state::{Session, Version};
use lane_core::{Receiver, Sender};
use std::marker::Model;
use std::snapshot::Snapshot;

/// The name of a half: the session and the count of commands that its subscriber had when it was
/// split, and its two lanes. No value of it is made.
pub struct ControlName {
    session: Snapshot<Session>,
    number: u64,
    commands: Snapshot<Receiver<CommandItem>>,
    versions: Snapshot<Sender<Batch<Version>>>,
}

impl Model for ControlName {
    ghost use Rattle.lane_core.specs.Ends.{sender_lane, receiver_lane};
    ghost use Rattle.control_half.specs.Named.{Named};

    ghost Value = { Named };

    ghost view = { λ name. record {
      session = name.session.value;
      number = name.number;
      commands = receiver_lane name.commands.value;
      versions = sender_lane name.versions.value;
    } };
}
