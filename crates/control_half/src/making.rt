//! How a half is made, and what is left of it.
ghost use Rattle.std.specs.Prelude.{◌≡◌, ◌≤◌, ◌^◌, [], ◌++◌, IfOk, IfErr};
ghost use Rattle.lane_core.specs.Ends.{sender_lane, receiver_lane, sent, taken};
ghost use Rattle.control_half.specs.Applied.{before_head, KeepsNext, in_due, HasRoomFor, JoinsBatch};
ghost use Rattle.control_half.specs.Controlled.{HasApplied};
ghost use Rattle.control_half.specs.Published.{in_batches, in_kept};

use crate::controller::Controller;
use crate::half::ControlHalf;
use crate::inner::ControlInner;
use crate::{AsSplit, Batch, CommandItem};
use bearer_state::{Session, Version};
use control_steps::counts_rise_by_one;
use lane_core::{Receiver, Sender};

/// What is left of a half that is turned no more.
#[derive(Drop)]
pub struct ControlEnd {
    pub started: AsSplit<Session>,
    pub first: u64,
    pub control: Controller,
    pub head: Option<CommandItem>,
    pub due: Option<u64>,
    pub batch: Option<Batch<Version>>,
    pub commands: Receiver<CommandItem>,
    pub versions: Sender<Batch<Version>>,
    pub ghost in_order: { KeepsNext head (taken commands) },
    pub ghost applies: { HasApplied first started (before_head head (taken commands))
        control.session control.number control.notes.items
        (in_batches (sent versions) ++ (in_kept batch ++ in_due due control.session control.number)) },
    pub ghost joins: { JoinsBatch due batch },
    pub ghost roomy: { HasRoomFor started first },
}

impl ControlHalf {
    ghost use Rattle.control_half.specs.Half.{name_of, end_name};

    /// The half of a subscriber with a session, after so many commands, and with its ends of two new
    /// lanes. At most 2^50 commands come on one. The session comes back when out of memory.
    pub fn new(
        session: Session,
        number: u64,
        hop: u64,
        commands: Receiver<CommandItem>,
        versions: Sender<Batch<Version>>,
    ) -> Result<ControlHalf, Session>
        requires room { (session.rates ≤ 2 ^ 60) × (session.lives ≤ 2 ^ 60) × (number ≤ 2 ^ 60) }
        requires new { (taken commands ≡ []) × (sent versions ≡ []) }

        ensures name { IfOk result (λ half. name_of half ≡ record {
          session = session;
          number = number;
          commands = receiver_lane commands;
          versions = sender_lane versions;
        }) }
        ensures hop { IfOk result (λ half. half.inner.value.hop ≡ hop) }
        ensures done { IfOk result (λ half. half.inner.value.control.number ≡ number) }
        ensures back { IfErr result (λ back. back ≡ session) }
    {
        let slot = session.slot;
        let alloc = session.bearers.allocator();
        let inner = ControlInner::start(session, number, hop, commands, versions);
        match Box::new(alloc, inner) {
            Ok(inner) => Ok(ControlHalf { slot, inner }),
            Err(failed) => Err(session_of(failed.value)),
        }
    }

    /// Takes the half apart.
    pub fn into_end(self) -> ControlEnd
        ensures name { end_name result ≡ name_of self }
    {
        let ControlInner {
            started,
            first,
            control,
            head,
            due,
            batch,
            commands,
            versions,
            ..
        } = Box::into_inner(self.inner);
        ControlEnd {
            started,
            first,
            control,
            head,
            due,
            batch,
            commands,
            versions,
        }
    }
}

/// The session that is held.
fn session_of(inner: ControlInner) -> Session
    ensures { result ≡ inner.control.session }
{
    let ControlInner { control, .. } = inner;
    let Controller { session, .. } = control;
    session
}

impl ControlInner {
    ghost use Rattle.control_half.specs.Half.{inner_name};

    /// What a new half holds.
    fn start(
        session: Session,
        number: u64,
        hop: u64,
        commands: Receiver<CommandItem>,
        versions: Sender<Batch<Version>>,
    ) -> ControlInner
        requires room { (session.rates ≤ 2 ^ 60) × (session.lives ≤ 2 ^ 60) × (number ≤ 2 ^ 60) }
        requires new { (taken commands ≡ []) × (sent versions ≡ []) }
        ensures name { inner_name result ≡ record {
          session = session;
          number = number;
          commands = receiver_lane commands;
          versions = sender_lane versions;
        } }
        ensures hop { result.hop ≡ hop }
        ensures session { result.control.session ≡ session }
        ensures done { result.control.number ≡ number }
    {
        counts_rise_by_one();
        let started = AsSplit::of(&session);
        let notes = Vec::new(session.bearers.allocator());
        ControlInner {
            started,
            first: number,
            control: Controller {
                session,
                number,
                notes,
            },
            hop,
            head: None,
            due: None,
            batch: None,
            commands,
            versions,
            turns: 0,
            works: 0,
        }
    }
}
