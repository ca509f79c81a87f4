//! What the events of a slot lead to.
use bumpalo::Bump;
use charging_book::ChargeRow;
use packet_steps::{Effects, LentVerdict};
use pc_base::{Place, Reply, Slot};
use std::alloc::{AllocError, Global};
use std::collections::VecDeque;

/// The reply to the slot's command of this number.
#[derive(Drop)]
pub struct NumberedReply {
    pub number: u64,
    pub reply: Reply,
}

/// The verdict on the slot's packet of this number, told to stand behind so many of its commands, and where it
/// was handled. Its octets lie in its line.
#[derive(Drop)]
pub struct NumberedVerdict<'a> {
    pub number: u64,
    pub commands: u64,
    pub place: Place,
    pub verdict: LentVerdict<'a>,
}

/// The effects of the slot's command of this number, one or more.
#[derive(Drop)]
pub struct Caused {
    pub slot: Slot,
    pub command: u64,
    pub effects: Effects,
}

/// Charging records of a slot, in the order in which they were made.
#[derive(Drop)]
pub struct Closed {
    pub slot: Slot,
    pub rows: Vec<ChargeRow>,
}

/// What the events of a slot in an epoch lead to, each kind in the order of the events: replies and
/// verdicts, to be taken from the start, effects and charging records. The verdicts stand in an arena,
/// since many slots have few of them.
#[derive(Drop)]
pub struct Replayed<'a, 'b> {
    pub replies: VecDeque<NumberedReply>,
    pub packets: VecDeque<NumberedVerdict<'a>, &'b Bump>,
    pub effects: Vec<Caused>,
    pub rows: Vec<ChargeRow>,
}

impl<'a, 'b> Replayed<'a, 'b> {
    ghost use Rattle.std.specs.Prelude.{◌≡◌, [], IfOk};

    /// Nothing yet, with room for what so many commands and packets lead to.
    pub(crate) fn with_room(
        alloc: Global,
        arena: &'b Bump,
        commands: usize,
        packets: usize,
    ) -> Result<Replayed<'a, 'b>, AllocError>
        ensures replies { IfOk result (λ replayed. replayed.replies.items ≡ []) }
        ensures packets { IfOk result (λ replayed. replayed.packets.items ≡ []) }
        ensures effects { IfOk result (λ replayed. replayed.effects.items ≡ []) }
    {
        Ok(Replayed {
            replies: VecDeque::with_capacity(alloc, commands)?,
            packets: VecDeque::with_capacity(arena, packets)?,
            effects: Vec::new(alloc),
            rows: Vec::new(alloc),
        })
    }
}
