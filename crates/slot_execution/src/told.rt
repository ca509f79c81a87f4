//! What is told of an epoch.
use crate::replayed::{Caused, Closed};
use pc_base::{Place, Reply, Slot};

/// What is told of a line: with `N` for the text of a note, and `V` for a verdict.
#[derive(Drop)]
pub enum ToldEntry<N, V> {
    /// It is a note, or an order to move.
    Note {
        line: u64,
        text: N,
    },
    /// It is the command of this number of a slot, with this reply.
    Answer {
        line: u64,
        slot: Slot,
        number: u64,
        reply: Reply,
    },
    /// It is the packet of this number of a slot, judged behind so many of the slot's commands; where it
    /// was handled, and whether it was parked.
    Judgement {
        line: u64,
        slot: Slot,
        number: u64,
        commands: u64,
        verdict: V,
        place: Option<Place>,
        parked: bool,
    },
    /// It is a command, or a packet, that found its queue or lane full.
    Refusal {
        line: u64,
        slot: Slot,
        packet: bool,
    },
}

/// What is told of an epoch: of each line, the effects of its commands by slot, and the charging
/// records that were made in it by slot.
#[derive(Drop)]
pub struct ToldEpoch<N, V> {
    pub lines: Vec<ToldEntry<N, V>>,
    pub effects: Vec<Caused>,
    pub rows: Vec<Closed>,
}
