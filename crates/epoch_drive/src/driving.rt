//! The lines of an epoch, driven.
ghost use Rattle.std.specs.Prelude.{◌≡◌, ℕ, ◌+◌, ◌≤◌, List, length, vec_len, IfOk, OnOk};
ghost use Rattle.subscriber.specs.Standing.{SubscriberState};
ghost use Rattle.trace_lines.specs.Line.{Line};
ghost use Rattle.epoch_schedule.specs.TurnsTold.{AreWorkers, turns_told, turns_behind};
ghost use Rattle.epoch_drive.specs.Steps.{DoesLines, MayDo};
ghost use Rattle.epoch_drive.specs.Taken.{AreTaken};
ghost use Rattle.epoch_drive.specs.Telling.{AreShort};

use crate::joining::join;
use crate::replays::{Replays, replay_all};
use crate::sharing::shares_of;
use crate::{DrivenEpoch, EpochLines};
use address_book::AddressBook;
use bumpalo::Bump;
use epoch_schedule::{Rooms, Turns, schedule};
use slot_execution::ToldEpoch;
use std::alloc::AllocError;
use subscriber::Subscriber;

/// The steps of an epoch whose lines were taken: their schedule is made, each subscriber does its share, and entries
/// are joined.
pub fn do_lines<'a>(
    rooms: Rooms,
    slices: u8,
    book: &AddressBook,
    subscribers: &mut Vec<Subscriber>,
    count: u64,
    lines: &'a EpochLines,
    turns: &mut Turns,
) -> Result<DrivenEpoch<'a>, AllocError>
    requires slices { (1 ≤ slices) × (slices ≤ 64) }
    requires workers { AreWorkers slices turns.old }
    requires may { MayDo slices count lines.now book.now subscribers.old.items }

    ensures does { (first_book : List (List ℕ)) (first : List SubscriberState) (taken : List Line)
        → AreTaken slices first_book first taken lines.now book.now subscribers.old.items
        → IfOk result (λ epoch. DoesLines rooms slices (count + 1) (turns_told turns.old slices (length taken))
        first_book first taken book.now subscribers.new.items epoch) }
    ensures short { IfOk result (λ epoch. AreShort epoch.lines.items) }
    ensures turns { OnOk result (turns.new ≡ turns_behind turns.old (vec_len lines.now.asks)) }
{
    let arena = Bump::new(*subscribers.allocator());
    do_lines_in(
        &arena,
        rooms,
        slices,
        book,
        subscribers,
        count,
        lines,
        turns,
    )
}

// The same, with an arena for the lists of the epoch.
fn do_lines_in<'a, 'b>(
    arena: &'b Bump,
    rooms: Rooms,
    slices: u8,
    book: &AddressBook,
    subscribers: &mut Vec<Subscriber>,
    count: u64,
    lines: &'a EpochLines,
    turns: &mut Turns,
) -> Result<DrivenEpoch<'a>, AllocError>
    requires slices { (1 ≤ slices) × (slices ≤ 64) }
    requires workers { AreWorkers slices turns.old }
    requires may { MayDo slices count lines.now book.now subscribers.old.items }

    ensures does { (first_book : List (List ℕ)) (first : List SubscriberState) (taken : List Line)
        → AreTaken slices first_book first taken lines.now book.now subscribers.old.items
        → IfOk result (λ epoch. DoesLines rooms slices (count + 1) (turns_told turns.old slices (length taken))
        first_book first taken book.now subscribers.new.items epoch) }
    ensures short { IfOk result (λ epoch. AreShort epoch.lines.items) }
    ensures turns { OnOk result (turns.new ≡ turns_behind turns.old (vec_len lines.now.asks)) }
{
    let alloc = *subscribers.allocator();
    let bounds = lines.bounds.as_slice();
    let asks = lines.asks.as_slice();
    let scheduled = schedule(alloc, arena, rooms, slices, bounds, asks, turns)?;
    let kept = lines.lines.as_slice();
    let octets = lines.octets.as_slice();
    let slots = book.len();
    let shares = shares_of(
        alloc,
        arena,
        slots,
        subscribers.as_slice(),
        &scheduled,
        kept,
        octets,
    )?;
    let replays = replay_all(alloc, arena, slots, subscribers, shares.as_slice())?;
    drop(shares);
    let Replays {
        mut answers,
        effects,
        rows,
    } = replays;
    let entries = join(alloc, count + 1, kept, scheduled.outcomes(), &mut answers)?;
    Ok(ToldEpoch {
        lines: entries,
        effects,
        rows,
    })
}
