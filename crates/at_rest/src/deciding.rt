//! A line is decided: the book grows, and where a subscriber is bound for changes.
ghost use Rattle.std.specs.Prelude.{◌≡◌, ◌<◌, ◌≤◌, length, vec_len, IfOk, OnOk};
ghost use Rattle.demux.specs.Resolved.{IsDue, slot_of, book_with};
ghost use Rattle.at_rest.specs.Meant.{Admits, GoesOrStays, Turned};

use address_book::AddressBook;
use demux::{Decision, Meant, Whose, decide, move_note, start_slice};
use pc_base::{SliceNo, Slot};
use std::alloc::{AllocError, Global};
use subscriber::Subscriber;
use trace_lines::TraceLine;

/// What a line means by the book and the subscribers in it. A new IMSI gets the next slot, and a subscriber
/// that is bound for its start slice; an instruction to move binds a subscriber for its slice.
pub fn decide_line<'a>(
    alloc: Global,
    slices: u8,
    book: &mut AddressBook,
    subscribers: &mut Vec<Subscriber>,
    line: &'a TraceLine,
) -> Result<Meant<'a>, AllocError>
    requires slices { (1 ≤ slices) × (slices ≤ 64) }
    requires many { vec_len subscribers.old ≡ length book.old }

    ensures { IfOk result (λ meant. Turned slices book.old subscribers.old.items line.now meant
        book.new subscribers.new.items) }
{
    match decide(alloc, book, slices, line)? {
        Decision::Command { whose, command } => {
            let slot = admit(alloc, slices, book, subscribers, whose)?;
            Ok(Meant::Command { slot, command })
        }
        Decision::Packet { slot, packet } => Ok(Meant::Packet { slot, packet }),
        Decision::Move { slot, slice } => go(alloc, subscribers, slot, slice),
        Decision::Note(text) => Ok(Meant::Note(text)),
    }
}

// The slot of a command; a new IMSI gets a subscriber.
fn admit(
    alloc: Global,
    slices: u8,
    book: &mut AddressBook,
    subscribers: &mut Vec<Subscriber>,
    whose: Whose,
) -> Result<Slot, AllocError>
    requires slices { (1 ≤ slices) × (slices ≤ 64) }
    requires due { IsDue book.old whose }

    ensures slot { IfOk result (λ slot. slot ≡ slot_of book.old whose) }
    ensures book { OnOk result (book.new ≡ book_with book.old whose) }
    ensures subscribers { OnOk result
        (Admits slices book.old whose subscribers.old.items subscribers.new.items) }
{
    match whose {
        Whose::Known(slot) => Ok(slot),
        Whose::New(imsi) => {
            let slot = Whose::New(imsi).admit(book)?;
            let start = start_slice(slot, slices);
            subscribers.push(Subscriber::new(alloc, slot, start)?)?;
            Ok(slot)
        }
    }
}

// An instruction to move: the subscriber is bound for the slice, if it wasn't already.
fn go<'a>(
    alloc: Global,
    subscribers: &mut Vec<Subscriber>,
    slot: Slot,
    slice: SliceNo,
) -> Result<Meant<'a>, AllocError>
    requires { slot < vec_len subscribers.old }
    ensures { IfOk result (λ meant. GoesOrStays subscribers.old.items subscribers.new.items slot slice meant) }
{
    let subscriber = &mut subscribers[slot.0 as usize];
    let destination = subscriber.destination();
    let text = move_note(alloc, destination, slot, slice)?;
    if slice == destination {
        Ok(Meant::Note(text))
    } else {
        subscriber.set_destination(slice);
        Ok(Meant::Move { slot, slice, text })
    }
}
