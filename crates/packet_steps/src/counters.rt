//! The running counters of a subscriber.
ghost use Rattle.std.specs.Prelude.{◌≡◌, ℕ, [], length, drop};
ghost use Rattle.charging_book.specs.Happenings.{rows_of};
ghost use Rattle.packet_steps.specs.Parts.{new_counters};
ghost use Rattle.packet_steps.specs.Past.{Past, new_past};
ghost use Rattle.packet_steps.specs.Standing.{StandsFor, book_of, last_of};

use crate::HeldPacket;
use crate::meters::{Meter, Meters};
use charging_book::{Book, ChargeRow};
use pc_base::{Kbps, Moment};
use std::alloc::Global;
use std::marker::Model;

/// The buckets, the charging book and the held packets of a subscriber. A contract speaks of them by
/// the subscriber's past, and by how many of its charging records were taken out: they represent these.
#[derive(Drop)]
pub struct Counters {
    pub(crate) meters: Meters,
    pub(crate) book: Book,
    pub(crate) held: Vec<HeldPacket>,
    pub(crate) last: Option<Moment>,
}

impl Model for Counters {
    ghost use Rattle.std.specs.Prelude.{IsTrue};
    ghost use Rattle.packet_steps.specs.Rows.{held_in_order};
    ghost use Rattle.packet_steps.specs.Meters.{in_use};
    ghost use Rattle.packet_steps.specs.Standing.{CountersState};

    ghost Value = { CountersState };

    ghost view = { λ counters. record {
      meters = in_use counters.meters;
      book = counters.book;
      held = counters.held.items;
      last = counters.last;
    } };

    ghost invariant = { λ counters. IsTrue (held_in_order counters.last counters.held.items) };
}

impl Counters {
    /// The counters of a subscriber before its first event.
    pub fn new(alloc: Global) -> Counters
        ensures stands { (slot : ℕ) → StandsFor result (new_past slot) 0 }
        ensures new { result ≡ new_counters }
    {
        Counters {
            meters: Meters::new(alloc, Meter::new(Kbps(0), Kbps(0))),
            book: Book::new(alloc),
            held: Vec::new(alloc),
            last: None,
        }
    }

    /// The charging book.
    pub fn book(&self) -> &Book
        ensures { result.now ≡ book_of self.now }
    {
        &self.book
    }

    /// The moment of the last packet that was judged, None before the first. No new version changes it.
    pub fn last(&self) -> Option<Moment>
        ensures { result ≡ last_of self.now }
    {
        self.last
    }

    /// Takes the charging records out that weren't taken yet; the rest stays.
    pub fn take_closed(&mut self) -> Vec<ChargeRow>
        ensures rows { (past : Past) (taken : ℕ) → StandsFor self.old past taken
            → result.items ≡ drop taken (rows_of past.charged) }
        ensures stands { (past : Past) (taken : ℕ) → StandsFor self.old past taken
            → StandsFor self.new past (length (rows_of past.charged)) }
        ensures closed { result.items ≡ (book_of self.old).rows }
        ensures left { self.new ≡ record self.old { book = record (book_of self.old) { rows = [] } } }
    {
        self.book.take_closed()
    }
}
