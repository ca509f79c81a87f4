// The book of a subscriber.
ghost use Rattle.std.specs.Prelude.{◌≡◌, ◌≢◌, ◌+◌, ◌<◌, [], ◌∷◌, ◌++◌, All, Contains, IfNone, IfSome, OnErr, OnOk};
ghost use Rattle.std.specs.Prelude.{length, map, slice_index, vec_len};
ghost use Rattle.charging_book.specs.Ledger.{LedgersArePartitions, EachOctetOnce, EachPacketOnce};
ghost use Rattle.charging_book.specs.Accounts.{AreBounded};

mod parts;
mod posting;

use super::NoMemory;
use super::records::{ChargeRow, Open, Span, Why};
pub use parts::parts_represent_the_same;
use pc_base::Moment;
pub use posting::Posting;
use std::alloc::Global;
use std::marker::Model;

/// The open counters of a subscriber's lives, and the rows of their finished pieces.
/// A clause speaks of it by the list of what happened to it since it was new, and by how many of
/// the rows of that were taken out: it represents these.
#[derive(Drop)]
pub struct Book {
    opens: Vec<Open>,
    spans: Vec<Span>,
    rows: Vec<ChargeRow>,
}

impl Model for Book {
    ghost use Rattle.std.specs.Prelude.{◌≡◌, map, vec_len};
    ghost use Rattle.charging_book.specs.Accounts.{Accounts, AreCounting, AreDistinct};

    ghost Value = { Accounts };

    ghost view = { λ book. record { opens = book.opens.items; moments = book.spans.items; rows = book.rows.items } };

    ghost invariant = { λ book. (vec_len book.spans ≡ vec_len book.opens) × AreCounting book.opens.items
        × AreDistinct (map (λ counters. counters.life) book.opens.items) };
}

impl Book {
    ghost use Rattle.std.specs.Prelude.{
      ◌≡◌,
      ◌≢◌,
      ◌-◌,
      ◌^◌,
      ◌<◌,
      ◌≤◌,
      ℕ,
      List,
      [],
      ◌∷◌,
      ◌++◌,
      length,
      map,
      All,
      Contains,
      set,
      OnOk,
      OnErr,
      IsTrue,
      ◌↔◌,
    };
    ghost use Rattle.charging_book.specs.Happenings.{Happening, started, forwarded, closed, rows_of};
    ghost use Rattle.charging_book.specs.Accounts.{StandsFor, LifeHasRoom, lives_in};
    ghost use Rattle.charging_book.specs.Counters.{HasRoom, next_piece, no_moments, row_from};
    ghost use Rattle.charging_book.specs.Posted.{GoesOn};
    ghost use Rattle.charging_book.specs.declared.records.Why.TheVariants.{Volume};
    ghost use Rattle.std.specs.List.{HoldsAt};

    /// A book of no life.
    pub fn new(alloc: Global) -> Book
        ensures { StandsFor result [] 0 }
    {
        Book {
            opens: Vec::new(alloc),
            spans: Vec::new(alloc),
            rows: Vec::new(alloc),
        }
    }

    /// A life starts: a bearer became active, with this EBI and QCI (TS 23.401, section 5.3; TS
    /// 23.203, section 6.1.7).
    pub fn start(&mut self, life: u64, ebi: u8, qci: u8) -> Result<(), NoMemory>
        requires closed { All (λ other. other ≢ life) (lives_in self.old) }
        requires number { life ≤ 2 ^ 61 }

        ensures stands { (happened : List Happening) (taken : ℕ) → StandsFor self.old happened taken
            → OnOk result (StandsFor self.new (happened ++ started life ebi qci ∷ []) taken) }
        ensures pieces { OnOk result (GoesOn self.old self.new (started life ebi qci)) }
        ensures unchanged { OnErr result (self.new ≡ self.old) }
    {
        push_one(&mut self.opens, Open::new(life, ebi, qci))?;
        match push_one(&mut self.spans, Span::new()) {
            Ok(()) => Ok(()),
            Err(failed) => {
                let _ = self.opens.pop();
                Err(failed)
            }
        }
    }

    /// A packet of an open life was forwarded, up or down. The piece that it fills gives its row.
    pub fn count(&mut self, life: u64, up: bool, octets: u32, at: Moment) -> Result<(), NoMemory>
        requires is_open { Contains (lives_in self.old) life }
        requires room { LifeHasRoom self.old life }

        ensures stands { (happened : List Happening) (taken : ℕ) → StandsFor self.old happened taken
            → OnOk result (StandsFor self.new (happened ++ forwarded life
            (record { up = up; octets = octets; at = at }) ∷ []) taken) }

        // The same by the pieces alone, also of a book that was made of some.
        ensures pieces { OnOk result (GoesOn self.old self.new
            (forwarded life (record { up = up; octets = octets; at = at }))) }
        ensures unchanged { OnErr result (self.new ≡ self.old) }
    {
        let place = place_of(&self.opens, life);
        self.count_at(place, up, octets, at)
    }

    // The same for the life that stands at a place.
    #[inline(always)]
    fn count_at(&mut self, place: usize, up: bool, octets: u32, at: Moment) -> Result<(), NoMemory>
        requires within { place < length self.old.opens }
        requires room { HoldsAt HasRoom self.old.opens place }

        ensures stands { (life : ℕ) (happened : List Happening) (taken : ℕ)
            → slice_index (lives_in self.old) place ≡ life
            → StandsFor self.old happened taken
            → OnOk result (StandsFor self.new
            (happened ++ forwarded life (record { up = up; octets = octets; at = at }) ∷ []) taken) }
        ensures pieces { (life : ℕ) → slice_index (lives_in self.old) place ≡ life
            → OnOk result (GoesOn self.old self.new
            (forwarded life (record { up = up; octets = octets; at = at }))) }
        ensures unchanged { OnErr result (self.new ≡ self.old) }
    {
        let counted = self.opens[place].with(up, octets);
        let span = self.spans[place].with(at);
        if counted.is_full() {
            self.fill_at(place, &counted, &span)
        } else {
            self.opens[place] = counted;
            self.spans[place] = span;
            Ok(())
        }
    }

    // The piece of the life at a place is full: it gives its row, and the next one begins.
    #[inline(never)]
    fn fill_at(&mut self, place: usize, counted: &Open, span: &Span) -> Result<(), NoMemory>
        requires within { place < length self.old.opens }
        requires life { slice_index (lives_in self.old) place ≡ counted.now.life }
        requires room { counted.now.seq ≤ 2 ^ 61 - 20 }

        ensures filled { OnOk result (self.new ≡ record {
          opens = set self.old.opens place (next_piece counted.now);
          moments = set self.old.moments place no_moments;
          rows = self.old.rows ++ row_from counted.now span.now Volume ∷ [];
        }) }
        ensures unchanged { OnErr result (self.new ≡ self.old) }
    {
        push_one(&mut self.rows, ChargeRow::new(counted, span, Why::Volume))?;
        self.opens[place] = counted.next();
        self.spans[place] = Span::new();
        Ok(())
    }

    /// Finishes the piece of an open life, also one without packets, and with `Gone` the life.
    /// Else the next piece begins.
    pub fn close_one(&mut self, life: u64, why: Why) -> Result<(), NoMemory>
        requires is_open { Contains (lives_in self.old) life }
        requires room { LifeHasRoom self.old life }

        ensures stands { (happened : List Happening) (taken : ℕ) → StandsFor self.old happened taken
            → OnOk result (StandsFor self.new (happened ++ closed life why ∷ []) taken) }
        ensures pieces { OnOk result (GoesOn self.old self.new (closed life why)) }
        ensures unchanged { OnErr result (self.new ≡ self.old) }
    {
        let place = place_of(&self.opens, life);
        let counted = self.opens[place];
        push_one(
            &mut self.rows,
            ChargeRow::new(&counted, &self.spans[place], why),
        )?;
        match why {
            Why::Gone => {
                let _ = self.opens.remove(place);
                let _ = self.spans.remove(place);
                Ok(())
            }
            _ => {
                self.opens[place] = counted.next();
                self.spans[place] = Span::new();
                Ok(())
            }
        }
    }

    /// Whether a life is open.
    pub fn is_open(&self, life: u64) -> bool
        ensures { IsTrue result ↔ Contains (lives_in self.now) life }
    {
        match find_place(&self.opens, life) {
            Some(_) => true,
            None => false,
        }
    }

    /// Whether a life's counts may still rise: each is at most 2^61 − 20.
    pub fn has_room(&self, life: u64) -> bool
        ensures { IsTrue result ↔ LifeHasRoom self.now life }
    {
        self.opens
            .iter()
            .all(|counted| counted.life != life || counted.has_room())
    }

    /// The rows that weren't taken out, in the order of what made them.
    pub fn closed(&self) -> &[ChargeRow]
        ensures { result.now ≡ self.now.rows }
    {
        &self.rows
    }

    /// Takes these rows out.
    pub fn take_closed(&mut self) -> Vec<ChargeRow>
        ensures rows { result.items ≡ self.old.rows }
        ensures stands { (happened : List Happening) (taken : ℕ) → StandsFor self.old happened taken
            → StandsFor self.new happened (length (rows_of happened)) }
        ensures pieces { self.new ≡ record self.old { rows = [] } }
    {
        let alloc = *self.rows.allocator();
        if self.rows.is_empty() {
            return Vec::new(alloc);
        }
        std::mem::replace(&mut self.rows, Vec::new(alloc))
    }

    /// The open counters of the lives that aren't over, in the order of their starts.
    pub fn still_open(&self) -> &[Open]
        ensures { result.now ≡ self.now.opens }
    {
        &self.opens
    }
}

/// The ledger is a partition: the pieces that a life's rows and open counters tell, one behind another, are just
/// the packets that were forwarded for it, in their order. So they have its octets and its packets, each way.
pub fn each_packet_once()
    ensures pieces { LedgersArePartitions }
    ensures octets { EachOctetOnce }
    ensures packets { EachPacketOnce }
{}

/// No count of a book is above the number of happenings, so its counts may rise as long as fewer
/// than 2^61 − 20 things happened.
pub fn counts_are_bounded()
    ensures { AreBounded }
{}

// One member more.
fn push_one<T: Copy>(list: &mut Vec<T>, member: T) -> Result<(), NoMemory>
    ensures pushed { OnOk result (list.new.items ≡ list.old.items ++ member ∷ []) }
    ensures len { OnOk result (vec_len list.new ≡ vec_len list.old + 1) }
    ensures unchanged { OnErr result (list.new.items ≡ list.old.items) }
    ensures same_len { OnErr result (vec_len list.new ≡ vec_len list.old) }
{
    make_room(list)?;
    list.push(member)?;
    Ok(())
}

// An empty list takes room for one member alone: most subscribers have one life, and most happenings give one row.
fn make_room<T: Copy>(list: &mut Vec<T>) -> Result<(), NoMemory>
    ensures items { list.new.items ≡ list.old.items }
    ensures len { vec_len list.new ≡ vec_len list.old }
{
    if list.is_empty() {
        return list.reserve_exact(1);
    }
    Ok(())
}

// Where a life stands among the open ones, if it does.
#[inline(always)]
fn find_place(opens: &[Open], life: u64) -> Option<usize>
    ensures within { IfSome result (λ place. place < length opens.now) }
    ensures found { IfSome result (λ place. slice_index (map (λ counters. counters.life) opens.now) place ≡ life) }
    ensures none { IfNone result (All (λ other. other ≢ life) (map (λ counters. counters.life) opens.now)) }
{
    let guess = guess_of(opens, life);
    if guess < opens.len() {
        let counted = &opens[guess];
        if counted.life == life {
            return Some(guess);
        }
    }
    for (place, counted) in opens.iter().enumerate() {
        if counted.life == life {
            return Some(place);
        }
    }
    None
}

// Where a life stands if none between it and the first open one is over.
#[inline(always)]
fn guess_of(opens: &[Open], life: u64) -> usize {
    match opens.first() {
        Some(first) => life.wrapping_sub(first.life) as usize,
        None => 0,
    }
}

// Where an open life stands.
fn place_of(opens: &[Open], life: u64) -> usize
    requires { Contains (map (λ counters. counters.life) opens.now) life }
    ensures within { result < length opens.now }
    ensures found { slice_index (map (λ counters. counters.life) opens.now) result ≡ life }
{
    match find_place(opens, life) {
        Some(place) => place,
        None => unreachable!(),
    }
}
