//! Several happenings at once.
ghost use Rattle.std.specs.Prelude.{◌≡◌, ◌++◌, ℕ, List, map, OnOk, OnErr};
ghost use Rattle.charging_book.specs.Happenings.{Happening};
ghost use Rattle.charging_book.specs.Postings.{happening_of, MayFollow, MayAllFollow};
ghost use Rattle.charging_book.specs.Accounts.{StandsFor};

use super::{Book, find_place};
use crate::{NoMemory, Why};
use pc_base::Moment;

// A life's number is at most 2^61.
const LAST_LIFE: u64 = 0x2000_0000_0000_0000;

/// What is posted to a book.
#[derive(Clone, Copy, Debug, PartialEq, Eq)]
pub enum Posting {
    /// A life starts, with this EBI and QCI.
    Start {
        life: u64,
        ebi: u8,
        qci: u8,
    },
    /// A packet of an open life was forwarded, up or down.
    Packet {
        life: u64,
        up: bool,
        octets: u32,
        at: Moment,
    },
    /// The piece of an open life is finished, and with `Gone` the life.
    Close {
        life: u64,
        why: Why,
    },
}

impl Book {
    ghost use Rattle.std.specs.Prelude.{[], ◌∷◌, ◌↔◌, length, IsTrue, IfOk};
    ghost use Rattle.charging_book.specs.Happenings.{rows_of};
    ghost use Rattle.charging_book.specs.Postings.{MayStart, MayGoOn, MayBePosted};
    ghost use Rattle.charging_book.specs.Posted.{GoesOn, GoesFar};

    /// Posts these, one after another, or nothing when out of memory. One that may not happen
    /// by then is passed over.
    pub fn post(&mut self, postings: &[Posting]) -> Result<(), NoMemory>
        ensures stands { (happened : List Happening) (taken : ℕ) → StandsFor self.old happened taken
            → MayAllFollow happened (map happening_of postings.now)
            → OnOk result (StandsFor self.new (happened ++ map happening_of postings.now) taken) }

        // The same by the pieces alone, also of a book that was made of some.
        ensures pieces { OnOk result (GoesFar self.old self.new (map happening_of postings.now)) }
        ensures unchanged { OnErr result (self.new ≡ self.old) }
    {
        match postings {
            [] => Ok(()),
            [posting] => self.post_one(posting),
            _ => self.post_many(postings),
        }
    }

    // The same of any number: they are posted to a copy, so that the book stays whole where memory runs out.
    fn post_many(&mut self, postings: &[Posting]) -> Result<(), NoMemory>
        ensures stands { (happened : List Happening) (taken : ℕ) → StandsFor self.old happened taken
            → MayAllFollow happened (map happening_of postings.now)
            → OnOk result (StandsFor self.new (happened ++ map happening_of postings.now) taken) }
        ensures pieces { OnOk result (GoesFar self.old self.new (map happening_of postings.now)) }
        ensures unchanged { OnErr result (self.new ≡ self.old) }
    {
        let mut copy = self.without_rows()?;
        for posting in postings {
            copy.post_one(posting)?;
        }
        self.rows.extend_from_slice(&copy.rows)?;
        self.opens = copy.opens;
        self.spans = copy.spans;
        Ok(())
    }

    /// Posts one. Where it may not happen, or when out of memory, the book stays as it was.
    #[inline(always)]
    pub fn post_one(&mut self, posting: &Posting) -> Result<(), NoMemory>
        ensures stands { (happened : List Happening) (taken : ℕ) → StandsFor self.old happened taken
            → MayFollow happened (happening_of posting.now)
            → OnOk result (StandsFor self.new (happened ++ happening_of posting.now ∷ []) taken) }

        // The same by the pieces alone.
        ensures pieces { MayBePosted self.old (happening_of posting.now)
            → OnOk result (GoesOn self.old self.new (happening_of posting.now)) }
        ensures unchanged { OnErr result (self.new ≡ self.old) }
    {
        match *posting {
            Posting::Start { life, ebi, qci } => {
                if !self.may_start(life) {
                    return Ok(());
                }
                self.start(life, ebi, qci)
            }
            Posting::Packet {
                life,
                up,
                octets,
                at,
            } => {
                let Some(place) = find_place(&self.opens, life) else {
                    return Ok(());
                };
                if !self.opens[place].has_room() {
                    return Ok(());
                }
                self.count_at(place, up, octets, at)
            }
            Posting::Close { life, why } => {
                if !self.may_go_on(life) {
                    return Ok(());
                }
                self.close_one(life, why)
            }
        }
    }

    // Whether a life may start.
    fn may_start(&self, life: u64) -> bool
        ensures { IsTrue result ↔ MayStart self.now life }
    {
        life <= LAST_LIFE && !self.is_open(life)
    }

    // Whether something may happen to a life that goes on.
    fn may_go_on(&self, life: u64) -> bool
        ensures { IsTrue result ↔ MayGoOn self.now life }
    {
        self.is_open(life) && self.has_room(life)
    }

    // The open counters, as a book that all rows were taken out of.
    fn without_rows(&self) -> Result<Book, NoMemory>
        ensures stands { (happened : List Happening) (taken : ℕ) → StandsFor self.now happened taken
            → IfOk result (λ copy. StandsFor copy happened (length (rows_of happened))) }
        ensures pieces { IfOk result (λ copy. copy ≡ record self.now { rows = [] }) }
    {
        let alloc = *self.rows.allocator();
        Ok(Book {
            opens: Vec::from_slice(alloc, &self.opens)?,
            spans: Vec::from_slice(alloc, &self.spans)?,
            rows: Vec::new(alloc),
        })
    }
}
