//! Who is in the book.
ghost use Rattle.std.specs.Prelude.{◌≡◌, ◌<◌, IfOk, OnOk, OnErr, Some, None};
ghost use Rattle.demux.specs.Asked as asked;
ghost use Rattle.demux.specs.Resolved.{found_in, whose_in, slot_of, book_with, IsDue};

use crate::Whose;
use address_book::{AddressBook, AdmitNo};
use pc_base::{Imsi, LAST_SLOT, NoMemory, Slot};

/// A slot, if it is one of the book.
#[inline(always)]
pub fn in_book(book: &AddressBook, slot: Slot) -> Option<Slot>
    ensures { result ≡ found_in book.now (asked.slot slot) }
{
    if slot.0 < book.len() {
        Some(slot)
    } else {
        None
    }
}

/// Whose a command of an IMSI is; None where it is new and no slot is left.
pub fn whose(book: &AddressBook, imsi: Imsi) -> Option<Whose>
    ensures { result ≡ whose_in book.now imsi }
{
    match book.slot_of_imsi(&imsi) {
        Some(slot) => Some(Whose::Known(slot)),
        None if book.len() <= LAST_SLOT => Some(Whose::New(imsi)),
        None => None,
    }
}

impl Whose {
    /// The slot: a new IMSI takes the next one, and is in the book then. It is what `decide` gave for
    /// this book. Out of memory, the book is as before.
    pub fn admit(self, book: &mut AddressBook) -> Result<Slot, NoMemory>
        requires { IsDue book.old self }

        ensures slot { IfOk result (λ slot. slot ≡ slot_of book.old self) }
        ensures book { OnOk result (book.new ≡ book_with book.old self) }
        ensures unchanged { OnErr result (book.new ≡ book.old) }
    {
        match self {
            Whose::Known(slot) => Ok(slot),
            Whose::New(imsi) => match book.admit_new(imsi) {
                Ok(slot) => Ok(slot),
                Err(AdmitNo::NoMemory) => Err(NoMemory),
                Err(AdmitNo::PoolUsed) => unreachable!(),
            },
        }
    }
}
