//! The address book.
ghost use Rattle.std.specs.Prelude.{◌≡◌, ◌↔◌, [], ◌∷◌, ◌++◌, length, Some, None, IfOk, IfSome, OnOk, OnErr};
ghost use Rattle.address_book.specs.declared.book.AdmitNo.TheVariants as no;
ghost use Rattle.address_book.specs.Book.{IsBook, IsFull, slot_in, admitted};

use pc_base::{Imsi, LAST_SLOT, Slot};
use std::alloc::{AllocFailed, Global};
use std::collections::HashMap;
use std::marker::Model;
use thiserror::Error;

/// Why an IMSI gets no slot.
#[derive(Clone, Copy, Debug, PartialEq, Eq, Error)]
pub enum AdmitNo {
    /// It is new, and all 65,533 slots are taken.
    #[error("all addresses are taken")]
    PoolUsed,
    /// It is new, and there is no memory for it.
    #[error("out of memory")]
    NoMemory,
}

impl<T: Drop> From<AllocFailed<T>> for AdmitNo {
    ghost from_gives = { λ _ e. e ≡ no.NoMemory };

    fn from(_e: AllocFailed<T>) -> AdmitNo {
        AdmitNo::NoMemory
    }
}

/// The IMSIs that were admitted, each once, by slot. Contracts see it as the list of them.
#[derive(Drop)]
pub struct AddressBook {
    imsis: Vec<Imsi>,
    slots: HashMap<Imsi, Slot>,
}

impl Model for AddressBook {
    ghost use Rattle.std.specs.Prelude.{ℕ, List};

    ghost Value = { List (List ℕ) };

    ghost use Rattle.address_book.specs.Index.{IsIndex};

    ghost view = { λ book. book.imsis.items };

    ghost invariant = { λ book. IsIndex book.slots book.imsis.items };
}

impl AddressBook {
    /// A book with no IMSI.
    pub fn new(alloc: Global) -> AddressBook
        ensures { result ≡ [] }
    {
        AddressBook {
            imsis: Vec::new(alloc),
            slots: HashMap::new(alloc),
        }
    }

    /// The slot of an IMSI; a new one takes the next slot.
    pub fn admit(&mut self, imsi: Imsi) -> Result<Slot, AdmitNo>
        // A known IMSI has its slot, and a new one takes the next.
        ensures known { IfSome (slot_in self.old imsi) (λ slot. result ≡ Ok slot) }
        ensures next { slot_in self.old imsi ≡ None → IfOk result (λ slot. slot ≡ length self.old) }
        ensures slot { IfOk result (λ slot. slot_in self.new imsi ≡ Some slot) }
        ensures admitted { OnOk result (self.new ≡ admitted self.old imsi) }

        // The pool is used up exactly for a new IMSI at a full book.
        ensures pool_used { (result ≡ Err AdmitNo.PoolUsed) ↔ ((slot_in self.old imsi ≡ None) × IsFull self.old) }
        ensures kept { OnErr result (self.new ≡ self.old) }
    {
        if let Some(slot) = self.slots.get(&imsi) {
            return Ok(*slot);
        }
        self.admit_new(imsi)
    }

    /// The next slot, for an IMSI that the book hasn't; it isn't looked up.
    pub fn admit_new(&mut self, imsi: Imsi) -> Result<Slot, AdmitNo>
        requires { slot_in self.old imsi ≡ None }

        ensures next { IfOk result (λ slot. slot ≡ length self.old) }
        ensures slot { IfOk result (λ slot. slot_in self.new imsi ≡ Some slot) }
        ensures admitted { OnOk result (self.new ≡ self.old ++ imsi ∷ []) }

        // The pool is used up exactly at a full book.
        ensures pool_used { (result ≡ Err AdmitNo.PoolUsed) ↔ IsFull self.old }
        ensures kept { OnErr result (self.new ≡ self.old) }
    {
        let place = self.imsis.len();
        if place > LAST_SLOT as usize {
            return Err(AdmitNo::PoolUsed);
        }
        let slot = Slot(place as u32);
        self.imsis.push(imsi)?;
        if let Err(full) = self.slots.insert(imsi, slot) {
            let _ = self.imsis.pop();
            return Err(AdmitNo::from(full));
        }
        Ok(slot)
    }

    /// The slot of an IMSI; None exactly where it wasn't admitted.
    pub fn slot_of_imsi(&self, imsi: &Imsi) -> Option<Slot>
        ensures { result ≡ slot_in self.now imsi.now }
    {
        self.slots.get(imsi).copied()
    }

    /// The IMSIs that have a slot, by slot.
    pub fn imsis(&self) -> &[Imsi]
        ensures value { result.now ≡ self.now }
        ensures book { IsBook self.now }
    {
        &self.imsis
    }

    /// How many IMSIs have a slot: 0 to 65,533.
    pub fn len(&self) -> u32
        ensures length { result ≡ length self.now }
        ensures book { IsBook self.now }
    {
        self.imsis.len() as u32
    }
}
