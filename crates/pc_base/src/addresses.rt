//! The users' addresses: 10.45.0.2 plus the slot, up to 10.45.255.254.
ghost use Rattle.std.specs.Prelude.{◌≡◌, ℕ, ◌↔◌, IsNone, IfSome};
ghost use Rattle.pc_base.specs.Slots.{IsSlot};
ghost use Rattle.pc_base.specs.Addresses.{IsUserAddr, addr_of};

use crate::{Addr4, FIRST_ADDR, LAST_ADDR, Slot};

/// The address of a slot.
pub fn addr_of(slot: Slot) -> Addr4
    ensures { result ≡ addr_of slot }
{
    Addr4(FIRST_ADDR + slot.0)
}

/// The slot that has an address; None exactly outside 10.45.0.2 to 10.45.255.254.
#[inline(always)]
pub fn slot_of_addr(addr: Addr4) -> Option<Slot>
    // What is found is the one source of the address, and each source is found.
    ensures source { IfSome result (λ slot. IsSlot slot × (addr ≡ addr_of slot)) }
    ensures found { (slot : ℕ) → IsSlot slot → addr ≡ addr_of slot → result ≡ Some slot }

    ensures none { IsNone result ↔ (¬ IsUserAddr addr) }
{
    if addr.0 < FIRST_ADDR || addr.0 > LAST_ADDR {
        return None;
    }
    Some(Slot(addr.0 - FIRST_ADDR))
}

/// No two slots have one address.
pub fn addresses_are_distinct()
    ensures { (slot other : ℕ) → addr_of slot ≡ addr_of other → slot ≡ other }
{}
