//! The TEIDs that the gateway gives out: 16 * (slot + 1) for the control plane of a slot, and that
//! plus index + 1 for its bearer of this index.
ghost use Rattle.std.specs.Prelude.{◌≡◌, ℕ, ◌+◌, ◌-◌, ◌*◌, ◌/◌, ◌%◌, ◌<◌, ◌⊎◌, ◌↔◌, IsNone, IfSome};
ghost use Rattle.pc_base.specs.declared.packet.TeidUse.{TeidUse};
ghost use Rattle.pc_base.specs.Slots.{IsSlot};
ghost use Rattle.pc_base.specs.Teids.{teid_of, IsTeidUse};

use crate::{LAST_BEARER, LAST_SLOT, Slot, Teid, TeidUse};

/// The TEID of a slot for a use.
pub fn teid_of(slot: Slot, usage: TeidUse) -> Teid
    ensures { result ≡ teid_of slot usage }
{
    let control = 16 * (slot.0 + 1);
    match usage {
        TeidUse::Control => Teid(control),
        TeidUse::Bearer(index) => Teid(control + u32::from(index) + 1),
    }
}

/// The slot and the use that a TEID was given out for; None where it was given out for none.
#[inline(always)]
pub fn slot_of_teid(teid: Teid) -> Option<(Slot, TeidUse)>
    // What is found is the one source of the TEID, and each source is found.
    ensures source { IfSome result (λ found. IsSlot found.0 × IsTeidUse found.1
        × (teid ≡ teid_of found.0 found.1)) }
    ensures found { (slot : ℕ) (usage : TeidUse) → IsSlot slot → IsTeidUse usage → teid ≡ teid_of slot usage
        → result ≡ Some (slot, usage) }

    // The control TEID of the last slot is the last multiple of 16.
    ensures none { IsNone result ↔ ((teid < 16) ⊎ (11 < teid % 16) ⊎ (65532 < teid / 16 - 1)) }
{
    let block = teid.0 / 16;
    let place = teid.0 % 16;
    if block == 0 || block - 1 > LAST_SLOT {
        return None;
    }
    let slot = Slot(block - 1);
    if place == 0 {
        Some((slot, TeidUse::Control))
    } else if place <= u32::from(LAST_BEARER) + 1 {
        Some((slot, TeidUse::Bearer((place - 1) as u8)))
    } else {
        None
    }
}

/// No two slots and uses have one TEID.
pub fn teids_are_distinct()
    ensures { (slot other_slot : ℕ) (usage other_usage : TeidUse) → IsTeidUse usage → IsTeidUse other_usage
        → teid_of slot usage ≡ teid_of other_slot other_usage → (slot ≡ other_slot) × (usage ≡ other_usage) }
{}
