//! Whose a TEID and an address are.
ghost use Rattle.std.specs.Prelude.{◌≡◌};
ghost use Rattle.demux.specs.Ends.{control_slot, bearer_end, addressee};

use pc_base::{Addr4, Slot, Teid, TeidUse, slot_of_addr, slot_of_teid};

/// The slot whose control TEID it is.
pub fn control_slot(teid: Teid) -> Option<Slot>
    ensures { result ≡ control_slot teid }
{
    let (slot, usage) = slot_of_teid(teid)?;
    match usage {
        TeidUse::Control => Some(slot),
        TeidUse::Bearer(_) => None,
    }
}

/// The slot whose bearer TEID it is, and the bearer's index.
#[inline(always)]
pub fn bearer_end(teid: Teid) -> Option<(Slot, u8)>
    ensures { result ≡ bearer_end teid }
{
    let (slot, usage) = slot_of_teid(teid)?;
    match usage {
        TeidUse::Bearer(index) => Some((slot, index)),
        TeidUse::Control => None,
    }
}

/// The slot whose address it is.
#[inline(always)]
pub fn addressee(addr: Addr4) -> Option<Slot>
    ensures { result ≡ addressee addr }
{
    slot_of_addr(addr)
}
