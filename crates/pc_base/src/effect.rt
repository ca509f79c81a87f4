//! What a command does beside its answer.
ghost use Rattle.std.specs.Prelude.{◌≡◌, IfOk};

use crate::{Addr4, NoMemory, Octets};

/// What a command does to the user plane, beside its answer.
#[derive(Clone, Debug, Drop, PartialEq, Eq)]
pub enum Effect {
    /// An End Marker goes to the eNodeB that this life of a bearer had before (TS 23.401, section
    /// 5.5.1.1.2): these octets of GTP-U.
    Marker {
        life: u64,
        peer: Addr4,
        octets: Octets,
    },
    /// What becomes of a packet that was held, by its number.
    Fate {
        packet: u64,
        fate: Fate,
    },
}

/// What becomes of a packet that was held.
#[derive(Clone, Debug, Drop, PartialEq, Eq)]
pub enum Fate {
    /// Forwarded to this eNodeB as these octets of GTP-U.
    Down {
        life: u64,
        peer: Addr4,
        octets: Octets,
    },
    /// The bearer's rate is used up.
    Policed {
        life: u64,
    },
    /// The bearer is gone.
    Gone {
        life: u64,
    },
}

impl Effect {
    /// A copy of the effect.
    pub fn try_clone(&self) -> Result<Effect, NoMemory>
        ensures { IfOk result (λ copy. copy ≡ self.now) }
    {
        self.clone()
    }
}

impl Fate {
    /// A copy of the fate.
    pub fn try_clone(&self) -> Result<Fate, NoMemory>
        ensures { IfOk result (λ copy. copy ≡ self.now) }
    {
        self.clone()
    }
}
