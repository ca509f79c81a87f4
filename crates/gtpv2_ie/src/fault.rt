ghost use Rattle.std.specs.Prelude.{◌≡◌};
ghost use Rattle.gtpv2_ie.specs.declared.fault.IeBad.TheVariants.{NoMemory as OutOfMemory};

use std::alloc::{AllocError, AllocFailed};
use thiserror::Error;

/// Why octets are no list of elements: where the first thing that is wrong stands.
#[derive(Clone, Copy, Debug, PartialEq, Eq, Error)]
pub enum IeBad {
    /// One to three octets stand in the place of a header.
    #[error("one to three octets stand in the place of an element's header")]
    Short,
    /// A value passes the end.
    #[error("an element's value passes the end")]
    Length,
    /// Memory ran out.
    #[error("memory ran out")]
    NoMemory,
}

impl From<AllocError> for IeBad {
    ghost from_gives = { λ _ bad. bad ≡ OutOfMemory };

    fn from(_failed: AllocError) -> IeBad {
        IeBad::NoMemory
    }
}

impl<T: Drop> From<AllocFailed<T>> for IeBad {
    ghost from_gives = { λ _ bad. bad ≡ OutOfMemory };

    fn from(_failed: AllocFailed<T>) -> IeBad {
        IeBad::NoMemory
    }
}
