//! Why octets are no traffic flow template, and why one is not applied.

ghost use Rattle.std.specs.Prelude.{◌≡◌};
ghost use Rattle.tft_codec.specs.declared.fault.TBad.TheVariants as bad;
ghost use Rattle.tft_codec.specs.declared.fault.TftNo.TheVariants as no;

use std::alloc::{AllocError, AllocFailed};
use thiserror::Error;

/// Why octets are no `Tft`: the first fault from left to right.
#[derive(Clone, Copy, Debug, PartialEq, Eq, Error)]
pub enum TBad {
    /// No octet, or the end comes within a filter's head, its contents, or an identifier's entry.
    #[error("the octets end within an entry")]
    Short,
    /// The E bit is set: a parameter list would follow.
    #[error("a parameter list, which isn't read here")]
    Parameters,
    /// The operation is 0 or 7, or its number of filters is none that it may have.
    #[error("an operation of another code, or with another number of filters")]
    Operation,
    /// A component of an unknown type, one that passes its filter's length, or a type twice in a filter.
    #[error("contents of a filter that are no components")]
    Component,
    /// An identifier comes a second time.
    #[error("an identifier stands twice")]
    RepeatedId,
    /// Octets stand after the last entry.
    #[error("octets behind the last entry")]
    Trailing,
    /// Memory ran out: this says nothing of the octets.
    #[error("out of memory")]
    NoMemory,
}

impl<T: Drop> From<AllocFailed<T>> for TBad {
    ghost from_gives = { λ _ e. e ≡ bad.NoMemory };

    fn from(_e: AllocFailed<T>) -> TBad {
        TBad::NoMemory
    }
}

/// Why a `Tft` is not applied to a list of filters.
#[derive(Clone, Copy, Debug, PartialEq, Eq, Error)]
pub enum TftNo {
    /// An identifier to be replaced or removed is not in the list.
    #[error("no filter has this identifier")]
    NoSuchId,
    /// An identifier to be added is in the list.
    #[error("a filter has this identifier")]
    IdTaken,
    /// There is nothing to delete, or no filter would be left.
    #[error("no filter is there, or none would be left")]
    Empty,
    /// Memory ran out: this says nothing of the list.
    #[error("out of memory")]
    NoMemory,
}

impl From<AllocError> for TftNo {
    ghost from_gives = { λ _ e. e ≡ no.NoMemory };

    fn from(_e: AllocError) -> TftNo {
        TftNo::NoMemory
    }
}
