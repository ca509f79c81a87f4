ghost use Rattle.std.specs.Prelude.{◌≡◌};
ghost use Rattle.gtpv2_msg.specs.declared.fault.CBad.TheVariants.{NoMemory as OutOfMemory};

use std::alloc::AllocError;
use thiserror::Error;

/// Why octets are no message, in the order of looking, or that memory ran out.
#[derive(Clone, Copy, Debug, PartialEq, Eq, Error)]
pub enum CBad {
    /// Fewer than eight octets.
    #[error("fewer than eight octets")]
    Short,
    /// The version isn't 2.
    #[error("the version isn't 2")]
    Version,
    /// Another message is piggybacked.
    #[error("another message is piggybacked")]
    Piggyback,
    /// The length passes the end, or doesn't reach the end of the header; or the elements behind
    /// the header don't read.
    #[error("the length or the elements pass the end")]
    Length,
    /// The message type isn't known.
    #[error("the message type isn't known")]
    Kind,
    /// A required element of this type and instance is absent.
    #[error("the required element of type {kind} and instance {instance} is missing")]
    Missing { kind: u8, instance: u8 },
    /// The first element of this type and instance, which is required, is outside its grammar.
    #[error("the required element of type {kind} and instance {instance} is incorrect")]
    Incorrect { kind: u8, instance: u8 },
    /// Memory ran out.
    #[error("memory ran out")]
    NoMemory,
}

impl From<AllocError> for CBad {
    ghost from_gives = { λ _ bad. bad ≡ OutOfMemory };

    fn from(_failed: AllocError) -> CBad {
        CBad::NoMemory
    }
}
