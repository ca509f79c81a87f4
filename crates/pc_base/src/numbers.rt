//! Numbers with a range. A contract sees each as its number; who writes one shows that it is in range.
ghost use Rattle.std.specs.Prelude.{ℕ, ◌^◌, ◌<◌, ◌≤◌, Some, decimal};
ghost use Rattle.std.specs.Int.{w32, to_be_bytes};
ghost use Rattle.hex.specs.Hex.{encode_lower};
ghost use Rattle.text_fields.specs.Address.{dotted};
ghost use Rattle.pc_base.specs.Slots.{IsSlot};

use crate::text::ascii_text;
use std::fmt;
use std::marker::Model;
use std::net::Ipv4Addr;

/// The number of a subscriber in the order of first admission, from 0 to 65,532.
#[derive(Clone, Copy, Debug, PartialEq, Eq, PartialOrd, Ord, Hash)]
pub struct Slot(pub u32);

impl Model for Slot {
    ghost Value = { ℕ };

    ghost view = { λ slot. slot.0 };

    ghost invariant = { λ slot. IsSlot slot.0 };

    ghost inverse = { λ number. record { 0 = number } };
}

/// The number of a slice of the gateway, from 0 to 63.
#[derive(Clone, Copy, Debug, PartialEq, Eq, PartialOrd, Ord)]
pub struct SliceNo(pub u8);

impl Model for SliceNo {
    ghost Value = { ℕ };

    ghost view = { λ slice. slice.0 };

    ghost invariant = { λ slice. slice.0 ≤ 63 };

    ghost inverse = { λ number. record { 0 = number } };
}

/// A tunnel endpoint identifier (TS 29.281, section 3.1). It prints as in a trace: the eight hexadecimal digits of
/// its four octets, in lower case.
#[derive(Clone, Copy, Debug, PartialEq, Eq)]
pub struct Teid(pub u32);

impl Model for Teid {
    ghost Value = { ℕ };

    ghost view = { λ teid. teid.0 };

    ghost inverse = { λ number. record { 0 = number } };
}

impl fmt::Display for Teid {
    ghost output = { λ teid. Some (encode_lower (to_be_bytes w32 teid)) };

    fn fmt<W: fmt::Write>(&self, f: &mut fmt::Formatter<W>) -> fmt::Result {
        let octets = self.0.to_be_bytes();
        let mut digits = [0; 8];
        match hex::encode_to_slice(octets.as_slice(), &mut digits) {
            Ok(()) => f.pad(ascii_text(&digits)),
            Err(_) => unreachable!(),
        }
    }
}

/// An IPv4 address, its first octet the most significant (RFC 791). It prints as four decimal numbers with a dot
/// between each two.
#[derive(Clone, Copy, Debug, PartialEq, Eq)]
pub struct Addr4(pub u32);

impl Model for Addr4 {
    ghost Value = { ℕ };

    ghost view = { λ address. address.0 };

    ghost inverse = { λ number. record { 0 = number } };
}

impl fmt::Display for Addr4 {
    ghost output = { λ address. Some (dotted address) };

    fn fmt<W: fmt::Write>(&self, f: &mut fmt::Formatter<W>) -> fmt::Result {
        fmt::Display::fmt(&Ipv4Addr::from_octets(self.0.to_be_bytes()), f)
    }
}

/// A point in time in microseconds, below 2^50. It prints as its number, in decimal.
#[derive(Clone, Copy, Debug, PartialEq, Eq, PartialOrd, Ord)]
pub struct Moment(pub u64);

impl Model for Moment {
    ghost Value = { ℕ };

    ghost view = { λ moment. moment.0 };

    ghost invariant = { λ moment. moment.0 < 2 ^ 50 };

    ghost inverse = { λ number. record { 0 = number } };
}

impl fmt::Display for Moment {
    ghost output = { λ moment. Some (decimal moment) };

    fn fmt<W: fmt::Write>(&self, f: &mut fmt::Formatter<W>) -> fmt::Result {
        fmt::Display::fmt(&self.0, f)
    }
}

/// A bit rate in kilobits a second, below 2^40.
#[derive(Clone, Copy, Debug, PartialEq, Eq, PartialOrd, Ord)]
pub struct Kbps(pub u64);

impl Model for Kbps {
    ghost Value = { ℕ };

    ghost view = { λ rate. rate.0 };

    ghost invariant = { λ rate. rate.0 < 2 ^ 40 };

    ghost inverse = { λ number. record { 0 = number } };
}
