//! The international mobile subscriber identity.
ghost use Rattle.std.specs.Prelude.{◌≡◌, MatchBool, Some};
ghost use Rattle.std.specs.Option.{SomeIff};
ghost use Rattle.pc_base.specs.Imsi.{IsImsi};

use crate::text::ascii_text;
use std::fmt;
use std::marker::Model;

/// An IMSI (TS 23.003, section 2.2), 6 to 15 ASCII digits. A contract sees the list of its
/// digits, and it prints as these.
#[derive(Clone, Copy, PartialEq, Eq, Hash)]
pub struct Imsi {
    /// The digits, with zero octets behind them.
    digits: [u8; 15],
    len: u8,
}

impl Model for Imsi {
    ghost use Rattle.std.specs.Prelude.{◌≡◌, ℕ, ◌-◌, ◌≤◌, ◌++◌, List, length, take, drop, replicate};
    ghost use Rattle.pc_base.specs.Imsi.{IsImsi};
    ghost use Rattle.pc_base.specs.Padding.{length-prefix, prefix-append-zeros};

    ghost Value = { List ℕ };

    ghost view = { λ imsi. take imsi.len imsi.digits };

    ghost invariant = { λ imsi. IsImsi (take imsi.len imsi.digits) × (length imsi.digits ≡ 15) × (imsi.len ≤ 15)
        × (drop imsi.len imsi.digits ≡ replicate (15 - imsi.len) 0) };

    ghost inverse = { λ digits. record { digits = digits ++ replicate (15 - length digits) 0; len = length digits } };

    ghost inverse_ok = { λ imsi kept i. record {
      digits = prefix-append-zeros imsi.digits imsi.len kept.1 kept.2 kept.3 i;
      len = length-prefix imsi.digits imsi.len kept.1 kept.2 i;
    } };
}

impl Imsi {
    /// These digits as an IMSI; None exactly where they aren't 6 to 15 ASCII digits.
    pub fn of(digits: &[u8]) -> Option<Imsi>
        ensures { SomeIff result (IsImsi digits.now) digits.now }
    {
        if !is_imsi(digits) {
            return None;
        }
        let mut padded = [0; 15];
        padded[..digits.len()].copy_from_slice(digits);
        Some(Imsi {
            digits: padded,
            len: digits.len() as u8,
        })
    }

    /// The digits that it was made of.
    pub fn digits(&self) -> &[u8]
        ensures value { result.now ≡ self.now }
        ensures valid { IsImsi result.now }
    {
        &self.digits[..self.len as usize]
    }
}

impl fmt::Display for Imsi {
    ghost output = { λ digits. Some digits };

    fn fmt<W: fmt::Write>(&self, f: &mut fmt::Formatter<W>) -> fmt::Result {
        f.pad(ascii_text(self.digits()))
    }
}

impl fmt::Debug for Imsi {
    fn fmt<W: fmt::Write>(&self, f: &mut fmt::Formatter<W>) -> fmt::Result {
        fmt::Display::fmt(self, f)
    }
}

fn is_imsi(digits: &[u8]) -> bool
    ensures { MatchBool result (IsImsi digits.now) (¬ IsImsi digits.now) }
{
    digits.len() >= 6 && digits.len() <= 15 && digits.iter().all(|digit| digit.is_ascii_digit())
}
