//! The digits of an IMSI.
ghost use Rattle.std.specs.Prelude.{◌≡◌, ◌≤◌, ◌*◌, ◌+◌, length, take, MatchOption, Some, None};
ghost use Rattle.gtpv2_ie.specs.Imsi.{digits_of};
ghost use Rattle.gtpv2_ie.specs.declared.kind.IeKind.TheVariants as kinds;
ghost use Rattle.gtp_c.specs.Element.{value_code, Tells};
ghost use Rattle.gtp_c.specs.Imsi.{imsi_said};

use gtp_c_base::code::{SHORT, VALUE};
use gtpv2_ie::{IeKind, digit_pair};

/// An IMSI: the first `count` of its digits count, 6 to 15, in ASCII.
#[repr(C)]
#[derive(Clone, Copy, Drop)]
pub struct Imsi {
    pub digits: [u8; 16],
    pub count: u8,
}

/// Writes the digits of octets to the start of a buffer for two of each, and says how many they are; None where
/// an octet isn't two digits.
#[tactic(auto, unfolding(gtpv2_ie::specs::Imsi::digits_of))]
fn fill(octets: &[u8], digits: &mut [u8]) -> Option<usize>
    requires { 2 * length octets.now ≤ length digits.old }
    ensures len { length digits.new ≡ length digits.old }
    ensures digits { MatchOption result (digits_of octets.now ≡ None)
        (λ count. (digits_of octets.now ≡ Some (take count digits.new)) × (count ≤ 2 * length octets.now)
        × (2 * length octets.now ≤ count + 1)) }
{
    let [octet, rest @ ..] = octets else {
        return Some(0);
    };
    let (low, high) = digit_pair(*octet, rest.is_empty())?;
    let (first, others) = digits.split_first_mut()?;
    *first = low;
    let Some(high) = high else {
        return Some(1);
    };
    let (second, others) = others.split_first_mut()?;
    *second = high;
    let count = fill(rest, others)?;
    Some(2 + count)
}

/// An IMSI (TS 29.274, section 8.3).
#[tactic(auto, using(crate::proofs::ImsiLemmas::no_value))]
#[unsafe(no_mangle)]
pub extern "C" fn gtp_c_imsi(value: &[u8], imsi: &mut Imsi) -> u32
    ensures code { result ≡ value_code kinds.Imsi value.now }
    ensures value { Tells imsi_said kinds.Imsi value.now imsi.old imsi.new }
{
    if value.len() < IeKind::Imsi.least_len() {
        return SHORT;
    }
    // More octets are more than 15 digits.
    if value.len() > 8 {
        return VALUE;
    }
    let mut digits = [0; 16];
    let Some(count) = fill(value, &mut digits) else {
        return VALUE;
    };
    if count < 6 || count > 15 {
        return VALUE;
    }
    *imsi = Imsi {
        digits,
        count: count as u8,
    };
    0
}
