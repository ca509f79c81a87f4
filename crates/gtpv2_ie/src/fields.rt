ghost use Rattle.std.specs.Prelude.{◌≡◌, ◌≤◌, length, IfOk, IfSome};
ghost use Rattle.gtpv2_ie.specs.Fields as grammar;
ghost use Rattle.gtpv2_ie.specs.Kind.{least_len};
ghost use Rattle.gtpv2_ie.specs.Validity.{IsEbi};

use crate::kind::IeKind;
use pc_base::Octets;
use std::alloc::{AllocError as NoMemory, Global};
use wire_octets::be32_at;

/// The EPS bearer identity that one octet or more spell, 0 or 5 to 15 (TS 29.274, section 8.8).
pub fn ebi_of(octets: &[u8]) -> Option<u8>
    requires { least_len IeKind.Ebi ≤ length octets.now }
    ensures value { result ≡ grammar.ebi_of octets.now }
    ensures valid { IfSome result IsEbi }
{
    let ebi = octets[0] & 15;
    if ebi == 0 || ebi >= 5 {
        Some(ebi)
    } else {
        None
    }
}

/// The PDN type that one octet or more spell, 1 to 3 (TS 29.274, section 8.34).
pub fn pdn_of(octets: &[u8]) -> Option<u8>
    requires { least_len IeKind.Pdn ≤ length octets.now }
    ensures { result ≡ grammar.pdn_of octets.now }
{
    let pdn = octets[0] & 7;
    if pdn >= 1 && pdn <= 3 {
        Some(pdn)
    } else {
        None
    }
}

/// The IPv4 address that five octets or more spell as a PDN address allocation; None where the PDN type there isn't
/// IPv4 (TS 29.274, section 8.14).
pub fn paa_of(octets: &[u8]) -> Option<u32>
    requires { least_len IeKind.Paa ≤ length octets.now }
    ensures { result ≡ grammar.paa_of octets.now }
{
    if octets[0] & 7 == 1 {
        Some(be32_at(octets, 1))
    } else {
        None
    }
}

/// Octets that are not looked into, at most so many.
pub fn octets_of(alloc: Global, octets: &[u8], most: usize) -> Result<Option<Octets>, NoMemory>
    ensures { IfOk result (λ found. found ≡ grammar.octets_of most octets.now) }
{
    if octets.len() <= most {
        Ok(Some(Octets::of(Vec::from_slice(alloc, octets)?)))
    } else {
        Ok(None)
    }
}
