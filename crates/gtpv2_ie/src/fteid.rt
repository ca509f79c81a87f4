ghost use Rattle.std.specs.Prelude.{◌≡◌, ◌≤◌, ◌<◌, ◌++◌, length, IfSome, OnOk};
ghost use Rattle.gtpv2_ie.specs.Fields.{fteid_of};
ghost use Rattle.gtpv2_ie.specs.Kind.{least_len};
ghost use Rattle.gtpv2_ie.specs.Spelling.{ie_octets, fteid_octets};
ghost use Rattle.gtpv2_ie.specs.Validity.{IsFteid};

use crate::kind::IeKind;
use crate::writing::push_header;
use std::alloc::AllocError as NoMemory;
use std::marker::Model;
use wire_octets::{be32_at, be32_octets};

/// The highest bit of an F-TEID's first octet: an IPv4 address stands in it.
const V4: u8 = 128;

/// A fully qualified tunnel endpoint with an IPv4 address (TS 29.274, 8.22).
/// 1: V4 * V6 * interface (6)   2-5: TEID   6-9: IPv4 address
#[derive(Clone, Copy, Debug, PartialEq, Eq)]
pub struct Fteid {
    /// The interface type, below 64: 0 S1-U eNodeB, 1 S1-U SGW, 10 S11 MME, 11 S11 SGW.
    pub interface: u8,
    pub teid: u32,
    pub addr: u32,
}

/// The F-TEIDs of a Bearer Context, each behind its instance. Seen as their list.
#[derive(Clone, Debug, Drop)]
pub struct Fteids {
    entries: Vec<(u8, Fteid)>,
}

impl Model for Fteids {
    ghost use Rattle.std.specs.Prelude.{List, ℕ};
    ghost use Rattle.gtpv2_ie.specs.declared.fteid.Fteid.{Fteid};

    ghost Value = { List (ℕ × Fteid) };

    ghost view = { λ s. s.entries.items };
}

impl Fteids {
    ghost use Rattle.std.specs.Prelude.{◌≡◌, [], ◌∷◌, ◌++◌, IfOk, OnOk};

    /// These F-TEIDs. Takes no memory.
    pub fn of(entries: Vec<(u8, Fteid)>) -> Fteids
        ensures { result ≡ entries.items }
    {
        Fteids { entries }
    }

    /// Lends the F-TEIDs. Takes no memory.
    pub fn as_slice(&self) -> &[(u8, Fteid)]
        ensures { result.now ≡ self.now }
    {
        self.entries.as_slice()
    }

    /// A copy of the list.
    pub fn try_clone(&self) -> Result<Self, NoMemory>
        ensures { IfOk result (λ copy. copy ≡ self.now) }
    {
        self.clone()
    }

    /// Appends an F-TEID.
    pub(crate) fn push(&mut self, instance: u8, fteid: Fteid) -> Result<(), NoMemory>
        ensures { OnOk result (self.new ≡ self.old ++ (instance, fteid) ∷ []) }
    {
        self.entries.push((instance, fteid))?;
        Ok(())
    }
}

impl PartialEq for Fteids {
    ghost use Rattle.std.specs.Cmp.{partial_equiv_from_equiv};
    ghost use Rattle.std.specs.Cmp.Lexicographic.{pointwise};
    ghost use Rattle.std.proofs.lemmas.Cmp.{lists_equiv};
    ghost use Rattle.gtpv2_ie.specs.Same.{same_fteid, same_fteid-is};

    ghost eq = { pointwise same_fteid };

    ghost laws = { partial_equiv_from_equiv (lists_equiv same_fteid-is) };

    fn eq(&self, other: &Fteids) -> bool {
        self.entries == other.entries
    }
}

impl Eq for Fteids {
    ghost use Rattle.std.proofs.lemmas.Cmp.{lists_equiv};
    ghost use Rattle.gtpv2_ie.specs.Same.{same_fteid-is};

    ghost laws = { lists_equiv same_fteid-is };
}

/// The F-TEID that nine octets or more spell; None where V4 isn't set (TS 29.274, section 8.22).
pub fn fteid_of(octets: &[u8]) -> Option<Fteid>
    requires { least_len IeKind.Fteid ≤ length octets.now }
    ensures value { result ≡ fteid_of octets.now }
    ensures valid { IfSome result IsFteid }
{
    let first = octets[0];
    if first < V4 {
        return None;
    }
    Some(Fteid {
        interface: first & 63,
        teid: be32_at(octets, 1),
        addr: be32_at(octets, 5),
    })
}

/// Appends an F-TEID as an element.
pub fn push_fteid(out: &mut Vec<u8>, instance: u8, fteid: &Fteid) -> Result<(), NoMemory>
    requires { fteid.now.interface < 64 }
    ensures { OnOk result (out.new.items ≡ out.old.items ++ ie_octets 87 instance (fteid_octets fteid.now)) }
{
    push_header(out, IeKind::Fteid, instance, 9)?;
    out.push(V4 + fteid.interface)?;
    out.extend_from_slice(&be32_octets(fteid.teid))?;
    out.extend_from_slice(&be32_octets(fteid.addr))
}
