ghost use Rattle.std.specs.Prelude.{◌≡◌};
ghost use Rattle.gtpv2_msg.specs.Lookup.{is_of};

use crate::walk::Contexts;
use gtpv2_ie::{Ie, IeKind, IeValue};
use std::alloc::AllocError as NoMemory;
use std::marker::Model;

/// The elements of a message, in their order. Seen as their list.
#[derive(Clone, Debug, Drop)]
pub struct Ies {
    entries: Vec<Ie>,
}

impl Model for Ies {
    ghost use Rattle.std.specs.Prelude.{List};
    ghost use Rattle.gtpv2_ie.specs.Element.{Element};

    ghost Value = { List Element };

    ghost view = { λ s. s.entries.items };
}

/// Whether an element is of a kind and an instance.
fn is_of(ie: &Ie, kind: IeKind, instance: u8) -> bool
    ensures { result ≡ is_of kind instance ie.now }
{
    ie.value.kind().octet() == kind.octet() && ie.instance == instance
}

impl Ies {
    ghost use Rattle.std.specs.Prelude.{◌≡◌, IfOk};
    ghost use Rattle.std.specs.Option.{option_copied};
    ghost use Rattle.gtpv2_msg.specs.Lookup.{contexts_of, first_value};

    /// These elements. Takes no memory.
    pub fn of(entries: Vec<Ie>) -> Ies
        ensures { result ≡ entries.items }
    {
        Ies { entries }
    }

    /// Lends the elements. Takes no memory.
    pub fn as_slice(&self) -> &[Ie]
        ensures { result.now ≡ self.now }
    {
        self.entries.as_slice()
    }

    /// The value of the first element of a kind and instance.
    pub fn first(&self, kind: IeKind, instance: u8) -> Option<&IeValue>
        ensures { option_copied result ≡ first_value kind instance self.now }
    {
        let first = self.as_slice().iter().find(|ie| is_of(ie, kind, instance))?;
        Some(&first.value)
    }

    /// The Contexts of instance 0, in their order.
    pub fn contexts(&self) -> Contexts<'_>
        ensures { result ≡ contexts_of self.now }
    {
        Contexts::of(self.as_slice())
    }

    /// A copy of the elements.
    pub fn try_clone(&self) -> Result<Self, NoMemory>
        ensures { IfOk result (λ copy. copy ≡ self.now) }
    {
        self.clone()
    }
}

impl PartialEq for Ies {
    ghost use Rattle.std.specs.Cmp.Lexicographic.{pointwise, lists_per};
    ghost use Rattle.gtpv2_ie.specs.contracts.value.IePartialEq.TheImpl as element;
    ghost use Rattle.gtpv2_ie.specs.contracts.value.IePartialEq.TheImpl.Laws as element_laws;

    ghost eq = { pointwise element.ghosts.eq };

    ghost laws = { lists_per element_laws.laws-law };

    fn eq(&self, other: &Ies) -> bool {
        self.entries == other.entries
    }
}

impl Eq for Ies {
    ghost use Rattle.std.proofs.lemmas.Cmp.{lists_equiv};
    ghost use Rattle.gtpv2_ie.specs.contracts.value.IeEq.TheImpl.Laws as element_laws;

    ghost laws = { lists_equiv element_laws.laws-law };
}

/// A GTPv2-C message: its type is one of the eighteen, and its length fits the length field.
#[derive(Debug, Drop, PartialEq, Eq)]
pub struct Msg {
    pub kind: u8,
    /// The tunnel endpoint in the header; without it T is 0.
    pub teid: Option<u32>,
    /// The sequence number, below 2^24.
    pub seq: u32,
    pub ies: Ies,
}

impl Model for Msg {
    ghost use Rattle.gtpv2_msg.specs.Message.{Message};

    ghost Value = { Message };

    ghost use Rattle.gtpv2_msg.specs.Validity.{IsMessage};

    ghost view = { λ m. record { kind = m.kind; teid = m.teid; seq = m.seq; ies = m.ies } };

    ghost inverse = { λ m. record { kind = m.kind; teid = m.teid; seq = m.seq; ies = m.ies } };

    ghost invariant = { λ m. IsMessage (record { kind = m.kind; teid = m.teid; seq = m.seq; ies = m.ies }) };
}

impl Msg {
    ghost use Rattle.std.specs.Prelude.{◌≡◌, IfOk};
    ghost use Rattle.std.specs.Option.{option_copied};
    ghost use Rattle.gtpv2_msg.specs.Lookup.{contexts_of, first_value};

    /// The value of the first element of a kind and instance.
    pub fn first(&self, kind: IeKind, instance: u8) -> Option<&IeValue>
        ensures { option_copied result ≡ first_value kind instance self.now.ies }
    {
        self.ies.first(kind, instance)
    }

    /// The Contexts of instance 0, in their order.
    pub fn contexts(&self) -> Contexts<'_>
        ensures { result ≡ contexts_of self.now.ies }
    {
        self.ies.contexts()
    }

    /// A copy of the message.
    pub fn try_clone(&self) -> Result<Self, NoMemory>
        ensures { IfOk result (λ copy. copy ≡ self.now) }
    {
        Ok(Msg {
            kind: self.kind,
            teid: self.teid,
            seq: self.seq,
            ies: self.ies.try_clone()?,
        })
    }
}
