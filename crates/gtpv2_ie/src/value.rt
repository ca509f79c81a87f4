use crate::cause::CauseIe;
use crate::context::Context;
use crate::fteid::Fteid;
use crate::kind::IeKind;
use crate::qos::QosIe;
use pc_base::Octets;
use std::alloc::AllocError as NoMemory;
use std::fmt;
use std::marker::Model;

/// The value of an element of a kind that is read. Octets print as hexadecimal digits, an IMSI as its
/// own digits.
#[derive(Clone, Drop, PartialEq, Eq)]
pub enum IeValue {
    /// 6 to 15 digits in ASCII.
    Imsi(Octets),
    Cause(CauseIe),
    /// The restart counter.
    Recovery(u8),
    /// 1 to 100 octets, not looked into.
    Apn(Octets),
    /// Uplink and downlink, in kbps.
    Ambr(u32, u32),
    /// The EPS bearer identity: 0 or 5 to 15.
    Ebi(u8),
    /// An IPv4 address.
    Paa(u32),
    Qos(QosIe),
    /// The radio access technology.
    Rat(u8),
    /// 1 to 1,000 octets, not looked into.
    Tft(Octets),
    Fteid(Fteid),
    Context(Context),
    /// The PDN type: 1 IPv4, 2 IPv6, 3 both.
    Pdn(u8),
}

impl IeValue {
    ghost use Rattle.std.specs.Prelude.{◌≡◌, IfOk};
    ghost use Rattle.gtpv2_ie.specs.Spelling.{kind_of};

    /// The kind of the element.
    pub fn kind(&self) -> IeKind
        ensures { result ≡ kind_of self.now }
    {
        match self {
            IeValue::Imsi(_) => IeKind::Imsi,
            IeValue::Cause(_) => IeKind::Cause,
            IeValue::Recovery(_) => IeKind::Recovery,
            IeValue::Apn(_) => IeKind::Apn,
            IeValue::Ambr(_, _) => IeKind::Ambr,
            IeValue::Ebi(_) => IeKind::Ebi,
            IeValue::Paa(_) => IeKind::Paa,
            IeValue::Qos(_) => IeKind::Qos,
            IeValue::Rat(_) => IeKind::Rat,
            IeValue::Tft(_) => IeKind::Tft,
            IeValue::Fteid(_) => IeKind::Fteid,
            IeValue::Context(_) => IeKind::Context,
            IeValue::Pdn(_) => IeKind::Pdn,
        }
    }

    /// A copy of the value.
    pub fn try_clone(&self) -> Result<Self, NoMemory>
        ensures { IfOk result (λ copy. copy ≡ self.now) }
    {
        self.clone()
    }
}

/// Prints ASCII digits as they are.
#[derive(Drop)]
struct Digits<'a>(&'a Octets);

impl fmt::Debug for Digits<'_> {
    fn fmt<W: fmt::Write>(&self, f: &mut fmt::Formatter<W>) -> fmt::Result {
        for digit in self.0.as_slice() {
            write!(f, "{}", char::from(*digit))?;
        }
        Ok(())
    }
}

impl fmt::Debug for IeValue {
    fn fmt<W: fmt::Write>(&self, f: &mut fmt::Formatter<W>) -> fmt::Result {
        match self {
            IeValue::Imsi(digits) => f.debug_tuple("Imsi").field(&Digits(digits)).finish(),
            IeValue::Cause(cause) => f.debug_tuple("Cause").field(cause).finish(),
            IeValue::Recovery(counter) => f.debug_tuple("Recovery").field(counter).finish(),
            IeValue::Apn(octets) => f.debug_tuple("Apn").field(octets).finish(),
            IeValue::Ambr(up, down) => f.debug_tuple("Ambr").field(up).field(down).finish(),
            IeValue::Ebi(ebi) => f.debug_tuple("Ebi").field(ebi).finish(),
            IeValue::Paa(addr) => f.debug_tuple("Paa").field(addr).finish(),
            IeValue::Qos(qos) => f.debug_tuple("Qos").field(qos).finish(),
            IeValue::Rat(rat) => f.debug_tuple("Rat").field(rat).finish(),
            IeValue::Tft(octets) => f.debug_tuple("Tft").field(octets).finish(),
            IeValue::Fteid(fteid) => f.debug_tuple("Fteid").field(fteid).finish(),
            IeValue::Context(context) => f.debug_tuple("Context").field(context).finish(),
            IeValue::Pdn(pdn) => f.debug_tuple("Pdn").field(pdn).finish(),
        }
    }
}

/// An information element: its instance, below 16, and its value, whose numbers are in their
/// ranges and whose octets fit the length field.
#[derive(Debug, Drop, PartialEq, Eq)]
pub struct Ie {
    pub instance: u8,
    pub value: IeValue,
}

impl Model for Ie {
    ghost use Rattle.gtpv2_ie.specs.Element.{Element};

    ghost Value = { Element };

    ghost use Rattle.gtpv2_ie.specs.Validity.{IsElement};

    ghost view = { λ ie. record { instance = ie.instance; value = ie.value } };

    ghost inverse = { λ ie. record { instance = ie.instance; value = ie.value } };

    ghost invariant = { λ ie. IsElement (record { instance = ie.instance; value = ie.value }) };
}

impl Ie {
    ghost use Rattle.std.specs.Prelude.{◌≡◌, IfOk};

    /// A copy of the element.
    pub fn try_clone(&self) -> Result<Self, NoMemory>
        ensures { IfOk result (λ copy. copy ≡ self.now) }
    {
        Ok(Ie {
            instance: self.instance,
            value: self.value.try_clone()?,
        })
    }
}

impl Clone for Ie {
    ghost use Rattle.std.specs.Prelude.{◌≡◌};

    ghost is_clone = { λ it copy. copy ≡ it };

    fn clone(&self) -> Result<Self, NoMemory> {
        self.try_clone()
    }
}
