use crate::element_type;

/// The kinds of element that are read (TS 29.274, table 8.1-1).
#[derive(Clone, Copy, Debug, PartialEq, Eq)]
pub enum IeKind {
    Imsi,
    Cause,
    Recovery,
    /// Access point name.
    Apn,
    /// Aggregate maximum bit rate.
    Ambr,
    /// EPS bearer identity.
    Ebi,
    /// PDN address allocation.
    Paa,
    /// Bearer level quality of service.
    Qos,
    /// Radio access technology type.
    Rat,
    /// Bearer level traffic flow template.
    Tft,
    Fteid,
    /// Bearer Context.
    Context,
    /// PDN type.
    Pdn,
}

impl IeKind {
    ghost use Rattle.std.specs.Prelude.{◌≡◌, IfSome};
    ghost use Rattle.gtpv2_ie.specs.declared.kind.IeKind.{IeKind};
    ghost use Rattle.gtpv2_ie.specs.Kind.{type_octet, least_len, kind_at};

    /// The type octet, and the fewest octets that a value of this kind has.
    fn row(self) -> (u8, usize)
        ensures octet { result.0 ≡ type_octet self }
        ensures least { result.1 ≡ least_len self }
    {
        match self {
            IeKind::Imsi => (element_type::IMSI, 3),
            IeKind::Cause => (element_type::CAUSE, 2),
            IeKind::Recovery => (element_type::RECOVERY, 1),
            IeKind::Apn => (element_type::APN, 1),
            IeKind::Ambr => (element_type::AMBR, 8),
            IeKind::Ebi => (element_type::EBI, 1),
            IeKind::Paa => (element_type::PAA, 5),
            IeKind::Qos => (element_type::BEARER_QOS, 22),
            IeKind::Rat => (element_type::RAT_TYPE, 1),
            IeKind::Tft => (element_type::BEARER_TFT, 1),
            IeKind::Fteid => (element_type::F_TEID, 9),
            IeKind::Context => (element_type::BEARER_CONTEXT, 0),
            IeKind::Pdn => (element_type::PDN_TYPE, 1),
        }
    }

    /// The type octet.
    pub fn octet(self) -> u8
        ensures { result ≡ type_octet self }
    {
        self.row().0
    }

    /// The fewest octets that a value of this kind has.
    pub fn least_len(self) -> usize
        ensures { result ≡ least_len self }
    {
        self.row().1
    }

    /// The kind with this type octet.
    pub fn from_octet(octet: u8) -> Option<IeKind>
        ensures value { IfSome result (λ kind. type_octet kind ≡ octet) }
        ensures found { (kind : IeKind) → type_octet kind ≡ octet → result ≡ Some kind }
        ensures exact { result ≡ kind_at octet }
    {
        match octet {
            element_type::IMSI => Some(IeKind::Imsi),
            element_type::CAUSE => Some(IeKind::Cause),
            element_type::RECOVERY => Some(IeKind::Recovery),
            element_type::APN => Some(IeKind::Apn),
            element_type::AMBR => Some(IeKind::Ambr),
            element_type::EBI => Some(IeKind::Ebi),
            element_type::PAA => Some(IeKind::Paa),
            element_type::BEARER_QOS => Some(IeKind::Qos),
            element_type::RAT_TYPE => Some(IeKind::Rat),
            element_type::BEARER_TFT => Some(IeKind::Tft),
            element_type::F_TEID => Some(IeKind::Fteid),
            element_type::BEARER_CONTEXT => Some(IeKind::Context),
            element_type::PDN_TYPE => Some(IeKind::Pdn),
            _ => None,
        }
    }
}
