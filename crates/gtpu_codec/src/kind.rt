//! The types of message.
ghost use Rattle.std.specs.Prelude.{◌≡◌, IfSome};
ghost use Rattle.gtpu_codec.specs.declared.kind.GtpUKind.{GtpUKind};
ghost use Rattle.gtpu_codec.specs.Kind.{kind_of, type_octet};

/// The types of message that are spoken here (TS 29.281, table 6.1-1).
#[derive(Clone, Copy, Debug, PartialEq, Eq)]
pub enum GtpUKind {
    EchoRequest,
    EchoResponse,
    ErrorIndication,
    EndMarker,
    Gpdu,
}

impl GtpUKind {
    /// The type of message with this type octet; None where it isn't spoken here.
    #[inline(always)]
    #[tactic(auto, unfolding(crate::specs::Kind::kind_of))]
    pub fn from_octet(octet: u8) -> Option<GtpUKind>
        ensures value { IfSome result (λ kind. type_octet kind ≡ octet) }
        ensures listed { result ≡ kind_of octet }
        ensures found { (kind : GtpUKind) → type_octet kind ≡ octet → result ≡ Some kind }
    {
        match octet {
            1 => Some(GtpUKind::EchoRequest),
            2 => Some(GtpUKind::EchoResponse),
            26 => Some(GtpUKind::ErrorIndication),
            254 => Some(GtpUKind::EndMarker),
            255 => Some(GtpUKind::Gpdu),
            _ => None,
        }
    }

    /// The type octet of this type of message.
    pub fn octet(self) -> u8
        ensures { result ≡ type_octet self }
    {
        match self {
            GtpUKind::EchoRequest => 1,
            GtpUKind::EchoResponse => 2,
            GtpUKind::ErrorIndication => 26,
            GtpUKind::EndMarker => 254,
            GtpUKind::Gpdu => 255,
        }
    }
}
