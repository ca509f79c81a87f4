//! The components of a packet filter.

ghost use Rattle.std.specs.Prelude.{◌≡◌, IfOk, length, nat_eq};
ghost use Rattle.tft_codec.specs.Component.{type_octet, component_text, AreComponents};
ghost use Rattle.std.specs.List.{list_any};
ghost use Rattle.std.specs.Cmp.Lexicographic.{pointwise, lists_per, lists_equiv};

use crate::NoMemory;
use std::marker::Model;

/// Component type: an IPv4 remote address and its mask (TS 24.008, table 10.5.162, as those below).
pub const REMOTE_ADDRESS: u8 = 0x10;

/// Component type: an IPv4 local address and its mask.
pub const LOCAL_ADDRESS: u8 = 0x11;

/// Component type: a protocol number.
pub const PROTOCOL: u8 = 0x30;

/// Component type: one local port.
pub const LOCAL_PORT: u8 = 0x40;

/// Component type: a range of local ports.
pub const LOCAL_PORT_RANGE: u8 = 0x41;

/// Component type: one remote port.
pub const REMOTE_PORT: u8 = 0x50;

/// Component type: a range of remote ports.
pub const REMOTE_PORT_RANGE: u8 = 0x51;

/// Component type: a security parameter index.
pub const SECURITY_PARAMETER_INDEX: u8 = 0x60;

/// Component type: a type of service and its mask.
pub const TYPE_OF_SERVICE: u8 = 0x70;

/// One condition on a packet. Remote is the far end, local the user's.
#[derive(Clone, Copy, Debug, PartialEq, Eq)]
pub enum Component {
    /// IPv4 address and mask.
    RemoteAddr(u32, u32),
    /// IPv4 address and mask.
    LocalAddr(u32, u32),
    /// Protocol number of the IPv4 header.
    Protocol(u8),
    LocalPort(u16),
    /// Lowest and highest port. One with low above high is fitted by no port.
    LocalRange(u16, u16),
    RemotePort(u16),
    /// Lowest and highest port. One with low above high is fitted by no port.
    RemoteRange(u16, u16),
    /// Security parameter index of ESP or AH.
    Spi(u32),
    /// Type of service and mask.
    Tos(u8, u8),
}

impl Component {
    /// The type octet. No two components of a filter have the same.
    pub fn type_octet(&self) -> u8
        ensures { result ≡ type_octet self.now }
    {
        match self {
            Component::RemoteAddr(_, _) => REMOTE_ADDRESS,
            Component::LocalAddr(_, _) => LOCAL_ADDRESS,
            Component::Protocol(_) => PROTOCOL,
            Component::LocalPort(_) => LOCAL_PORT,
            Component::LocalRange(_, _) => LOCAL_PORT_RANGE,
            Component::RemotePort(_) => REMOTE_PORT,
            Component::RemoteRange(_, _) => REMOTE_PORT_RANGE,
            Component::Spi(_) => SECURITY_PARAMETER_INDEX,
            Component::Tos(_, _) => TYPE_OF_SERVICE,
        }
    }

    /// How many octets the component takes, the type octet among them: 2 to 9.
    pub(crate) fn text_len(&self) -> usize
        ensures { result ≡ length (component_text self.now) }
    {
        match self {
            Component::RemoteAddr(_, _) | Component::LocalAddr(_, _) => 9,
            Component::Protocol(_) => 2,
            Component::LocalPort(_) | Component::RemotePort(_) => 3,
            Component::LocalRange(_, _) | Component::RemoteRange(_, _) | Component::Spi(_) => 5,
            Component::Tos(_, _) => 3,
        }
    }
}

/// Whether one of the components has that type.
pub(crate) fn has_type(items: &[Component], octet: u8) -> bool
    ensures { result ≡ list_any (λ c. nat_eq octet (type_octet c)) items.now }
{
    items.iter().any(|item| octet == item.type_octet())
}

/// The components of one filter, of different types, in the order of their octets. They are made by reading.
#[derive(Debug, Drop)]
pub struct Components {
    pub(crate) items: Vec<Component>,
}

impl Model for Components {
    ghost use Rattle.std.specs.Prelude.{List};
    ghost use Rattle.tft_codec.specs.declared.component.Component.{Component};
    ghost use Rattle.tft_codec.specs.Component.{AreComponents};

    ghost Value = { List Component };

    ghost view = { λ cs. cs.items.items };

    ghost invariant = { λ cs. AreComponents cs.items.items };
}

impl Components {
    pub fn as_slice(&self) -> &[Component]
        ensures value { result.now ≡ self.now }
        ensures differ { AreComponents self.now }
    {
        &self.items
    }

    /// A copy of the list.
    pub fn try_clone(&self) -> Result<Components, NoMemory>
        ensures { IfOk result (λ copy. copy ≡ self.now) }
    {
        Ok(Components {
            items: self.items.clone()?,
        })
    }
}

impl PartialEq for Components {
    ghost use Rattle.tft_codec.specs.contracts.component.ComponentPartialEq.TheImpl as component;
    ghost use Rattle.tft_codec.specs.contracts.component.ComponentPartialEq.TheImpl.Laws.{laws-law};

    ghost eq = { pointwise component.ghosts.eq };

    ghost laws = { lists_per laws-law };

    fn eq(&self, other: &Components) -> bool {
        self.items == other.items
    }
}

impl Eq for Components {
    ghost use Rattle.tft_codec.specs.contracts.component.ComponentEq.TheImpl.Laws.{laws-law};

    ghost laws = { lists_equiv laws-law };
}
