//! A packet filter as a C caller has it.
ghost use Rattle.std.specs.Prelude.{◌≡◌, ◌≤◌, ◌<◌, length, map, take, IfSome, IfNone};
ghost use Rattle.gtp_c_base.specs.Filter.{component_said, filter_said};

use tft_codec::{
    Component, Filter, LOCAL_ADDRESS, LOCAL_PORT, LOCAL_PORT_RANGE, PROTOCOL, REMOTE_ADDRESS,
    REMOTE_PORT, REMOTE_PORT_RANGE, SECURITY_PARAMETER_INDEX, TYPE_OF_SERVICE,
};

/// A component: its type octet, and its one or two numbers. One of an unknown type, or with a number that its
/// type hasn't, is fitted by no packet.
#[repr(C)]
#[derive(Clone, Copy, Drop)]
pub struct TftComponent {
    pub first: u32,
    pub second: u32,
    pub kind: u8,
}

/// A filter of a bearer: the first `count` of its components count, nine where it is above.
#[repr(C)]
#[derive(Clone, Copy, Drop)]
pub struct TftFilter {
    pub components: [TftComponent; 9],
    pub bearer: u8,
    pub id: u8,
    pub direction: u8,
    pub precedence: u8,
    pub count: u8,
}

/// The component that the numbers are.
pub fn component_said(said: &TftComponent) -> Component
    ensures { result ≡ component_said said.now }
{
    let (first, second) = (said.first, said.second);
    match said.kind {
        REMOTE_ADDRESS => Component::RemoteAddr(first, second),
        LOCAL_ADDRESS => Component::LocalAddr(first, second),
        PROTOCOL if first < 256 => Component::Protocol(first as u8),
        LOCAL_PORT if first < 65_536 => Component::LocalPort(first as u16),
        LOCAL_PORT_RANGE if first < 65_536 && second < 65_536 => {
            Component::LocalRange(first as u16, second as u16)
        }
        REMOTE_PORT if first < 65_536 => Component::RemotePort(first as u16),
        REMOTE_PORT_RANGE if first < 65_536 && second < 65_536 => {
            Component::RemoteRange(first as u16, second as u16)
        }
        SECURITY_PARAMETER_INDEX => Component::Spi(first),
        TYPE_OF_SERVICE if first < 256 && second < 256 => Component::Tos(first as u8, second as u8),
        _ => Component::LocalRange(1, 0),
    }
}

/// The numbers of a component.
pub fn numbers_of(component: Component) -> TftComponent
    ensures { component_said result ≡ component }
{
    let (first, second) = match component {
        Component::RemoteAddr(address, mask) | Component::LocalAddr(address, mask) => (
            address, mask,
        ),
        Component::Protocol(number) => (u32::from(number), 0),
        Component::LocalPort(port) | Component::RemotePort(port) => (u32::from(port), 0),
        Component::LocalRange(low, high) | Component::RemoteRange(low, high) => {
            (u32::from(low), u32::from(high))
        }
        Component::Spi(index) => (index, 0),
        Component::Tos(value, mask) => (u32::from(value), u32::from(mask)),
    };
    TftComponent {
        first,
        second,
        kind: component.type_octet(),
    }
}

/// Writes the numbers of components to the start of others.
fn write_components(components: &[Component], said: &mut [TftComponent])
    requires { length components.now ≤ length said.old }
    ensures len { length said.new ≡ length said.old }
    ensures prefix { map component_said (take (length components.now) said.new) ≡ components.now }
{
    if let [one, rest @ ..] = components
        && let Some((first, others)) = said.split_first_mut()
    {
        *first = numbers_of(*one);
        write_components(rest, others);
    }
}

/// The struct of a bearer's filter; None exactly where it has more than nine components.
pub fn struct_of(filter: &Filter, bearer: u8) -> Option<TftFilter>
    ensures filter { IfSome result (λ said. (filter_said said ≡ filter.now) × (said.bearer ≡ bearer)) }
    ensures many { IfNone result (9 < length filter.now.components) }
{
    let list = filter.components.as_slice();
    if list.len() > 9 {
        return None;
    }
    let mut components = [TftComponent {
        first: 0,
        second: 0,
        kind: 0,
    }; 9];
    write_components(list, &mut components);
    Some(TftFilter {
        components,
        bearer,
        id: filter.id,
        direction: filter.direction,
        precedence: filter.precedence,
        count: list.len() as u8,
    })
}
