ghost use Rattle.std.specs.Prelude.{◌≡◌, ◌+◌, ◌<◌, ◌≤◌, ◌^◌, ◌++◌, length, OnOk};
ghost use Rattle.gtpv2_ie.specs.Fields.{qos_of};
ghost use Rattle.gtpv2_ie.specs.Kind.{least_len};
ghost use Rattle.wire_octets.specs.Numbers.{be40_at, be40_octets};
ghost use Rattle.gtpv2_ie.specs.Spelling.{ie_octets, qos_octets};
ghost use Rattle.gtpv2_ie.specs.Validity.{IsQos};

use crate::kind::IeKind;
use crate::writing::push_header;
use std::alloc::AllocError as NoMemory;
use wire_octets::{be40_at, be40_octets};

/// A Bearer Level QoS (TS 29.274, 8.15). Rates are in kbps, below 2^40.
/// 1: ARP   2: QCI   3-7: MBR up   8-12: MBR down   13-17: GBR up   18-22: GBR down
#[derive(Clone, Copy, Debug, PartialEq, Eq)]
pub struct QosIe {
    /// Allocation and retention priority: PCI bit 7, PL bits 6 to 3, PVI bit 1; the other bits are 0.
    pub arp: u8,
    /// QoS class identifier.
    pub qci: u8,
    pub mbr_up: u64,
    pub mbr_down: u64,
    pub gbr_up: u64,
    pub gbr_down: u64,
}

/// The rate that begins at a place.
fn rate_of(octets: &[u8], at: usize) -> u64
    requires { at + 5 ≤ length octets.now }
    ensures value { result ≡ be40_at octets.now at }
    ensures range { result < 2 ^ 40 }
{
    be40_at(octets, at)
}

/// The Bearer QoS that 22 octets or more spell (TS 29.274, section 8.15).
pub fn qos_of(octets: &[u8]) -> QosIe
    requires { least_len IeKind.Qos ≤ length octets.now }
    ensures value { result ≡ qos_of octets.now }
    ensures valid { IsQos result }
{
    QosIe {
        arp: (octets[0] >> 2) % 32 * 4 + octets[0] % 2,
        qci: octets[1],
        mbr_up: rate_of(octets, 2),
        mbr_down: rate_of(octets, 7),
        gbr_up: rate_of(octets, 12),
        gbr_down: rate_of(octets, 17),
    }
}

/// Appends the rates of both directions.
fn push_rates(out: &mut Vec<u8>, up: u64, down: u64) -> Result<(), NoMemory>
    ensures { OnOk result (out.new.items ≡ out.old.items ++ be40_octets up ++ be40_octets down) }
{
    out.extend_from_slice(&be40_octets(up))?;
    out.extend_from_slice(&be40_octets(down))
}

/// Appends a Bearer QoS as an element.
pub fn push_qos(out: &mut Vec<u8>, instance: u8, qos: &QosIe) -> Result<(), NoMemory>
    ensures { OnOk result (out.new.items ≡ out.old.items ++ ie_octets 80 instance (qos_octets qos.now)) }
{
    push_header(out, IeKind::Qos, instance, 22)?;
    out.extend_from_slice(&[qos.arp, qos.qci])?;
    push_rates(out, qos.mbr_up, qos.mbr_down)?;
    push_rates(out, qos.gbr_up, qos.gbr_down)
}
