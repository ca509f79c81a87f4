//! The quality of service of a bearer.
ghost use Rattle.std.specs.Prelude.{◌≡◌};
ghost use Rattle.bearer_state.specs.Qos.{is_guaranteed};

use pc_base::Kbps;

/// What a bearer is promised (TS 23.401, 4.7.3), rates in kbps.
#[derive(Clone, Copy, Debug, PartialEq, Eq)]
pub struct Qos {
    /// The allocation and retention priority as its octet (TS 29.274, 8.15): pre-emption capability
    /// in bit 7, level in bits 6 to 3, vulnerability in bit 1. The spare bits 8 and 2 are 0.
    pub arp: u8,
    /// The QoS class identifier (TS 23.203, 6.1.7): 1 to 4 have a guaranteed rate.
    pub qci: u8,
    /// The maximum rates.
    pub mbr_up: Kbps,
    pub mbr_down: Kbps,
    /// The guaranteed rates.
    pub gbr_up: Kbps,
    pub gbr_down: Kbps,
}

/// Whether a QoS class has a guaranteed rate (TS 23.203, table 6.1.7).
#[inline(always)]
pub fn is_guaranteed(qci: u8) -> bool
    ensures { result ≡ is_guaranteed qci }
{
    1 <= qci && qci <= 4
}

impl Qos {
    ghost use Rattle.std.specs.Prelude.{◌↔◌, IsTrue};
    ghost use Rattle.bearer_state.specs.Qos.{IsQos};

    /// Whether the spare bits of the ARP octet are 0; the other ranges are those of the fields.
    pub fn is_in_range(&self) -> bool
        ensures { IsTrue result ↔ IsQos self.now }
    {
        let _rates = (
            self.mbr_up.0,
            self.mbr_down.0,
            self.gbr_up.0,
            self.gbr_down.0,
        );
        let _qci = self.qci;
        self.arp < 128 && self.arp / 2 % 2 == 0
    }
}
