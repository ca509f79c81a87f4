//! A packet as it was forwarded.
ghost use Rattle.std.specs.Prelude.{◌≡◌};
ghost use Rattle.packet_steps.specs.Policing.{same_way};

use pc_base::Moment;

/// A packet as it was forwarded: the life of its bearer, which way, how many octets it has, when; and the
/// bearer's class of service and how often the AMBR had been set then.
#[derive(Clone, Copy, Debug)]
pub struct Forwarded {
    pub life: u64,
    pub up: bool,
    pub octets: u32,
    pub at: Moment,
    pub qci: u8,
    pub rates: u64,
}

/// Whether a row that went up, or down, went this way.
pub fn same_way(own: bool, up: bool) -> bool
    ensures { result ≡ same_way own up }
{
    if own { up } else { !up }
}
