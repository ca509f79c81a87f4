//! What an ask costs. One octet costs 8,000 millibits, so that a rate in kilobits a second is as many
//! millibits a microsecond.
ghost use Rattle.std.specs.Prelude.{◌≡◌};
ghost use Rattle.rate_policer.specs.Conforming.{cost_of};

use pc_base::Moment;

/// Octets that pass or ask to pass: their cost in millibits, and when.
#[derive(Clone, Copy, Debug, PartialEq, Eq)]
pub struct Cost {
    pub at: Moment,
    pub millibits: u64,
}

impl Cost {
    /// The cost of octets at a moment.
    pub fn of(octets: u32, at: Moment) -> Cost
        ensures { result ≡ cost_of octets at }
    {
        Cost {
            at,
            millibits: 8_000 * u64::from(octets),
        }
    }
}
