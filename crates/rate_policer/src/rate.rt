//! What a rate brings. A rate in kilobits a second is as many millibits a microsecond.
ghost use Rattle.std.specs.Prelude.{◌≡◌, ◌*◌, ◌^◌, ◌<◌};
ghost use Rattle.rate_policer.specs.Conforming.{burst};

use pc_base::Kbps;

// The most that may pass at once, in millibits.
pub(crate) fn burst(rate: Kbps) -> u64
    ensures value { result ≡ burst rate }
    ensures bound { result < 2 ^ 57 }
{
    if rate.0 == 0 {
        return 0;
    }
    (rate.0 * 100_000).max(24_000_000)
}

// What a rate brings in so many microseconds, in millibits.
pub(crate) fn brought(rate: Kbps, micros: u64) -> u128
    requires { micros < 2 ^ 50 }
    ensures value { result ≡ rate * micros }
    ensures bound { result < 2 ^ 90 }
{
    u128::from(rate.0) * u128::from(micros)
}
