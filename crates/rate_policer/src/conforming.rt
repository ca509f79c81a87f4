//! What conforms to a rate, by the whole list of what passed.
ghost use Rattle.std.specs.Prelude.{◌≡◌, ℕ, ◌+◌, ◌-◌, ◌*◌, ◌^◌, ◌≤◌, ◌↔◌, [], length, IsTrue};
ghost use Rattle.rate_policer.specs.Conforming.{
  burst,
  volume,
  Conforms,
  conforms,
  ConformingIsTested,
  ArePoliced,
  PolicedListsGrow,
  NoWindowPassesMore,
  NoTimePassesMore,
};

use crate::Cost;
use crate::rate::{brought, burst};
use pc_base::Kbps;

/// Whether a cost conforms to a rate where these costs passed before: it is within the burst, and
/// together with all that passed since any earlier cost it is within the burst and what the rate has
/// brought since that cost. It looks at each earlier cost, and sums anew what passed since.
pub fn conforms(rate: Kbps, passed: &[Cost], cost: Cost) -> bool
    ensures conforms { IsTrue result ↔ Conforms rate passed.now cost }
    ensures tested { result ≡ conforms rate passed.now cost }
{
    if cost.millibits > burst(rate) {
        return false;
    }
    for (place, earlier) in passed.iter().enumerate() {
        if !fits_since(rate, earlier, &passed[place..], &cost) {
            return false;
        }
    }
    true
}

/// The test of the definitions, by which the layers above decide, answers what conforming is.
pub fn conforming_is_tested()
    ensures { ConformingIsTested }
{}

/// Where each cost conformed when it passed, no more passed in any window than the burst and what
/// the rate brought in it: from any cost to any later one, and from any moment to any later one.
pub fn no_window_passes_more()
    ensures costs { NoWindowPassesMore }
    ensures moments { NoTimePassesMore }
{}

/// A list is one in which each cost conformed when it passed: where nothing passed, and behind each
/// conforming cost again.
pub fn policed_lists_grow()
    ensures none { (rate : ℕ) → ArePoliced rate [] }
    ensures grow { PolicedListsGrow }
{}

// Whether a cost fits with what passed since an earlier cost, that cost included.
fn fits_since(rate: Kbps, earlier: &Cost, since: &[Cost], cost: &Cost) -> bool
    ensures { IsTrue result
        ↔ (cost.now.millibits + volume since.now ≤ burst rate + rate * (cost.now.at - earlier.now.at)) }
{
    let micros = cost.at.0.saturating_sub(earlier.at.0);
    let allowed = u128::from(burst(rate)) + brought(rate, micros);
    u128::from(cost.millibits) + volume(since) <= allowed
}

// The sum of costs, in millibits.
fn volume(costs: &[Cost]) -> u128
    ensures value { result ≡ volume costs.now }
    ensures bound { result ≤ 2 ^ 64 * length costs.now }
{
    let mut sum = 0;
    for cost in costs {
        sum += u128::from(cost.millibits);
    }
    sum
}
