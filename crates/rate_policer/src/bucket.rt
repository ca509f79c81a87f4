//! A bucket: one level and one moment, which answer as the whole list of what passed.
ghost use Rattle.std.specs.Prelude.{
  ◌≡◌,
  ◌+◌,
  ◌-◌,
  ◌*◌,
  ◌^◌,
  ◌<◌,
  ◌≤◌,
  ◌↔◌,
  List,
  [],
  ◌∷◌,
  ◌++◌,
  IsTrue,
  MatchBool,
};
ghost use Rattle.std.specs.Option.{SomeIff};

use crate::Cost;
use crate::rate::{brought, burst};
use pc_base::{Kbps, Moment};
use std::marker::Model;

/// The bucket of a rate. A clause speaks of it by the list of the costs that it let through since it
/// was new: it represents these.
#[derive(Clone, Copy, Debug)]
pub struct Bucket {
    rate: Kbps,
    /// What may pass at once at the moment of the last ask, in millibits.
    level: u64,
    /// The moment of the last ask.
    last: Moment,
}

impl Model for Bucket {
    ghost use Rattle.std.specs.Prelude.{◌≤◌};
    ghost use Rattle.rate_policer.specs.Conforming.{burst};
    ghost use Rattle.rate_policer.specs.Buckets.{BucketState};

    ghost Value = { BucketState };

    ghost view = { λ bucket. record { rate = bucket.rate; level = bucket.level; last = bucket.last } };

    ghost invariant = { λ bucket. bucket.level ≤ burst bucket.rate };

    ghost inverse = { λ state. record { rate = state.rate; level = state.level; last = state.last } };
}

impl Bucket {
    ghost use Rattle.rate_policer.specs.declared.cost.Cost.{Cost};
    ghost use Rattle.rate_policer.specs.Conforming.{burst, cost_of, Conforms, conforms};
    ghost use Rattle.rate_policer.specs.Buckets.{
      BucketState,
      StandsFor,
      asked,
      full_bucket,
      lets_through,
      level_at,
      level_of,
      rate_of,
      last_of,
    };

    /// The bucket of a rate that nothing passed yet, full at moment 0.
    pub fn new(rate: Kbps) -> Bucket
        ensures empty { StandsFor result [] }
        ensures rate { rate_of result ≡ rate }
        ensures start { last_of result ≡ 0 }
        ensures full { result ≡ full_bucket rate }
    {
        Bucket {
            rate,
            level: burst(rate),
            last: Moment(0),
        }
    }

    /// The bucket with these parts, as they were read of one; None exactly where the level is above the
    /// burst of the rate. The level is in millibits, and `last` the moment of the last ask. It represents
    /// what the bucket represented that they were read of.
    pub fn of(rate: Kbps, level: u64, last: Moment) -> Option<Bucket>
        ensures { SomeIff result (level ≤ burst rate) (record { rate = rate; level = level; last = last }) }
    {
        if level > burst(rate) {
            return None;
        }
        Some(Bucket { rate, level, last })
    }

    /// Whether these octets pass at this moment. The bucket's level and moment move on also where
    /// they don't.
    pub fn ask(&mut self, at: Moment, octets: u32) -> bool
        requires { last_of self.old ≤ at }

        ensures conforms { (passed : List Cost) → StandsFor self.old passed
            → (IsTrue result ↔ Conforms (rate_of self.old) passed (cost_of octets at)) }
        ensures tested { (passed : List Cost) → StandsFor self.old passed
            → result ≡ conforms (rate_of self.old) passed (cost_of octets at) }

        // What passes is charged, and a refusal costs nothing.
        ensures charged { (passed : List Cost) → StandsFor self.old passed
            → MatchBool result (StandsFor self.new (passed ++ cost_of octets at ∷ [])) (StandsFor self.new passed) }

        ensures rate { rate_of self.new ≡ rate_of self.old }
        ensures asked { last_of self.new ≡ at }

        // The same by the parts alone, also of a bucket that was made of some.
        ensures within { result ≡ lets_through self.old (cost_of octets at) }
        ensures parts { self.new ≡ asked self.old (cost_of octets at) }
    {
        let level = self.level_at(at);
        let millibits = Cost::of(octets, at).millibits;
        self.last = at;
        if millibits <= level {
            self.level = level - millibits;
            return true;
        }
        self.level = level;
        false
    }

    /// The rate that it polices.
    pub fn rate(&self) -> Kbps
        ensures { result ≡ rate_of self.now }
    {
        self.rate
    }

    /// The moment of the last ask, 0 in a new bucket.
    pub fn last(&self) -> Moment
        ensures { result ≡ last_of self.now }
    {
        self.last
    }

    /// What might pass at the moment of the last ask, in millibits.
    pub fn level(&self) -> u64
        ensures value { result ≡ level_of self.now }
        ensures bound { result ≤ burst (rate_of self.now) }
    {
        self.level
    }

    // The level at a moment, in millibits.
    fn level_at(&self, at: Moment) -> u64
        requires { last_of self.now ≤ at }
        ensures { result ≡ level_at self.now at }
    {
        u128::from(burst(self.rate)).min(self.refilled(at)) as u64
    }

    // What the level and the rate bring at a moment, however full the bucket, in millibits.
    fn refilled(&self, at: Moment) -> u128
        requires { last_of self.now ≤ at }
        ensures value { result ≡ self.now.level + self.now.rate * (at - self.now.last) }
        ensures bound { result < 2 ^ 92 }
    {
        u128::from(self.level) + brought(self.rate, at.0 - self.last.0)
    }
}
