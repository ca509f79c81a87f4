//! The buckets of a subscriber.
ghost use Rattle.std.specs.Prelude.{◌≡◌, ◌<◌, ◌≤◌, List, [], ◌∷◌, ◌++◌, MatchBool, slice_set};
ghost use Rattle.std.specs.List.{slice_index_or};
ghost use Rattle.rate_policer.specs.declared.cost.Cost.{Cost};
ghost use Rattle.rate_policer.specs.Conforming.{cost_of, conforms};
ghost use Rattle.rate_policer.specs.Buckets.{StandsFor, rate_of, last_of, lets_through, asked};
ghost use Rattle.packet_steps.specs.Meters.{bucket_of, with_bucket, new_meter, bucket_for, put_bucket};
ghost use Rattle.packet_steps.specs.Meters.{unused, no_meters, own_meter, in_use, begins_guaranteed, HasPlace};
ghost use Rattle.packet_steps.specs.Running.{cost_in};

use crate::NoMemory;
use crate::changing::has_life;
use bearer_state::{ActiveBearer, Version, is_guaranteed};
use pc_base::{Kbps, Moment};
use rate_policer::Bucket;
use std::alloc::Global;

/// A bucket each way.
#[derive(Clone, Copy, Debug)]
pub struct Meter {
    pub(crate) up: Bucket,
    pub(crate) down: Bucket,
}

/// The meter that all bearers without a guaranteed rate share, and the own ones of the others, by index. Few subscribers
/// have such a bearer, so own ones are kept from the first that is used on.
#[derive(Debug, Drop)]
pub struct Meters {
    pub(crate) shared: Meter,
    pub(crate) own: Vec<Meter>,
}

impl Meter {
    /// Full buckets.
    pub(crate) fn new(up: Kbps, down: Kbps) -> Meter
        ensures { result ≡ new_meter up down }
    {
        Meter {
            up: Bucket::new(up),
            down: Bucket::new(down),
        }
    }

    fn bucket(&self, up: bool) -> Bucket
        ensures { result ≡ bucket_of up self.now }
    {
        if up { self.up } else { self.down }
    }

    fn put(&mut self, up: bool, bucket: Bucket)
        ensures { self.new ≡ with_bucket up bucket self.old }
    {
        if up {
            self.up = bucket;
        } else {
            self.down = bucket;
        }
    }
}

/// The meter at an index, of these.
fn own_at(own: &[Meter], index: u8) -> Meter
    ensures { result ≡ slice_index_or own.now index unused }
{
    match own.get(index as usize) {
        Some(meter) => *meter,
        None => Meter::new(Kbps(0), Kbps(0)),
    }
}

/// Puts a meter at an index, where there is one.
fn put_at(own: &mut Vec<Meter>, index: u8, meter: Meter)
    ensures { own.new.items ≡ slice_set own.old.items index meter }
{
    if (index as usize) < own.len() {
        own[index as usize] = meter;
    }
}

impl Meters {
    ghost use Rattle.std.specs.Prelude.{length, OnOk, OnErr, IfOk};

    /// The meters with this shared one, and no own one in use.
    pub(crate) fn new(alloc: Global, shared: Meter) -> Meters
        ensures shared { (in_use result).shared ≡ shared }
        ensures own { (in_use result).own ≡ no_meters }
    {
        Meters {
            shared,
            own: Vec::new(alloc),
        }
    }

    /// A copy.
    pub(crate) fn try_clone(&self) -> Result<Meters, NoMemory>
        ensures { IfOk result (λ meters. in_use meters ≡ in_use self.now) }
    {
        Ok(Meters {
            shared: self.shared,
            own: Vec::from_slice(*self.own.allocator(), &self.own)?,
        })
    }

    /// The own meter at an index.
    #[cold]
    #[inline(never)]
    pub(crate) fn own_meter(&self, index: u8) -> Meter
        ensures { result ≡ own_meter (in_use self.now) index }
    {
        own_at(&self.own, index)
    }

    /// The bucket that polices a bearer one way.
    #[inline(always)]
    pub(crate) fn bucket(&self, bearer: &ActiveBearer, up: bool) -> Bucket
        ensures { result ≡ bucket_for (in_use self.now) bearer.now up }
    {
        if is_guaranteed(bearer.qos.qci) {
            self.own_meter(bearer.index).bucket(up)
        } else {
            self.shared.bucket(up)
        }
    }

    /// Keeps own meters from now on.
    #[cold]
    #[inline(never)]
    fn keep_own(&mut self) -> Result<(), NoMemory>
        ensures same { in_use self.new ≡ in_use self.old }
        ensures kept { OnOk result (0 < length self.new.own.items) }
    {
        if !self.own.as_slice().is_empty() {
            return Ok(());
        }
        let none = Meter::new(Kbps(0), Kbps(0));
        let own = Vec::from_array(*self.own.allocator(), [none; 11])?;
        self.own = own;
        Ok(())
    }

    /// The same, where a bearer needs one.
    #[inline(always)]
    pub(crate) fn keep_place(&mut self, bearer: &ActiveBearer) -> Result<(), NoMemory>
        ensures same { in_use self.new ≡ in_use self.old }
        ensures kept { OnOk result (HasPlace self.new bearer.now) }
    {
        if is_guaranteed(bearer.qos.qci) {
            return self.keep_own();
        }
        Ok(())
    }

    /// Puts a bucket in its place, where there is one.
    #[inline(always)]
    pub(crate) fn put(&mut self, bearer: &ActiveBearer, up: bool, bucket: Bucket)
        requires { HasPlace self.old bearer.now }
        ensures { in_use self.new ≡ put_bucket (in_use self.old) bearer.now up bucket }
    {
        if is_guaranteed(bearer.qos.qci) {
            self.put_own(bearer.index, up, bucket);
        } else {
            self.shared.put(up, bucket);
        }
    }

    #[cold]
    #[inline(never)]
    fn put_own(&mut self, index: u8, up: bool, bucket: Bucket)
        requires { 0 < length self.old.own.items }
        ensures { in_use self.new ≡ record (in_use self.old) {
          own = slice_set (in_use self.old).own index (with_bucket up bucket (own_meter (in_use self.old) index));
        } }
    {
        let mut meter = self.own_meter(index);
        meter.put(up, bucket);
        put_at(&mut self.own, index, meter);
    }

    /// The same where no place may be kept yet.
    #[inline(always)]
    pub(crate) fn try_put(
        &mut self,
        bearer: &ActiveBearer,
        up: bool,
        bucket: Bucket,
    ) -> Result<(), NoMemory>
        ensures put { OnOk result (in_use self.new ≡ put_bucket (in_use self.old) bearer.now up bucket) }
        ensures unchanged { OnErr result (in_use self.new ≡ in_use self.old) }
    {
        self.keep_place(bearer)?;
        self.put(bearer, up, bucket);
        Ok(())
    }

    /// Puts an own meter at an index, where there is one.
    pub(crate) fn try_put_own(&mut self, index: u8, meter: Meter) -> Result<(), NoMemory>
        ensures { OnOk result (in_use self.new
            ≡ record (in_use self.old) { own = slice_set (in_use self.old).own index meter }) }
    {
        self.keep_own()?;
        put_at(&mut self.own, index, meter);
        Ok(())
    }
}

impl Meters {
    ghost use Rattle.std.specs.Prelude.{if◌then◌else◌, OnOk};
    ghost use Rattle.std.specs.List.{Contains};
    ghost use Rattle.packet_steps.specs.Past.{Past, moment_of};
    ghost use Rattle.packet_steps.specs.Verdicts.{at_moment};
    ghost use Rattle.packet_steps.specs.Meters.{MetersStand, with_begun, learnt_meters};
    ghost use Rattle.packet_steps.specs.Plans.{Tries};
    ghost use Rattle.packet_steps.specs.Running.{left_for};

    /// Learns a new version.
    pub(crate) fn learn(&mut self, before: &Version, after: &Version) -> Result<(), NoMemory>
        ensures { OnOk result (in_use self.new ≡ learnt_meters before.now after.now (in_use self.old)) }
    {
        self.rerate(before.rates < after.rates, after.up, after.down);
        for bearer in after.bearers() {
            self.begin(before, bearer)?;
        }
        Ok(())
    }

    /// The shared meter is new where the AMBR was set.
    fn rerate(&mut self, was_set: bool, up: Kbps, down: Kbps)
        ensures { in_use self.new
            ≡ (if was_set then record (in_use self.old) { shared = new_meter up down } else in_use self.old) }
    {
        if was_set {
            self.shared = Meter::new(up, down);
        }
    }

    fn begin(&mut self, before: &Version, bearer: &ActiveBearer) -> Result<(), NoMemory>
        ensures { OnOk result (in_use self.new ≡ with_begun before.now (in_use self.old) bearer.now) }
    {
        if begins_guaranteed(before, bearer) {
            let meter = Meter::new(bearer.qos.mbr_up, bearer.qos.mbr_down);
            return self.try_put_own(bearer.index, meter);
        }
        Ok(())
    }

    /// Whether octets of a bearer pass at a moment, and the bucket that is left.
    #[inline(always)]
    pub(crate) fn tried(
        &self,
        bearer: &ActiveBearer,
        up: bool,
        at: Moment,
        octets: u32,
    ) -> (bool, Bucket)
        ensures tries { (past : Past) → MetersStand (in_use self.now) past → Contains past.version.bearers bearer.now
            → moment_of past ≤ at
            → Tries (at_moment past at) bearer.now up octets result }
        ensures left { result ≡ left_for (in_use self.now) bearer.now up octets at }
    {
        let mut bucket = self.bucket(bearer, up);
        let passes = ask(&mut bucket, at, octets);
        (passes, bucket)
    }
}

/// Whether a bearer with a guaranteed rate begins.
fn begins_guaranteed(before: &Version, bearer: &ActiveBearer) -> bool
    ensures { result ≡ begins_guaranteed before.now bearer.now }
{
    is_guaranteed(bearer.qos.qci) && !has_life(before.bearers(), bearer.life)
}

/// Asks a bucket, at the moment of its last ask where that is later.
fn ask(bucket: &mut Bucket, at: Moment, octets: u32) -> bool
    ensures tested { (passed : List Cost) → StandsFor bucket.old passed → last_of bucket.old ≤ at
        → result ≡ conforms (rate_of bucket.old) passed (cost_of octets at) }
    ensures charged { (passed : List Cost) → StandsFor bucket.old passed → last_of bucket.old ≤ at
        → MatchBool result (StandsFor bucket.new (passed ++ cost_of octets at ∷ [])) (StandsFor bucket.new passed) }
    ensures rate { rate_of bucket.new ≡ rate_of bucket.old }
    ensures asked { last_of bucket.old ≤ at → last_of bucket.new ≡ at }

    // Of an earlier moment, it is as one at the last ask's.
    ensures earlier { (passed : List Cost) → StandsFor bucket.old passed → at < last_of bucket.old
        → result ≡ conforms (rate_of bucket.old) passed (cost_of octets (last_of bucket.old)) }
    ensures stays { at < last_of bucket.old → last_of bucket.new ≡ last_of bucket.old }

    // By the bucket alone.
    ensures within { result ≡ lets_through bucket.old (cost_in bucket.old octets at) }
    ensures parts { bucket.new ≡ asked bucket.old (cost_in bucket.old octets at) }
{
    let last = bucket.last();
    if at < last {
        return bucket.ask(last, octets);
    }
    bucket.ask(at, octets)
}
