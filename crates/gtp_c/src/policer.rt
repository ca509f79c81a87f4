//! A policer in the caller's memory.
ghost use Rattle.std.specs.Prelude.{◌≡◌, ◌==◌, ◌<◌, ◌||◌, if◌then◌else◌, Some, None, MatchBool};
ghost use Rattle.rate_policer.specs.Buckets.{asked, full_bucket};
ghost use Rattle.rate_policer.specs.Conforming.{cost_of};
ghost use Rattle.gtp_c.specs.Policer.{bucket_of, is_wrong, ask_code, new_code};

use gtp_c_base::code::{POLICED, RANGE};
use pc_base::{Kbps, LAST_MOMENT, Moment};
use rate_policer::Bucket;

/// A bucket: its rate in kilobits a second, below 2^40, its level in millibits, and the moment of the last ask
/// in microseconds, below 2^50.
#[repr(C)]
#[derive(Clone, Copy, Drop)]
pub struct Policer {
    pub rate: u64,
    pub level: u64,
    pub last: u64,
}

/// The bucket that a caller's numbers are; None where no bucket has these.
fn bucket_of(policer: Policer) -> Option<Bucket>
    ensures { result ≡ (if is_wrong policer then None else Some (bucket_of policer)) }
{
    if policer.rate >= 1 << 40 || policer.last > LAST_MOMENT {
        return None;
    }
    Bucket::of(Kbps(policer.rate), policer.level, Moment(policer.last))
}

/// A full bucket of a rate in kilobits a second (TS 23.401, section 4.7.3).
#[unsafe(no_mangle)]
pub extern "C" fn gtp_c_policer_new(rate: u64, policer: &mut Policer) -> u32
    ensures code { result ≡ new_code rate }
    ensures made { MatchBool (result == 0) (bucket_of policer.new ≡ full_bucket rate) (policer.new ≡ policer.old) }
{
    if rate >= 1 << 40 {
        return RANGE;
    }
    let bucket = Bucket::new(Kbps(rate));
    *policer = Policer {
        rate,
        level: bucket.level(),
        last: 0,
    };
    0
}

/// Whether these octets pass at this moment. The bucket moves on also where they don't.
#[unsafe(no_mangle)]
pub extern "C" fn gtp_c_policer_ask(policer: &mut Policer, at: u64, octets: u32) -> u32
    ensures code { result ≡ ask_code policer.old at octets }
    ensures moved { MatchBool (result == 23) (policer.new ≡ policer.old)
        (bucket_of policer.new ≡ asked (bucket_of policer.old) (cost_of octets at)) }
{
    if at > LAST_MOMENT || at < policer.last {
        return RANGE;
    }
    let Some(mut bucket) = bucket_of(*policer) else {
        return RANGE;
    };
    let passes = bucket.ask(Moment(at), octets);
    *policer = Policer {
        rate: policer.rate,
        level: bucket.level(),
        last: at,
    };
    if passes { 0 } else { POLICED }
}
