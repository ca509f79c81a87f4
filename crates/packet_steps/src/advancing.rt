//! A new version is learnt.
ghost use Rattle.std.specs.Prelude.{◌≡◌, ℕ, unwrap_or, filter, IfOk, OnOk, OnErr};
ghost use Rattle.packet_steps.specs.Past.{Past};
ghost use Rattle.packet_steps.specs.Change.{waits, learnt};
ghost use Rattle.packet_steps.specs.Standing.{StandsFor, Follows, last_of};
ghost use Rattle.packet_steps.specs.Running.{brought, Advances};

use crate::changing::{markers, marks};
use crate::counters::Counters;
use crate::releasing::{Release, look_at_all, waits};
use crate::{Effects, HeldPacket, NoMemory};
use bearer_state::{ActiveBearer, Version};
use pc_base::{Items, Moment};

/// Learns the version that comes next, and tells its effects: End Markers to eNodeBs that bearers left,
/// and what becomes of held packets. Where memory runs out, the counters are as before.
pub fn advance(
    counters: &mut Counters,
    before: &Version,
    after: &Version,
) -> Result<Effects, NoMemory>
    ensures effects { (past : Past) (taken : ℕ) → StandsFor counters.old past taken → past.version ≡ before.now
        → Follows past after.now
        → IfOk result (λ effects. effects ≡ (learnt past after.now).1) }
    ensures stands { (past : Past) (taken : ℕ) → StandsFor counters.old past taken → past.version ≡ before.now
        → Follows past after.now
        → OnOk result (StandsFor counters.new (learnt past after.now).0 taken) }

    // The same by the counters alone, also of ones that were made of parts.
    ensures brings { IfOk result (λ effects. effects ≡ (brought before.now after.now counters.old).effects) }
    ensures goes_on { OnOk result (Advances before.now after.now counters.old counters.new) }
    ensures moment { last_of counters.new ≡ last_of counters.old }
    ensures unchanged { OnErr result (counters.new ≡ counters.old) }
{
    let alloc = *counters.held.allocator();
    let bearers = after.bearers();
    let postings = marks(alloc, before, after)?;
    let effects = markers(alloc, before, after)?;
    let meters = counters.meters.try_clone()?;
    let mut release = Release {
        meters,
        postings,
        effects,
    };
    release.meters.learn(before, after)?;
    let at = last_moment(counters.last);
    look_at_all(&mut release, alloc, after, at, &counters.held)?;
    counters.book.post(&release.postings)?;
    counters.meters = release.meters;
    keep_waiting(&mut counters.held, bearers);
    Ok(Items::of(release.effects))
}

/// The moment of the last packet, 0 before the first.
pub(crate) fn last_moment(last: Option<Moment>) -> Moment
    ensures { result ≡ unwrap_or last 0 }
{
    match last {
        Some(moment) => moment,
        None => Moment(0),
    }
}

/// Packets whose bearers have no eNodeB stay held.
fn keep_waiting(held: &mut Vec<HeldPacket>, bearers: &[ActiveBearer])
    ensures { held.new.items ≡ filter (λ row. waits bearers.now row.life) held.old.items }
{
    held.retain(|row| waits(bearers, row.life));
}
