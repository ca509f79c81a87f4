//! Held packets are looked at again.
ghost use Rattle.std.specs.Prelude.{◌≡◌, ◌<◌, List, [], ◌∷◌, ◌++◌, fold, Some, IfSome, OnOk};
ghost use Rattle.std.specs.List.{Contains};
ghost use Rattle.pc_base.specs.declared.effect.Effect.TheVariants as effect;
ghost use Rattle.bearer_state.specs.Version.{IsVersion};
ghost use Rattle.std.specs.Option.{option_copied};
ghost use Rattle.charging_book.specs.Happenings.{Happening};
ghost use Rattle.pc_base.specs.declared.effect.Effect.{Effect};
ghost use Rattle.packet_steps.specs.Past.{Past, moment_of};
ghost use Rattle.packet_steps.specs.Change.{bearer_of, released, released_to, waits};
ghost use Rattle.packet_steps.specs.Meters.{in_use};
ghost use Rattle.packet_steps.specs.Releases.{Releases};
ghost use Rattle.packet_steps.specs.Running.{brought_by, brought_with, brought_to};

use crate::changing::bearer_of;
use crate::messages::gpdu;
use crate::meters::Meters;
use crate::{HeldPacket, NoMemory};
use bearer_state::{ActiveBearer, Version};
use charging_book::Posting;
use pc_base::{Effect, Fate, Moment, Peer};
use std::alloc::Global;

/// What a new version has brought so far, before it is done: the buckets, what goes to the book, the effects.
#[derive(Drop)]
pub struct Release {
    pub(crate) meters: Meters,
    pub(crate) postings: Vec<Posting>,
    pub(crate) effects: Vec<Effect>,
}

impl Release {
    /// One held packet more is looked at, as at this moment.
    pub(crate) fn look_at(
        &mut self,
        alloc: Global,
        after: &Version,
        at: Moment,
        held: &HeldPacket,
    ) -> Result<(), NoMemory>
        ensures releases { (base : List Happening) (so_far : Past × List Effect) → Releases self.old base so_far
            → so_far.0.version ≡ after.now
            → moment_of so_far.0 ≡ at → OnOk result (Releases self.new base (released so_far held.now)) }
        ensures brings { OnOk result
            (brought_by self.new ≡ brought_with after.now.bearers at (brought_by self.old) held.now) }
    {
        let Some(bearer) = active_of(after, held.life) else {
            return self.tell(held, Fate::Gone { life: held.life });
        };
        let Some(peer) = bearer.enb else {
            return Ok(());
        };
        self.release(alloc, at, held, bearer, peer)
    }

    /// It is tried, and goes to the eNodeB or not at all.
    fn release(
        &mut self,
        alloc: Global,
        at: Moment,
        held: &HeldPacket,
        bearer: &ActiveBearer,
        peer: Peer,
    ) -> Result<(), NoMemory>
        ensures releases { (base : List Happening) (so_far : Past × List Effect) → Releases self.old base so_far
            → IsVersion so_far.0.version
            → Contains so_far.0.version.bearers bearer.now → bearer.now.life ≡ held.now.life → moment_of so_far.0 ≡ at
            → OnOk result (Releases self.new base (released_to so_far held.now bearer.now (Some peer))) }
        ensures brings { OnOk result
            (brought_by self.new ≡ brought_to (brought_by self.old) held.now bearer.now at (Some peer)) }
    {
        let octets = held.packet.octets.as_slice();
        let len = octets.len() as u32;
        let (passes, bucket) = self.meters.tried(bearer, false, at, len);
        self.meters.try_put(bearer, false, bucket)?;
        if !passes {
            return self.tell(held, Fate::Policed { life: held.life });
        }
        self.postings.push(Posting::Packet {
            life: bearer.life,
            up: false,
            octets: len,
            at,
        })?;
        self.tell(
            held,
            Fate::Down {
                life: held.life,
                peer: peer.addr,
                octets: gpdu(alloc, peer, octets)?,
            },
        )
    }

    fn tell(&mut self, held: &HeldPacket, fate: Fate) -> Result<(), NoMemory>
        ensures meters { in_use self.new.meters ≡ in_use self.old.meters }
        ensures postings { self.new.postings.items ≡ self.old.postings.items }
        ensures effects { OnOk result
            (self.new.effects.items ≡ self.old.effects.items ++ effect.Fate held.now.packet.number fate ∷ []) }
    {
        self.effects.push(Effect::Fate {
            packet: held.packet.number,
            fate,
        })?;
        Ok(())
    }
}

/// Held packets are looked at in their order.
pub(crate) fn look_at_all(
    release: &mut Release,
    alloc: Global,
    after: &Version,
    at: Moment,
    held: &[HeldPacket],
) -> Result<(), NoMemory>
    ensures releases { (base : List Happening) (so_far : Past × List Effect) → Releases release.old base so_far
        → so_far.0.version ≡ after.now
        → moment_of so_far.0 ≡ at → OnOk result (Releases release.new base (fold released so_far held.now)) }
    ensures brings { OnOk result (brought_by release.new
        ≡ fold (brought_with after.now.bearers at) (brought_by release.old) held.now) }
{
    for row in held {
        release.look_at(alloc, after, at, row)?;
    }
    Ok(())
}

/// The active bearer of a life.
fn active_of<'v>(version: &'v Version, life: u64) -> Option<&'v ActiveBearer>
    ensures value { option_copied result ≡ bearer_of version.now.bearers life }
    ensures there { IfSome result (λ bearer. Contains version.now.bearers bearer.now) }
    ensures life { IfSome result (λ bearer. bearer.now.life ≡ life) }
    ensures index { IfSome result (λ bearer. bearer.now.index < 11) }
    ensures valid { IsVersion version.now }
{
    bearer_of(version.bearers(), life)
}

/// Whether packets that are held for a life wait on.
pub(crate) fn waits(bearers: &[ActiveBearer], life: u64) -> bool
    ensures { result ≡ waits bearers.now life }
{
    match bearer_of(bearers, life) {
        Some(bearer) => bearer.enb.is_none(),
        None => false,
    }
}
