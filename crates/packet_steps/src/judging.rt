//! What becomes of a packet.
ghost use Rattle.std.specs.Prelude.{◌≡◌, ℕ, ◌<◌, ◌≤◌, IfOk, IfSome, Option};
ghost use Rattle.std.specs.List.{Contains};
ghost use Rattle.std.specs.Option.{option_copied};
ghost use Rattle.pc_base.specs.declared.packet.Packet.{Packet};
ghost use Rattle.bearer_state.specs.Bearer.{IsEbi};
ghost use Rattle.bearer_state.specs.Version.{bearer_at};
ghost use Rattle.ipv4_packet.specs.Packet.{IsPacket};
ghost use Rattle.packet_steps.specs.Past.{Past};
ghost use Rattle.packet_steps.specs.Verdicts.{at_moment, bearer_for, judged_now, judged_up, judged_down};
ghost use Rattle.packet_steps.specs.Verdicts.{judged_waiting, notice};
ghost use Rattle.packet_steps.specs.Standing.{StandsFor, last_of};
ghost use Rattle.packet_steps.specs.Plans.{Plans};

use crate::NoMemory;
use crate::counters::Counters;
use crate::messages::notification;
use crate::plan::Plan;
use bearer_state::{ActiveBearer, Version};
use ipv4_packet::Ip4;
use pc_base::{Moment, Octets, Way, addr_of};
use tft_match::choose;

/// As many packets of a subscriber are held at most.
pub const MOST_HELD: usize = 16;

impl Counters {
    ghost use Rattle.packet_steps.specs.Verdicts.{message_for};
    ghost use Rattle.packet_steps.specs.Running.{planned, planned_up, planned_down, planned_waiting};

    /// What is to become of a packet; nothing is done yet.
    #[inline(always)]
    pub(crate) fn plan(
        &self,
        version: &Version,
        number: u64,
        moment: Moment,
        way: Way,
        ip: &Ip4<'_>,
    ) -> Result<Plan, NoMemory>
        requires late { IfSome (last_of self.now) (λ last. last ≤ moment) }
        requires packet { IsPacket ip.now }
        ensures plans { (past : Past) (taken : ℕ) (packet : Packet) → StandsFor self.now past taken
            → past.version ≡ version.now
            → packet ≡ record { number = number; moment = moment; way = way; octets = ip.now }
            → IfOk result (Plans (at_moment past moment) packet (judged_now (at_moment past moment) packet)) }
        ensures planned { (packet : Packet)
            → packet ≡ record { number = number; moment = moment; way = way; octets = ip.now }
            → IfOk result (λ plan. plan ≡ planned version.now self.now packet) }
    {
        if !version.live {
            return Ok(Plan::NoBearer);
        }
        match way {
            Way::Up(index) => Ok(self.plan_up(version, index, moment, ip)),
            Way::Down => self.plan_down(version, number, moment, ip),
        }
    }

    #[inline(always)]
    fn plan_up(&self, version: &Version, index: u8, moment: Moment, ip: &Ip4<'_>) -> Plan
        requires { IfSome (last_of self.now) (λ last. last ≤ moment) }
        ensures plans { (past : Past) (taken : ℕ) (packet : Packet) → StandsFor self.now past taken
            → past.version ≡ version.now → packet.octets ≡ ip.now
            → Plans (at_moment past moment) packet
            (judged_up (at_moment past moment) ip.now (bearer_at version.now.bearers index)) result }
        ensures planned { result
            ≡ planned_up version.now self.now.meters moment ip.now (bearer_at version.now.bearers index) }
    {
        let Some(bearer) = active_at(version, index) else {
            return Plan::NoBearer;
        };
        if ip.source() != addr_of(version.slot).0 {
            return Plan::Spoof;
        }
        let len = u32::from(ip.total_len());
        let (passes, bucket) = self.meters.tried(bearer, true, moment, len);
        if passes {
            Plan::Up {
                bearer: *bearer,
                bucket,
                len,
            }
        } else {
            Plan::Policed {
                bearer: *bearer,
                up: true,
                bucket,
            }
        }
    }

    #[inline(always)]
    fn plan_down(
        &self,
        version: &Version,
        number: u64,
        moment: Moment,
        ip: &Ip4<'_>,
    ) -> Result<Plan, NoMemory>
        requires { IfSome (last_of self.now) (λ last. last ≤ moment) }
        ensures plans { (past : Past) (taken : ℕ) (packet : Packet) → StandsFor self.now past taken
            → past.version ≡ version.now
            → packet.octets ≡ ip.now → packet.number ≡ number
            → IfOk result (Plans (at_moment past moment) packet
            (judged_down (at_moment past moment) packet (bearer_for version.now ip.now))) }
        ensures planned { (packet : Packet) → packet.octets ≡ ip.now → packet.number ≡ number
            → packet.moment ≡ moment
            → IfOk result (λ plan. plan
            ≡ planned_down version.now self.now packet (bearer_for version.now ip.now)) }
    {
        let Some(bearer) = taking(version, ip) else {
            return Ok(Plan::NoBearer);
        };
        let Some(peer) = bearer.enb else {
            return self.plan_waiting(version, number, bearer);
        };
        let len = u32::from(ip.total_len());
        let (passes, bucket) = self.meters.tried(bearer, false, moment, len);
        if passes {
            Ok(Plan::Down {
                bearer: *bearer,
                peer,
                bucket,
                len,
            })
        } else {
            Ok(Plan::Policed {
                bearer: *bearer,
                up: false,
                bucket,
            })
        }
    }

    #[inline(always)]
    fn plan_waiting(
        &self,
        version: &Version,
        number: u64,
        bearer: &ActiveBearer,
    ) -> Result<Plan, NoMemory>
        requires { IsEbi bearer.now.ebi }
        ensures plans { (past : Past) (packet : Packet) → self.now.held ≡ past.held
            → past.version.mme ≡ version.now.mme → packet.number ≡ number
            → IfOk result (Plans past packet (judged_waiting past packet bearer.now)) }
        ensures planned { IfOk result (λ plan. plan
            ≡ planned_waiting version.now self.now.held number bearer.now) }
    {
        if self.held.len() >= MOST_HELD {
            return Ok(Plan::Idle { life: bearer.life });
        }
        Ok(Plan::Hold {
            life: bearer.life,
            message: self.notice(version, number, bearer.ebi)?,
        })
    }

    #[inline(never)]
    fn notice(&self, version: &Version, number: u64, ebi: u8) -> Result<Option<Octets>, NoMemory>
        requires { IsEbi ebi }
        ensures notice { (past : Past) → self.now.held ≡ past.held → past.version.mme ≡ version.now.mme
            → IfOk result (λ message. message ≡ notice past number ebi) }
        ensures message { IfOk result (λ message. message ≡ message_for version.now self.now.held number ebi) }
    {
        if !self.held.is_empty() {
            return Ok(None);
        }
        match version.mme {
            Some(mme) => {
                let alloc = *self.held.allocator();
                Ok(Some(notification(alloc, mme, number, ebi)?))
            }
            None => Ok(None),
        }
    }
}

/// The active bearer of an index.
#[inline(always)]
fn active_at<'v>(version: &'v Version, index: u8) -> Option<&'v ActiveBearer>
    ensures value { option_copied result ≡ bearer_at version.now.bearers index }
    ensures there { IfSome result (λ bearer. Contains version.now.bearers bearer.now) }
    ensures index { IfSome result (λ bearer. bearer.now.index < 11) }
    ensures ebi { IfSome result (λ bearer. IsEbi bearer.now.ebi) }
{
    let bearers = version.bearers();
    let place = usize::from(index);
    if place < bearers.len() {
        // Where no lower index is free, the bearer stands at its own.
        let bearer = &bearers[place];
        if bearer.index == index {
            return Some(bearer);
        }
    }
    version.bearer_at(index)
}

/// The active bearer that a downlink packet takes.
#[inline(always)]
fn taking<'v>(version: &'v Version, ip: &Ip4<'_>) -> Option<&'v ActiveBearer>
    ensures value { option_copied result ≡ bearer_for version.now ip.now }
    ensures there { IfSome result (λ bearer. Contains version.now.bearers bearer.now) }
    ensures index { IfSome result (λ bearer. bearer.now.index < 11) }
    ensures ebi { IfSome result (λ bearer. IsEbi bearer.now.ebi) }
{
    match choose(version.rows(), ip) {
        Some(index) => active_at(version, index),
        None => None,
    }
}
