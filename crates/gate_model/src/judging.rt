//! What becomes of a packet, by the plain lists.
ghost use Rattle.std.specs.Prelude.{◌≡◌, ◌<◌, ◌^◌, length, IfOk, IfSome};
ghost use Rattle.std.specs.Option.{option_copied};
ghost use Rattle.bearer_state.specs.Bearer.{IsEbi};
ghost use Rattle.bearer_state.specs.Version.{bearer_at};
ghost use Rattle.packet_steps.specs.Verdicts.{bearer_for, notice, judged, judged_now, judged_up};
ghost use Rattle.packet_steps.specs.Verdicts.{judged_down, judged_to, judged_waiting};
ghost use Rattle.gate_model.specs.Memory.{past_at};

use crate::NoMemory;
use crate::memory::Memory;
use bearer_state::{ActiveBearer, Version};
use ipv4_packet::Ip4;
use packet_steps::{HeldPacket, MOST_HELD, gpdu, notification};
use pc_base::{Octets, Packet, Peer, Verdict, Way, addr_of};
use tft_match::choose;

impl Memory {
    ghost use Rattle.std.specs.Prelude.{Some};
    ghost use Rattle.pc_base.specs.declared.packet.Packet.{Packet};

    /// What becomes of a packet at a version.
    pub(crate) fn judge(&mut self, version: &Version, packet: &Packet) -> Result<Verdict, NoMemory>
        ensures { IfOk result (λ verdict. judged (past_at version.now self.old) packet.now
            ≡ (past_at version.now self.new, verdict)) }
    {
        self.come(packet.moment);
        self.judge_now(version, packet)
    }

    fn judge_now(&mut self, version: &Version, packet: &Packet) -> Result<Verdict, NoMemory>
        ensures { IfOk result (λ verdict. judged_now (past_at version.now self.old) packet.now
            ≡ (past_at version.now self.new, verdict)) }
    {
        if !version.live {
            return Ok(Verdict::NoBearer);
        }
        let Some(ip) = Ip4::whole(packet.octets.as_slice()) else {
            return Ok(Verdict::NoBearer);
        };
        match packet.way {
            Way::Up(index) => self.judge_up(version, index, &ip),
            Way::Down => self.judge_down(version, packet, &ip),
        }
    }

    fn judge_up(&mut self, version: &Version, index: u8, ip: &Ip4<'_>) -> Result<Verdict, NoMemory>
        ensures { IfOk result (λ verdict. judged_up (past_at version.now self.old) ip.now
            (bearer_at version.now.bearers index) ≡ (past_at version.now self.new, verdict)) }
    {
        let Some(bearer) = version.bearer_at(index) else {
            return Ok(Verdict::NoBearer);
        };
        if ip.source() != addr_of(version.slot).0 {
            return Ok(Verdict::Spoof);
        }
        let len = u32::from(ip.total_len());
        if !self.forward(version, bearer, true, len)? {
            return Ok(Verdict::Policed { life: bearer.life });
        }
        Ok(Verdict::Up {
            life: bearer.life,
            octets: Octets::of(Vec::from_slice(self.allocator(), ip.octets())?),
        })
    }

    fn judge_down(
        &mut self,
        version: &Version,
        packet: &Packet,
        ip: &Ip4<'_>,
    ) -> Result<Verdict, NoMemory>
        requires { packet.now.octets ≡ ip.now }
        ensures { IfOk result (λ verdict. judged_down (past_at version.now self.old) packet.now
            (bearer_for version.now ip.now) ≡ (past_at version.now self.new, verdict)) }
    {
        let Some(bearer) = taking(version, ip) else {
            return Ok(Verdict::NoBearer);
        };
        let len = u32::from(ip.total_len());
        match bearer.enb {
            Some(peer) => self.judge_to(version, ip, bearer, peer, len),
            None => self.judge_waiting(version, packet, bearer),
        }
    }

    fn judge_to(
        &mut self,
        version: &Version,
        ip: &Ip4<'_>,
        bearer: &ActiveBearer,
        peer: Peer,
        len: u32,
    ) -> Result<Verdict, NoMemory>
        requires len { len ≡ length ip.now }
        requires short { len < 2 ^ 16 }
        ensures { (packet : Packet) → packet.octets ≡ ip.now
            → IfOk result (λ verdict. judged_to (past_at version.now self.old) packet bearer.now (Some peer)
            ≡ (past_at version.now self.new, verdict)) }
    {
        let octets = ip.octets();
        if !self.forward(version, bearer, false, len)? {
            return Ok(Verdict::Policed { life: bearer.life });
        }
        Ok(Verdict::Down {
            life: bearer.life,
            peer: peer.addr,
            octets: gpdu(self.allocator(), peer, octets)?,
        })
    }

    fn judge_waiting(
        &mut self,
        version: &Version,
        packet: &Packet,
        bearer: &ActiveBearer,
    ) -> Result<Verdict, NoMemory>
        requires short { length packet.now.octets < 2 ^ 16 }
        requires ebi { IsEbi bearer.now.ebi }
        ensures { IfOk result (λ verdict. judged_waiting (past_at version.now self.old) packet.now bearer.now
            ≡ (past_at version.now self.new, verdict)) }
    {
        if self.held().len() >= MOST_HELD {
            return Ok(Verdict::Idle { life: bearer.life });
        }
        let message = self.notice(version, packet.number, bearer.ebi)?;
        self.hold(HeldPacket {
            packet: packet.try_clone()?,
            life: bearer.life,
        })?;
        Ok(Verdict::Held {
            life: bearer.life,
            message,
        })
    }

    fn notice(&self, version: &Version, number: u64, ebi: u8) -> Result<Option<Octets>, NoMemory>
        requires { IsEbi ebi }
        ensures { IfOk result (λ message. message ≡ notice (past_at version.now self.now) number ebi) }
    {
        if !self.held().is_empty() {
            return Ok(None);
        }
        match version.mme {
            Some(mme) => Ok(Some(notification(self.allocator(), mme, number, ebi)?)),
            None => Ok(None),
        }
    }
}

/// The active bearer that a downlink packet takes.
fn taking<'v>(version: &'v Version, ip: &Ip4<'_>) -> Option<&'v ActiveBearer>
    ensures value { option_copied result ≡ bearer_for version.now ip.now }
    ensures ebi { IfSome result (λ bearer. IsEbi bearer.now.ebi) }
{
    match choose(version.rows(), ip) {
        Some(index) => active_at(version, index),
        None => None,
    }
}

/// The active bearer of an index.
fn active_at<'v>(version: &'v Version, index: u8) -> Option<&'v ActiveBearer>
    ensures value { option_copied result ≡ bearer_at version.now.bearers index }
    ensures ebi { IfSome result (λ bearer. IsEbi bearer.now.ebi) }
{
    version.bearer_at(index)
}
