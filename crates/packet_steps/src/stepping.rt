//! What becomes of a packet is done.
ghost use Rattle.std.specs.Prelude.{◌≡◌, ℕ, ◌<◌, ◌≤◌, ◌^◌, length, Some, IfSome, OnOk, OnErr};
ghost use Rattle.std.specs.List.{Contains};
ghost use Rattle.pc_base.specs.declared.packet.Packet.{Packet};
ghost use Rattle.pc_base.specs.declared.packet.Way.TheVariants as way;
ghost use Rattle.ipv4_packet.specs.Packet.{IsPacket};
ghost use Rattle.packet_steps.specs.Past.{Past, moment_of, row_for, with_row, with_held};
ghost use Rattle.packet_steps.specs.Verdicts.{at_moment};
ghost use Rattle.packet_steps.specs.Standing.{StandsFor, AreFew, last_of};
ghost use Rattle.packet_steps.specs.Plans.{Does, PolicesBehind, PolicesStill};

use crate::counters::Counters;
use crate::plan::Plan;
use crate::{HeldPacket, NoMemory};
use bearer_state::ActiveBearer;
use charging_book::Posting;
use pc_base::{Moment, Octets, Packet, Way};
use rate_policer::Bucket;

impl Counters {
    ghost use Rattle.std.specs.Prelude.{[], ◌∷◌, ◌++◌};
    ghost use Rattle.charging_book.specs.Posted.{GoesFar};
    ghost use Rattle.packet_steps.specs.Meters.{put_bucket};
    ghost use Rattle.packet_steps.specs.Running.{charge_of, GoesOn};

    /// Does what a plan says of a packet, or nothing where memory runs out.
    #[inline(always)]
    pub(crate) fn carry_out(
        &mut self,
        plan: &Plan,
        number: u64,
        moment: Moment,
        way: Way,
        octets: &[u8],
    ) -> Result<(), NoMemory>
        requires packet { IsPacket octets.now }
        requires late { IfSome (last_of self.old) (λ last. last ≤ moment) }
        ensures stands { (past next : Past) (taken : ℕ) (packet : Packet) → StandsFor self.old past taken
            → moment_of past ≤ moment
            → AreFew past.charged → packet ≡ record { number = number; moment = moment; way = way; octets = octets.now }
            → Does plan.now (at_moment past moment) packet next → OnOk result (StandsFor self.new next taken) }
        ensures goes_on { (packet : Packet)
            → packet ≡ record { number = number; moment = moment; way = way; octets = octets.now }
            → OnOk result (GoesOn plan.now packet self.old self.new) }
        ensures moment { OnOk result (last_of self.new ≡ Some moment) }
        ensures unchanged { OnErr result (self.new ≡ self.old) }
    {
        match plan {
            Plan::Up {
                bearer,
                bucket,
                len,
            } => self.pass(bearer, true, *bucket, moment, *len),
            Plan::Down {
                bearer,
                bucket,
                len,
                ..
            } => self.pass(bearer, false, *bucket, moment, *len),
            Plan::Hold { life, .. } => self.hold(*life, number, moment, way, octets),
            Plan::Policed { bearer, up, bucket } => self.refuse(bearer, *up, *bucket, moment),
            Plan::NoBearer | Plan::Spoof | Plan::Idle { .. } => {
                self.stay(moment);
                Ok(())
            }
        }
    }

    /// A packet came that changes nothing.
    pub(crate) fn stay(&mut self, moment: Moment)
        requires { IfSome (last_of self.old) (λ last. last ≤ moment) }
        ensures stands { (past : Past) (taken : ℕ) → StandsFor self.old past taken → moment_of past ≤ moment
            → StandsFor self.new (at_moment past moment) taken }
        ensures same { self.new ≡ record self.old { last = Some moment } }
        ensures moment { last_of self.new ≡ Some moment }
    {
        self.last = Some(moment);
    }

    // A packet came that its bearer's bucket doesn't let through.
    #[inline(always)]
    fn refuse(
        &mut self,
        bearer: &ActiveBearer,
        up: bool,
        bucket: Bucket,
        moment: Moment,
    ) -> Result<(), NoMemory>
        requires { IfSome (last_of self.old) (λ last. last ≤ moment) }
        ensures stands { (past : Past) (taken : ℕ) → StandsFor self.old past taken → moment_of past ≤ moment
            → Contains past.version.bearers bearer.now
            → PolicesStill (at_moment past moment) bearer.now up bucket
            → OnOk result (StandsFor self.new (at_moment past moment) taken) }
        ensures same { OnOk result (self.new ≡ record self.old {
          meters = put_bucket self.old.meters bearer.now up bucket;
          last = Some moment;
        }) }
        ensures moment { OnOk result (last_of self.new ≡ Some moment) }
        ensures unchanged { OnErr result (self.new ≡ self.old) }
    {
        self.meters.try_put(bearer, up, bucket)?;
        self.last = Some(moment);
        Ok(())
    }

    fn hold(
        &mut self,
        life: u64,
        number: u64,
        moment: Moment,
        way: Way,
        octets: &[u8],
    ) -> Result<(), NoMemory>
        requires octets { length octets.now < 2 ^ 16 }
        requires late { IfSome (last_of self.old) (λ last. last ≤ moment) }
        ensures stands { (past : Past) (taken : ℕ) → StandsFor self.old past taken → moment_of past ≤ moment
            → OnOk result (StandsFor self.new (with_held (at_moment past moment)
            (record {
              packet = record { number = number; moment = moment; way = way; octets = octets.now };
              life = life;
            })) taken) }
        ensures held { OnOk result (self.new ≡ record self.old {
          held = self.old.held ++ record {
            packet = record { number = number; moment = moment; way = way; octets = octets.now };
            life = life;
          } ∷ [];
          last = Some moment;
        }) }
        ensures moment { OnOk result (last_of self.new ≡ Some moment) }
        ensures unchanged { OnErr result (self.new ≡ self.old) }
    {
        let alloc = *self.held.allocator();
        let packet = Packet {
            number,
            moment,
            way,
            octets: Octets::of(Vec::from_slice(alloc, octets)?),
        };
        self.held.push(HeldPacket { packet, life })?;
        self.last = Some(moment);
        Ok(())
    }

    #[inline(always)]
    fn pass(
        &mut self,
        bearer: &ActiveBearer,
        up: bool,
        bucket: Bucket,
        moment: Moment,
        octets: u32,
    ) -> Result<(), NoMemory>
        requires { IfSome (last_of self.old) (λ last. last ≤ moment) }
        ensures stands { (past : Past) (taken : ℕ) → StandsFor self.old past taken → moment_of past ≤ moment
            → AreFew past.charged
            → Contains past.version.bearers bearer.now
            → PolicesBehind (at_moment past moment) bearer.now up octets bucket
            → OnOk result (StandsFor self.new
            (with_row (at_moment past moment) (row_for (at_moment past moment) bearer.now up octets)) taken) }
        ensures meters { OnOk result (self.new.meters ≡ put_bucket self.old.meters bearer.now up bucket) }
        ensures book { OnOk result
            (GoesFar self.old.book self.new.book (charge_of bearer.now up octets moment ∷ [])) }
        ensures held { OnOk result (self.new.held ≡ self.old.held) }
        ensures moment { OnOk result (last_of self.new ≡ Some moment) }
        ensures unchanged { OnErr result (self.new ≡ self.old) }
    {
        self.meters.keep_place(bearer)?;
        self.book.post_one(&Posting::Packet {
            life: bearer.life,
            up,
            octets,
            at: moment,
        })?;
        self.meters.put(bearer, up, bucket);
        self.last = Some(moment);
        Ok(())
    }
}
