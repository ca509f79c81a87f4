//! A packet is judged and done.
ghost use Rattle.std.specs.Prelude.{◌≡◌, ℕ, ◌≤◌, IfOk, IfSome, OnOk, OnErr, Some};
ghost use Rattle.pc_base.specs.declared.packet.Packet.{Packet};
ghost use Rattle.packet_steps.specs.Past.{Past};
ghost use Rattle.packet_steps.specs.Verdicts.{judged};
ghost use Rattle.packet_steps.specs.Standing.{StandsFor, AreFew, last_of};
ghost use Rattle.packet_steps.specs.Lent.{verdict_of};
ghost use Rattle.packet_steps.specs.Plans.{verdict_by};
ghost use Rattle.packet_steps.specs.Running.{planned, GoesOn};

use crate::counters::Counters;
use crate::{LentVerdict, NoMemory};
use bearer_state::Version;
use ipv4_packet::Ip4;
use pc_base::{Moment, Packet, Verdict, Way};

/// What becomes of a packet by a version, its octets lent. The moment isn't earlier than that of the
/// last packet. Where memory runs out, the counters are as before.
#[inline(always)]
pub fn judge<'a>(
    counters: &mut Counters,
    version: &Version,
    number: u64,
    moment: Moment,
    way: Way,
    ip: &'a Ip4<'_>,
) -> Result<LentVerdict<'a>, NoMemory>
    requires { IfSome (last_of counters.old) (λ last. last ≤ moment) }

    ensures verdict { (past : Past) (taken : ℕ) (packet : Packet) → StandsFor counters.old past taken
        → past.version ≡ version.now → AreFew past.charged
        → packet ≡ record { number = number; moment = moment; way = way; octets = ip.now }
        → IfOk result (λ told. verdict_of told ≡ (judged past packet).1) }
    ensures stands { (past : Past) (taken : ℕ) (packet : Packet) → StandsFor counters.old past taken
        → past.version ≡ version.now → AreFew past.charged
        → packet ≡ record { number = number; moment = moment; way = way; octets = ip.now }
        → OnOk result (StandsFor counters.new (judged past packet).0 taken) }

    // The same by the counters alone, also of ones that were made of parts.
    ensures planned { (packet : Packet)
        → packet ≡ record { number = number; moment = moment; way = way; octets = ip.now }
        → IfOk result (λ told. verdict_of told ≡ verdict_by (planned version.now counters.old packet) ip.now) }
    ensures goes_on { (packet : Packet)
        → packet ≡ record { number = number; moment = moment; way = way; octets = ip.now }
        → OnOk result (GoesOn (planned version.now counters.old packet) packet counters.old counters.new) }
    ensures moment { OnOk result (last_of counters.new ≡ Some moment) }
    ensures unchanged { OnErr result (counters.new ≡ counters.old) }
{
    match way {
        // Each way is compiled by itself.
        Way::Up(index) => lent(counters, version, number, moment, Way::Up(index), ip),
        Way::Down => lent(counters, version, number, moment, Way::Down, ip),
    }
}

/// What becomes of a packet by a version. The moment isn't earlier than that of the last packet.
/// Where memory runs out, the counters are as before.
pub fn handle(
    counters: &mut Counters,
    version: &Version,
    packet: &Packet,
) -> Result<Verdict, NoMemory>
    requires { IfSome (last_of counters.old) (λ last. last ≤ packet.now.moment) }

    ensures verdict { (past : Past) (taken : ℕ) → StandsFor counters.old past taken → past.version ≡ version.now
        → AreFew past.charged
        → IfOk result (λ verdict. verdict ≡ (judged past packet.now).1) }
    ensures stands { (past : Past) (taken : ℕ) → StandsFor counters.old past taken → past.version ≡ version.now
        → AreFew past.charged
        → OnOk result (StandsFor counters.new (judged past packet.now).0 taken) }

    // The same by the counters alone, also of ones that were made of parts.
    ensures planned { IfOk result (λ verdict. verdict
        ≡ verdict_by (planned version.now counters.old packet.now) packet.now.octets) }
    ensures goes_on { OnOk result
        (GoesOn (planned version.now counters.old packet.now) packet.now counters.old counters.new) }
    ensures moment { OnOk result (last_of counters.new ≡ Some packet.now.moment) }
    ensures unchanged { OnErr result (counters.new ≡ counters.old) }
{
    let octets = packet.octets.as_slice();
    let Some(ip) = Ip4::whole(octets) else {
        counters.stay(packet.moment);
        return Ok(Verdict::NoBearer);
    };
    match packet.way {
        Way::Up(index) => owned(
            counters,
            version,
            packet.number,
            packet.moment,
            Way::Up(index),
            &ip,
        ),
        Way::Down => owned(
            counters,
            version,
            packet.number,
            packet.moment,
            Way::Down,
            &ip,
        ),
    }
}

/// The octets lent.
#[inline(always)]
fn lent<'a>(
    counters: &mut Counters,
    version: &Version,
    number: u64,
    moment: Moment,
    way: Way,
    ip: &'a Ip4<'_>,
) -> Result<LentVerdict<'a>, NoMemory>
    requires { IfSome (last_of counters.old) (λ last. last ≤ moment) }

    ensures verdict { (past : Past) (taken : ℕ) (packet : Packet) → StandsFor counters.old past taken
        → past.version ≡ version.now → AreFew past.charged
        → packet ≡ record { number = number; moment = moment; way = way; octets = ip.now }
        → IfOk result (λ told. verdict_of told ≡ (judged past packet).1) }
    ensures stands { (past : Past) (taken : ℕ) (packet : Packet) → StandsFor counters.old past taken
        → past.version ≡ version.now → AreFew past.charged
        → packet ≡ record { number = number; moment = moment; way = way; octets = ip.now }
        → OnOk result (StandsFor counters.new (judged past packet).0 taken) }
    ensures planned { (packet : Packet)
        → packet ≡ record { number = number; moment = moment; way = way; octets = ip.now }
        → IfOk result (λ told. verdict_of told ≡ verdict_by (planned version.now counters.old packet) ip.now) }
    ensures goes_on { (packet : Packet)
        → packet ≡ record { number = number; moment = moment; way = way; octets = ip.now }
        → OnOk result (GoesOn (planned version.now counters.old packet) packet counters.old counters.new) }
    ensures moment { OnOk result (last_of counters.new ≡ Some moment) }
    ensures unchanged { OnErr result (counters.new ≡ counters.old) }
{
    let octets = ip.octets();
    let plan = counters.plan(version, number, moment, way, ip)?;
    counters.carry_out(&plan, number, moment, way, octets)?;
    Ok(plan.lend(octets))
}

/// The octets owned.
#[inline(always)]
fn owned(
    counters: &mut Counters,
    version: &Version,
    number: u64,
    moment: Moment,
    way: Way,
    ip: &Ip4<'_>,
) -> Result<Verdict, NoMemory>
    requires { IfSome (last_of counters.old) (λ last. last ≤ moment) }

    ensures verdict { (past : Past) (taken : ℕ) (packet : Packet) → StandsFor counters.old past taken
        → past.version ≡ version.now → AreFew past.charged
        → packet ≡ record { number = number; moment = moment; way = way; octets = ip.now }
        → IfOk result (λ verdict. verdict ≡ (judged past packet).1) }
    ensures stands { (past : Past) (taken : ℕ) (packet : Packet) → StandsFor counters.old past taken
        → past.version ≡ version.now → AreFew past.charged
        → packet ≡ record { number = number; moment = moment; way = way; octets = ip.now }
        → OnOk result (StandsFor counters.new (judged past packet).0 taken) }
    ensures planned { (packet : Packet)
        → packet ≡ record { number = number; moment = moment; way = way; octets = ip.now }
        → IfOk result (λ told. told ≡ verdict_by (planned version.now counters.old packet) ip.now) }
    ensures goes_on { (packet : Packet)
        → packet ≡ record { number = number; moment = moment; way = way; octets = ip.now }
        → OnOk result (GoesOn (planned version.now counters.old packet) packet counters.old counters.new) }
    ensures moment { OnOk result (last_of counters.new ≡ Some moment) }
    ensures unchanged { OnErr result (counters.new ≡ counters.old) }
{
    let octets = ip.octets();
    let plan = counters.plan(version, number, moment, way, ip)?;
    let alloc = *counters.held.allocator();
    let verdict = plan.verdict(alloc, octets)?;
    counters.carry_out(&plan, number, moment, way, octets)?;
    Ok(verdict)
}
