//! One version more, and one packet more.
ghost use Rattle.std.specs.Prelude.{◌≡◌, ℕ, ◌+◌, ◌<◌, ◌≤◌, ◌^◌, [], ◌∷◌, ◌++◌, true};
ghost use Rattle.std.specs.Prelude.{false, Some, length, map, IfOk, IfSome, OnOk, OnErr};
ghost use Rattle.packet_steps.specs.Past.{Past};
ghost use Rattle.packet_steps.specs.Verdicts.{judged};
ghost use Rattle.packet_steps.specs.Standing.{StandsFor, AreFew, last_of};
ghost use Rattle.control_half.specs.Batch.{versions_of, floor_of};
ghost use Rattle.control_half.specs.Published.{in_batch};
ghost use Rattle.counter_half.specs.declared.items.PacketDone.{PacketDone};
ghost use Rattle.counter_half.specs.Moments.{later, not_before, IsJudged};

use crate::half_state::HalfState;
use crate::laws::known_pasts;
use crate::{DataItem, NoMemory, PacketDone, SentPacket, ToldVerdict, VersionDone};
use bearer_state::Version;
use control_half::Batch;
use packet_steps::{Counters, advance, judge};
use pc_base::{Moment, Place};

impl<'p> HalfState<'p> {
    ghost use Rattle.counter_half.specs.State.{learnt_by};

    /// Learns the first version of a batch whose floor is met; tells whether there was one. Out of memory
    /// it stays in the batch.
    pub fn learn_first(&mut self, batch: &mut Batch<Version>) -> Result<bool, NoMemory>
        requires floor { floor_of batch.old ≤ self.old.done }
        requires few { self.old.met < 2 ^ 61 }

        ensures started { self.new.started ≡ self.old.started }
        ensures handled { self.new.handled.items ≡ self.old.handled.items }
        ensures notes { self.new.notes.items ≡ self.old.notes.items }
        ensures done { self.new.done ≡ self.old.done }
        ensures floor { floor_of batch.new ≡ floor_of batch.old }

        // What it learnt and what the batch has left are as before, together.
        ensures whole { learnt_by self.new ++ in_batch batch.new ≡ learnt_by self.old ++ in_batch batch.old }
        ensures one { IfOk result (λ learnt. learnt ≡ true
            → length (versions_of batch.old) ≡ length (versions_of batch.new) + 1) }
        ensures none { IfOk result (λ learnt. learnt ≡ false
            → (versions_of batch.new ≡ []) × (versions_of batch.old ≡ [])) }
        ensures kept { OnErr result ((learnt_by self.new ≡ learnt_by self.old)
            × (versions_of batch.new ≡ versions_of batch.old)) }
    {
        known_pasts();
        let Some(next) = batch.versions().first() else {
            return Ok(false);
        };
        self.effects.reserve(1)?;
        let effects = advance(&mut self.counters, &self.version, next)?;
        let floor = batch.floor();
        let Some(version) = batch.take_first() else {
            unreachable!()
        };
        self.learnt = self.learnt.and(&version, &floor);
        self.version = version;
        self.effects.push_reserved(VersionDone {
            command: self.met,
            effects,
        });
        self.met += 1;
        Ok(true)
    }

    /// Judges a packet whose floor is met, at the last packet's moment where its own is earlier. Out of memory
    /// nothing changes.
    pub fn meet(&mut self, place: Place, item: &DataItem<'p>) -> Result<(), NoMemory>
        requires floor { item.now.floor ≤ self.old.met }
        requires few { self.old.done < 2 ^ 61 }

        ensures started { self.new.started ≡ self.old.started }
        ensures learnt { self.new.learnt.items ≡ self.old.learnt.items }
        ensures met { self.new.met ≡ self.old.met }
        ensures handled { OnOk result (self.new.handled.items
            ≡ self.old.handled.items ++ (item.now, self.old.met) ∷ []) }
        ensures done { OnOk result (self.new.done ≡ self.old.done + 1) }
        ensures place { OnOk result (map (λ (d : PacketDone). d.place) self.new.notes.items
            ≡ map (λ (d : PacketDone). d.place) self.old.notes.items ++ place ∷ []) }
        ensures judged { OnOk result (IsJudged item.now.packet self.old.version self.old.counters self.new.counters
            self.old.notes.items self.new.notes.items) }
        ensures kept { OnErr result ((self.new.handled.items ≡ self.old.handled.items) × (self.new.done ≡ self.old.done)
            × (self.new.notes.items ≡ self.old.notes.items)) }
    {
        known_pasts();
        self.notes.reserve(1)?;
        let verdict = verdict(&mut self.counters, &self.version, &item.packet)?;
        self.notes.push_reserved(PacketDone {
            line: item.line,
            number: item.number,
            commands: self.met,
            verdict,
            place,
        });
        self.handled = self.handled.and(item, &self.met);
        self.done += 1;
        Ok(())
    }
}

/// The verdict on a packet, at the later of its moment and that of the last one.
fn verdict<'p>(
    counters: &mut Counters,
    version: &Version,
    packet: &SentPacket<'p>,
) -> Result<ToldVerdict<'p>, NoMemory>
    ensures verdict { (past : Past) (taken : ℕ) → StandsFor counters.old past taken → past.version ≡ version.now
        → AreFew past.charged
        → IfOk result (λ verdict. verdict ≡ (judged past (not_before (last_of counters.old) packet.now)).1) }
    ensures stands { (past : Past) (taken : ℕ) → StandsFor counters.old past taken → past.version ≡ version.now
        → AreFew past.charged
        → OnOk result (StandsFor counters.new (judged past (not_before (last_of counters.old) packet.now)).0 taken) }
    ensures last { OnOk result (last_of counters.new ≡ Some (later (last_of counters.old) packet.now.moment)) }
    ensures unchanged { OnErr result (counters.new ≡ counters.old) }
{
    let moment = moment_for(counters, packet.moment);
    let judged = judge(
        counters,
        version,
        packet.number,
        moment,
        packet.way,
        &packet.ip,
    )?;
    Ok(ToldVerdict::of(judged, &packet.ip))
}

/// The later of a moment and that of the last packet.
fn moment_for(counters: &Counters, moment: Moment) -> Moment
    ensures later { result ≡ later (last_of counters.now) moment }
    ensures late { IfSome (last_of counters.now) (λ last. last ≤ result) }
{
    match counters.last() {
        Some(last) if last.0 > moment.0 => last,
        _ => moment,
    }
}
