//! What a new version brings, by the plain lists.
ghost use Rattle.std.specs.Prelude.{◌≡◌, ◌∷◌, ◌++◌, [], fold, IfOk, OnOk};
ghost use Rattle.pc_base.specs.declared.effect.Effect.{Effect};
ghost use Rattle.pc_base.specs.declared.effect.Effect.TheVariants as effect;
ghost use Rattle.packet_steps.specs.Change.{learnt, released, released_to};
ghost use Rattle.gate_model.specs.Memory.{past_at};

use crate::NoMemory;
use crate::memory::Memory;
use bearer_state::{ActiveBearer, Version};
use packet_steps::{Effects, HeldPacket, bearer_of, gpdu, markers, marks};
use pc_base::{Effect, Fate, Items, Peer};

impl Memory {
    ghost use Rattle.std.specs.Prelude.{Some};

    /// What a version brings that follows on another one.
    pub(crate) fn learn(&mut self, before: &Version, after: &Version) -> Result<Effects, NoMemory>
        ensures { IfOk result (λ effects. learnt (past_at before.now self.old) after.now
            ≡ (past_at after.now self.new, effects)) }
    {
        let alloc = self.allocator();
        let postings = marks(alloc, before, after)?;
        self.mark(&postings)?;
        let mut effects = markers(alloc, before, after)?;
        let rows = self.take_held();
        self.release_all(after, &rows, &mut effects)?;
        Ok(Items::of(effects))
    }

    /// The packets that were held, in the order of holding.
    fn release_all(
        &mut self,
        version: &Version,
        rows: &[HeldPacket],
        effects: &mut Vec<Effect>,
    ) -> Result<(), NoMemory>
        ensures { OnOk result (fold released (past_at version.now self.old, effects.old.items) rows.now
            ≡ (past_at version.now self.new, effects.new.items)) }
    {
        for row in rows {
            self.release(version, row, effects)?;
        }
        Ok(())
    }

    fn release(
        &mut self,
        version: &Version,
        row: &HeldPacket,
        effects: &mut Vec<Effect>,
    ) -> Result<(), NoMemory>
        ensures { OnOk result (released (past_at version.now self.old, effects.old.items) row.now
            ≡ (past_at version.now self.new, effects.new.items)) }
    {
        let Some(bearer) = bearer_of(version.bearers(), row.life) else {
            return tell(effects, row, Fate::Gone { life: row.life });
        };
        match bearer.enb {
            Some(peer) => self.release_to(version, row, effects, bearer, peer),
            None => self.hold(row.try_clone()?),
        }
    }

    fn release_to(
        &mut self,
        version: &Version,
        row: &HeldPacket,
        effects: &mut Vec<Effect>,
        bearer: &ActiveBearer,
        peer: Peer,
    ) -> Result<(), NoMemory>
        ensures { OnOk result (released_to (past_at version.now self.old, effects.old.items) row.now bearer.now
            (Some peer) ≡ (past_at version.now self.new, effects.new.items)) }
    {
        let octets = row.packet.octets.as_slice();
        if !self.forward(version, bearer, false, octets.len() as u32)? {
            return tell(effects, row, Fate::Policed { life: row.life });
        }
        tell(
            effects,
            row,
            Fate::Down {
                life: row.life,
                peer: peer.addr,
                octets: gpdu(self.allocator(), peer, octets)?,
            },
        )
    }
}

/// One effect more: the fate of a held packet.
fn tell(effects: &mut Vec<Effect>, held: &HeldPacket, fate: Fate) -> Result<(), NoMemory>
    ensures { OnOk result (effects.new.items ≡ effects.old.items ++ effect.Fate held.now.packet.number fate ∷ []) }
{
    effects.push(Effect::Fate {
        packet: held.packet.number,
        fate,
    })?;
    Ok(())
}
