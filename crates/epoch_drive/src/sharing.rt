//! The commands and packets that were taken, by slot.
ghost use Rattle.std.specs.Prelude.{◌≡◌, ◌<◌, ℕ, ◌++◌, ◌∷◌, [], List, All, length, map, vec_len, true, IfOk, OnOk};
ghost use Rattle.lawful_run.specs.LinesTold.{LineTold};
ghost use Rattle.slot_execution.specs.Kept.{IsPlaced, meaning_in};
ghost use Rattle.at_rest.specs.Meant.{IsWithin};
ghost use Rattle.epoch_drive.specs.DrivenOpened.{open_entry};
ghost use Rattle.epoch_drive.specs.Opened.{opened};
ghost use Rattle.epoch_drive.specs.Shares.{
  AreMet,
  AreShares,
  GivesCommand,
  GivesPacket,
  HasMet,
  IsEmpty,
  MayMeet,
};

use bumpalo::Bump;
use control_steps::Command;
use demux::LentPacket;
use epoch_schedule::{LineOutcome, Scheduled};
use pc_base::Slot;
use slot_execution::{KeptMeaning, Placed, packet_at};
use std::alloc::{AllocError, Global};
use subscriber::Subscriber;

/// The commands and packets of a slot, in line order: many short lists, which are given up together.
#[derive(Drop)]
pub struct Share<'a, 'b> {
    pub commands: Vec<&'a Command, &'b Bump>,
    pub packets: Vec<Placed<'a>, &'b Bump>,
}

/// What was taken of the lines, whose packets have these octets, for each of so many subscribers.
pub fn shares_of<'a, 'b>(
    alloc: Global,
    arena: &'b Bump,
    slots: u32,
    subscribers: &[Subscriber],
    scheduled: &Scheduled<'_>,
    kept: &'a [KeptMeaning],
    octets: &'a [u8],
) -> Result<Vec<Share<'a, 'b>>, AllocError>
    requires slots { slots ≡ length subscribers.now }
    requires within { All (IsWithin (length subscribers.now)) (map (meaning_in octets.now) kept.now) }
    requires placed { All (IsPlaced octets.now) kept.now }
    requires outcomes { length scheduled.now.outcomes ≡ length kept.now }
    requires met { AreMet scheduled.now subscribers.now
        (opened 0 (map (meaning_in octets.now) kept.now) scheduled.now.outcomes) }

    ensures many { IfOk result (λ shares. vec_len shares ≡ length subscribers.now) }
    ensures shares { (first : ℕ) → IfOk result (λ shares. AreShares shares.items subscribers.now scheduled.now
        (opened first (map (meaning_in octets.now) kept.now) scheduled.now.outcomes)) }
{
    let mut shares = empty_shares(alloc, arena, slots, scheduled)?;
    let outcomes = scheduled.outcomes();
    for (i, now) in kept.iter().enumerate() {
        share_line(
            &mut shares,
            subscribers,
            scheduled,
            octets,
            now,
            outcomes[i],
        )?;
    }
    Ok(shares)
}

// As many packets as meet something will come, so there is room for them.
fn empty_shares<'a, 'b>(
    alloc: Global,
    arena: &'b Bump,
    slots: u32,
    scheduled: &Scheduled<'_>,
) -> Result<Vec<Share<'a, 'b>>, AllocError>
    ensures many { IfOk result (λ shares. vec_len shares ≡ slots) }
    ensures empty { IfOk result (λ shares. All IsEmpty shares.items) }
{
    let mut shares: Vec<Share<'a, 'b>> = Vec::with_capacity(alloc, slots as usize)?;
    for i in 0..slots {
        let share: Share<'a, 'b> = Share {
            commands: Vec::new(arena),
            packets: Vec::with_capacity(arena, scheduled.met_count(i))?,
        };
        shares.push_reserved(share);
    }
    Ok(shares)
}

// A line, if it was taken.
fn share_line<'a, 'b>(
    shares: &mut Vec<Share<'a, 'b>>,
    subscribers: &[Subscriber],
    scheduled: &Scheduled<'_>,
    octets: &'a [u8],
    now: &'a KeptMeaning,
    outcome: LineOutcome,
) -> Result<(), AllocError>
    requires within { IsWithin (vec_len shares.old) (meaning_in octets.now now.now) }
    requires placed { IsPlaced octets.now now.now }
    requires many { vec_len shares.old ≡ length subscribers.now }
    requires met { outcome.taken ≡ true
        → HasMet shares.old.items subscribers.now scheduled.now (meaning_in octets.now now.now) }

    ensures shares { (told : List LineTold) (n : ℕ)
        → AreShares shares.old.items subscribers.now scheduled.now told
        → OnOk result (AreShares shares.new.items subscribers.now scheduled.now (told ++ record {
          meaning = meaning_in octets.now now.now;
          entry = open_entry n (meaning_in octets.now now.now) outcome;
        } ∷ [])) }
    ensures many { OnOk result (vec_len shares.new ≡ vec_len shares.old) }
{
    if !outcome.taken {
        return Ok(());
    }
    match now {
        KeptMeaning::Command { slot, command } => give_command(shares, *slot, &**command),
        KeptMeaning::Packet { slot, packet } => {
            let lent = packet_at(octets, packet);
            give_packet(shares, subscribers, scheduled, *slot, lent)
        }
        KeptMeaning::Move {
            slot: _,
            slice: _,
            text: _,
        } => Ok(()),
        KeptMeaning::Note(_) => Ok(()),
    }
}

fn give_command<'a, 'b>(
    shares: &mut Vec<Share<'a, 'b>>,
    slot: Slot,
    command: &'a Command,
) -> Result<(), AllocError>
    requires { slot < vec_len shares.old }
    ensures { OnOk result (GivesCommand shares.old.items shares.new.items slot command.now) }
{
    let share = &mut shares[slot.0 as usize];
    share.commands.push(command)?;
    Ok(())
}

// A packet meets the next of its slot's counts, behind the commands before the epoch.
fn give_packet<'a, 'b>(
    shares: &mut Vec<Share<'a, 'b>>,
    subscribers: &[Subscriber],
    scheduled: &Scheduled<'_>,
    slot: Slot,
    packet: LentPacket<'a>,
) -> Result<(), AllocError>
    requires low { slot < vec_len shares.old }
    requires many { vec_len shares.old ≡ length subscribers.now }
    requires met { MayMeet shares.old.items subscribers.now scheduled.now slot }
    ensures { OnOk result
        (GivesPacket shares.old.items shares.new.items subscribers.now scheduled.now slot packet.entry) }
{
    let place = slot.0 as usize;
    let before = subscribers[place].commands();
    let share = &mut shares[place];
    let number = share.packets.len();
    let met = scheduled.met(slot.0, number);
    let placed = Placed {
        commands: before + met.commands as u64,
        place: met.place,
        packet,
    };
    share.packets.push(placed)?;
    Ok(())
}
