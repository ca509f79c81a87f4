//! The end at which commands and packets are numbered.
ghost use Rattle.std.specs.Prelude.{◌≡◌, ◌+◌, ◌<◌, ◌≤◌, ◌^◌, [], length, All, OnOk, OnErr, IfErr, IsOk};
ghost use Rattle.lane_core.specs.Ends.{sent, sender_lane, full_answers, raised};
ghost use Rattle.subscriber.specs.Standing.{commands_met};
ghost use Rattle.control_half.specs.declared.items.CommandItem.{CommandItem};

use control_half::{BoxedCommand, CommandItem};
use counter_half::{DataItem, SentPacket};
use lane_core::{Full, Sender};
use pc_base::{SliceNo, Slot};
use std::snapshot::Snapshot;
use std::sync::Wait;
use subscriber::Subscriber;

/// A split subscriber at the front. It sends commands on their lane, and makes the items of packets.
#[derive(Drop)]
pub struct FrontEnd {
    pub(crate) slot: Slot,
    /// The subscriber as it was when it was split.
    pub(crate) started: Snapshot<Subscriber>,
    pub(crate) destination: SliceNo,
    pub(crate) lane: Sender<CommandItem>,
    /// How many commands and packets were accepted in all.
    pub(crate) commands: u64,
    pub(crate) packets: u64,
    /// How often the subscriber moved in this epoch.
    pub(crate) hop: u64,
    /// The counts at the split, or at its last move: no command is learnt before so many packets, and no
    /// packet is handled before so many commands.
    pub(crate) packets_before: u64,
    pub(crate) commands_before: u64,
    pub ghost of_slot: { slot ≡ started.value.session.slot },
    pub ghost bound: { destination ≡ started.value.destination },
    pub ghost counted: { commands ≡ commands_met started.value + length (sent lane) },
    ghost floors: { All (λ (c : CommandItem). c.floor ≤ packets) (sent lane) },
    pub ghost few: { packets ≤ started.value.packets + 2 ^ 50 },
    ghost commands_few: { commands_before ≤ commands },
    ghost packets_few: { packets_before ≤ packets },
    pub ghost begun: { (commands_met started.value ≤ 2 ^ 60) × (started.value.packets ≤ 2 ^ 60) },
    pub ghost rising: { started.value.packets ≤ packets },
    pub ghost roomy: { 1 ≤ (sender_lane lane).room },
}

impl FrontEnd {
    ghost use Rattle.split_record.specs.Accepted.{MayStand};
    ghost use Rattle.split_record.specs.Rejoined.{commands_sent, IsSameFront, KeepsFloors, Sends, IsItemOf};

    /// Sends a command, which is accepted; or it comes back, where the lane is full.
    pub fn give_command<R: Wait>(
        &mut self,
        rt: &R,
        line: u64,
        command: BoxedCommand,
    ) -> Result<(), Full<BoxedCommand>>
        requires { length (commands_sent self.old) < 2 ^ 50 }

        ensures same { IsSameFront self.old self.new }
        ensures packets { self.new.packets ≡ self.old.packets }
        ensures hop { self.new.hop ≡ self.old.hop }
        ensures floors { KeepsFloors self.old self.new }
        ensures ok { OnOk result (Sends self.old line command self.new) }
        ensures full { IfErr result (λ full. (full.0 ≡ command)
            × (commands_sent self.new ≡ commands_sent self.old) × (self.new.commands ≡ self.old.commands)
            × (full_answers self.new.lane ≡ raised (full_answers self.old.lane))) }

        // A command comes back only once as many were sent in all as the lane has room for: never the first one.
        ensures room { OnErr result ((sender_lane self.old.lane).room ≤ length (commands_sent self.old)) }
        ensures first { commands_sent self.old ≡ [] → IsOk result }
    {
        let item = CommandItem {
            number: self.commands,
            hop: self.hop,
            floor: self.packets_before,
            line,
            command,
        };
        match self.lane.offer(rt, item) {
            Ok(()) => {
                self.commands += 1;
                Ok(())
            }
            Err(Full(item)) => Err(Full(item.command)),
        }
    }

    /// The item of a packet, which takes the next number. It isn't counted before it is `accepted`.
    pub fn packet_item<'p>(&self, line: u64, packet: SentPacket<'p>) -> DataItem<'p>
        ensures made { IsItemOf self.now line packet.entry result }

        // It may stand among the commands that were accepted, whatever more are accepted later.
        ensures standing { MayStand (commands_met self.now.started.value) (commands_sent self.now) result }
    {
        let SentPacket {
            moment,
            way,
            ip,
            ..
        } = packet;
        DataItem {
            slot: self.slot,
            number: self.packets,
            floor: self.commands_before,
            line,
            packet: SentPacket {
                number: self.packets,
                moment,
                way,
                ip,
            },
        }
    }

    /// Counts a packet, whose item was accepted.
    pub fn accepted(&mut self)
        requires { self.old.packets < self.old.started.value.packets + 2 ^ 50 }
        ensures same { IsSameFront self.old self.new }
        ensures commands { (commands_sent self.new ≡ commands_sent self.old) × (self.new.commands ≡ self.old.commands) }
        ensures packets { self.new.packets ≡ self.old.packets + 1 }
        ensures hop { self.new.hop ≡ self.old.hop }
        ensures floors { KeepsFloors self.old self.new }
    {
        self.packets += 1;
    }

    /// The subscriber moves: what comes from now on waits for what was accepted before.
    pub fn moved(&mut self)
        requires { self.old.hop < 2 ^ 61 }
        ensures same { IsSameFront self.old self.new }
        ensures commands { (commands_sent self.new ≡ commands_sent self.old) × (self.new.commands ≡ self.old.commands) }
        ensures packets { self.new.packets ≡ self.old.packets }
        ensures hop { self.new.hop ≡ self.old.hop + 1 }
        ensures floors { (self.new.packets_before ≡ self.old.packets) × (self.new.commands_before ≡ self.old.commands) }
    {
        self.hop += 1;
        self.packets_before = self.packets;
        self.commands_before = self.commands;
    }

    /// The subscriber's slot.
    pub fn slot(&self) -> Slot
        ensures { result ≡ self.now.slot }
    {
        self.slot
    }

    /// How many commands were accepted in all.
    pub fn commands(&self) -> u64
        ensures { result ≡ commands_met self.now.started.value + length (commands_sent self.now) }
    {
        self.commands
    }

    /// How many packets were accepted in all.
    pub fn packets(&self) -> u64
        ensures { result ≡ self.now.packets }
    {
        self.packets
    }

    /// How often a command found its lane full; at the last u64 it stays.
    pub fn fulls(&self) -> u64
        ensures { result ≡ full_answers self.now.lane }
    {
        self.lane.fulls()
    }
}
