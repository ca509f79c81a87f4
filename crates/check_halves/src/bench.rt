//! A subscriber that is split, and turned by hand.
ghost use Rattle.std.specs.Prelude.{◌≡◌, ◌≤◌, [], ◌++◌, All, IfOk, None, unwrap_or};
ghost use Rattle.subscriber.specs.Standing.{StandsFor, last_of};
ghost use Rattle.counter_half.specs.declared.items.DataItem.{DataItem};
ghost use Rattle.counter_half.specs.Half.{handled_by};
ghost use Rattle.split_record.specs.Rejoined.{AreOfOneSplit, AreAccepted, start_of};
ghost use Rattle.split_record.specs.Props.{accepted_prop};

use crate::meaning::meant_by;
use crate::patience::{OrderStop, again};
use control_half::{BoxedCommand, ControlHalf};
use counter_half::{DataHalf, DataItem, SentPacket};
use demux::{LentPacket, Meant};
use lane_core::Full;
use pc_base::{SliceNo, Slot};
use split_record::{Finished, FrontEnd, NoMemory, RecordParts, finish, split};
use std::alloc::Global;
use std::sync::Wait;
use subscriber::{Subscriber, few_events_leave_room};
use trace_lines::TraceLine;
use worker_core::{DataTraveller, Traveller};

/// How many slices there are.
pub const SLICES: u8 = 2;

/// How many commands may wait.
pub const ROOM: u32 = 4;

/// The parts of a split subscriber, the packets that were accepted and not handled yet, and the moment of the last
/// one; and how often it moved. What it was given meets what `finish` asks.
#[derive(Drop)]
struct HalfBench<'p> {
    front: FrontEnd,
    control: ControlHalf,
    data_half: DataHalf<'p>,
    left: Vec<DataItem<'p>>,
    last: u64,
    moves: u8,
    ghost one: { AreOfOneSplit front control data_half },
    ghost accepted: { AreAccepted front (handled_by data_half ++ left.items) } by { accepted_prop },
    ghost begun: { unwrap_or (last_of (start_of front)) 0 ≤ last },
    ghost late: { All (λ (i : DataItem). i.packet.moment ≤ last) (handled_by data_half ++ left.items) },
    ghost moved: { front.hop ≡ moves },
}

// No packets, with room for those of a trace.
fn new_left<'p>(alloc: Global) -> Result<Vec<DataItem<'p>>, NoMemory>
    ensures { IfOk result (λ made. made.items ≡ []) }
{
    for _ in 0..2 {
        if let Ok(left) = Vec::with_capacity(alloc, 16) {
            return Ok(left);
        }
    }
    Vec::with_capacity(alloc, 16)
}

fn new_record(alloc: Global) -> Result<Subscriber, NoMemory>
    ensures stands { IfOk result (λ made. StandsFor made 0 [] 0) }
    ensures last { IfOk result (λ made. last_of made ≡ None) }
{
    for _ in 0..2 {
        if let Ok(record) = Subscriber::new(alloc, Slot(0), SliceNo(0)) {
            return Ok(record);
        }
    }
    Subscriber::new(alloc, Slot(0), SliceNo(0))
}

// A new subscriber, split. Out of memory, the record is as before, and is split again.
fn new_parts<'p>(alloc: Global) -> Result<(FrontEnd, ControlHalf, DataHalf<'p>), OrderStop>
    ensures one { IfOk result (λ parts. AreOfOneSplit parts.0 parts.1 parts.2) }
    ensures packets { IfOk result (λ parts. parts.0.packets ≡ (start_of parts.0).packets) }
    ensures hop { IfOk result (λ parts. parts.0.hop ≡ 0) }
    ensures handled { IfOk result (λ parts. handled_by parts.2 ≡ []) }
    ensures last { IfOk result (λ parts. last_of (start_of parts.0) ≡ None) }
{
    let record = new_record(alloc)?;
    few_events_leave_room();
    match split(alloc, record, ROOM, 0) {
        Ok(parts) => Ok(parts),
        Err(record) => match split(alloc, record, ROOM, 0) {
            Ok(parts) => Ok(parts),
            Err(_) => Err(OrderStop::NoMemory),
        },
    }
}

impl<'p> HalfBench<'p> {
    // A new subscriber, over lanes of that room.
    fn new(alloc: Global) -> Result<HalfBench<'p>, OrderStop> {
        let left = new_left(alloc)?;
        let (front, control, data_half) = new_parts(alloc)?;
        Ok(HalfBench {
            front,
            control,
            data_half,
            left,
            last: 0,
            moves: 0,
        })
    }

    // What all lines mean, and then the steps of an order.
    fn play<R: Wait>(
        &mut self,
        rt: &R,
        alloc: Global,
        lines: Vec<Meant<'p>>,
        order: &str,
    ) -> Result<(), OrderStop> {
        self.give_all(rt, alloc, lines)?;
        for step in order.chars() {
            self.step(rt, step)?;
        }
        Ok(())
    }

    fn give_all<R: Wait>(
        &mut self,
        rt: &R,
        alloc: Global,
        lines: Vec<Meant<'p>>,
    ) -> Result<(), OrderStop> {
        let mut line = 0u64;
        for meant in lines {
            line = line.saturating_add(1);
            self.give(rt, alloc, line, meant)?;
        }
        Ok(())
    }

    fn give<R: Wait>(
        &mut self,
        rt: &R,
        alloc: Global,
        line: u64,
        meant: Meant<'p>,
    ) -> Result<(), OrderStop> {
        match meant {
            Meant::Command { command, .. } => {
                let command = again(|| BoxedCommand::of(alloc, command.try_clone()?))?;
                self.give_command(rt, line, command)
            }
            Meant::Packet { packet, .. } => self.give_packet(line, sent_of(packet)),
            Meant::Move { .. } => self.move_on(),
            Meant::Note(_) => Err(OrderStop::Trace),
        }
    }

    fn move_on(&mut self) -> Result<(), OrderStop> {
        if self.moves > 100 {
            return Err(OrderStop::Trace);
        }
        self.front.moved();
        self.moves += 1;
        Ok(())
    }

    // Room for its item was made at the start.
    fn give_packet(&mut self, line: u64, packet: SentPacket<'p>) -> Result<(), OrderStop> {
        let moment = packet.moment.0;
        if moment < self.last || self.front.packets() > 100 {
            return Err(OrderStop::Trace);
        }
        self.left.reserve(1)?;
        let item = self.front.packet_item(line, packet);
        self.left.push_reserved(item);
        self.front.accepted();
        self.last = moment;
        Ok(())
    }

    fn give_command<R: Wait>(
        &mut self,
        rt: &R,
        line: u64,
        command: BoxedCommand,
    ) -> Result<(), OrderStop> {
        if self.front.commands() > 100 {
            return Err(OrderStop::Trace);
        }
        match self.front.give_command(rt, line, command) {
            Ok(()) => Ok(()),
            Err(Full(_)) => Err(OrderStop::Trace),
        }
    }

    // One step of an order. Out of memory, it is done again, at most twice more.
    fn step<R: Wait>(&mut self, rt: &R, step: char) -> Result<(), NoMemory> {
        for _ in 0..2 {
            if self.try_step(rt, step).is_ok() {
                return Ok(());
            }
        }
        self.try_step(rt, step)
    }

    fn try_step<R: Wait>(&mut self, rt: &R, step: char) -> Result<(), NoMemory> {
        match step {
            't' => self.turn(rt),
            'a' => {
                self.control.arrive(u64::from(self.moves));
                Ok(())
            }
            'l' => self.learn(rt),
            _ => self.handle(),
        }
    }

    fn turn<R: Wait>(&mut self, rt: &R) -> Result<(), NoMemory> {
        self.control.work(rt)?;
        Ok(())
    }

    fn learn<R: Wait>(&mut self, rt: &R) -> Result<(), NoMemory> {
        self.data_half.learn(rt, 16)?;
        Ok(())
    }

    // Handles the next packet, if its floor is met. At which slice, the report doesn't show.
    fn handle(&mut self) -> Result<(), NoMemory> {
        let Some(item) = self.left.first() else {
            return Ok(());
        };
        if !self.data_half.may(item) {
            return Ok(());
        }
        self.data_half.item(SliceNo(0), item)?;
        let _ = self.left.remove(0);
        Ok(())
    }

    fn finish<R: Wait>(self, rt: &R, alloc: Global) -> Result<Finished<'p>, OrderStop> {
        let HalfBench {
            front,
            control,
            data_half,
            left,
            ..
        } = self;
        match finish(rt, alloc, front, control, data_half, left) {
            Ok(finished) => Ok(finished),
            Err(parts) => finished(rt, parts),
        }
    }
}

// The packet before it has a number, where it lies.
fn sent_of<'p>(packet: LentPacket<'p>) -> SentPacket<'p> {
    SentPacket {
        number: 0,
        moment: packet.moment,
        way: packet.way,
        ip: packet.ip,
    }
}

// Goes on until memory is there, at most twice more.
fn finished<'p, R: Wait>(rt: &R, parts: RecordParts<'p>) -> Result<Finished<'p>, OrderStop> {
    match parts.again(rt) {
        Ok(finished) => Ok(finished),
        Err(parts) => match parts.again(rt) {
            Ok(finished) => Ok(finished),
            Err(_) => Err(OrderStop::NoMemory),
        },
    }
}

/// What the lines mean is given to a new subscriber; then come the steps of an order, and the end.
pub fn ended<'p, R: Wait>(
    rt: &R,
    alloc: Global,
    lines: &'p [TraceLine],
    order: &str,
) -> Result<Finished<'p>, OrderStop> {
    let meant = again(|| meant_by(alloc, lines))?;
    let mut bench = HalfBench::new(alloc)?;
    match bench.play(rt, alloc, meant, order) {
        Ok(()) => bench.finish(rt, alloc),
        Err(stop) => Err(stop),
    }
}
