//! A subscriber that is split, with a command on its lane and packets in hand.
ghost use Rattle.std.specs.Prelude.{◌≡◌, []};
ghost use Rattle.counter_half.specs.Half.{handled_by};

use crate::thread_stop::ThreadStop;
use control_half::{BoxedCommand, ControlHalf};
use control_steps::{Command, CommandKind};
use counter_half::{DataHalf, DataItem, SentPacket};
use ipv4_packet::Ip4;
use pc_base::{Addr4, Kbps, Moment, Peer, SliceNo, Slot, Teid, Way};
use split_record::{FrontEnd, split};
use std::alloc::Global;
use std::sync::Wait;
use subscriber::{Subscriber, few_events_leave_room};

/// How many packets come behind the first one: as many as its queue has room for, and one more.
const MORE: u64 = 5;

/// The halves, and the items of a packet and of those that come behind it.
#[derive(Drop)]
pub struct Subject<'p> {
    pub control: ControlHalf,
    pub data_half: DataHalf<'p>,
    pub item: DataItem<'p>,
    pub more: Vec<DataItem<'p>>,
    pub ghost unhandled: { handled_by data_half ≡ [] },
}

/// An attach, and packets of these octets that wait for no command.
pub fn new_subject<'p, R: Wait>(
    rt: &R,
    alloc: Global,
    ip: &Ip4<'p>,
) -> Result<Subject<'p>, ThreadStop> {
    let record = Subscriber::new(alloc, Slot(0), SliceNo(0))?;
    few_events_leave_room();
    let Ok((mut front, control, data_half)) = split(alloc, record, 4, 0) else {
        return Err(ThreadStop::Back);
    };
    let attach = CommandKind::Attach {
        enb: Peer {
            teid: Teid(0xa01),
            addr: Addr4(0xc633_6407),
        },
        up: Kbps(1000),
        down: Kbps(2000),
    };
    let Some(command) = Command::of(attach) else {
        return Err(ThreadStop::Back);
    };
    let Ok(boxed) = BoxedCommand::of(alloc, command) else {
        return Err(ThreadStop::Back);
    };
    let Ok(()) = front.give_command(rt, 1, boxed) else {
        return Err(ThreadStop::Back);
    };
    let item = front.packet_item(2, new_packet(ip));
    let more = more_items(alloc, &front, ip)?;
    Ok(Subject {
        control,
        data_half,
        item,
        more,
    })
}

fn new_packet<'p>(ip: &Ip4<'p>) -> SentPacket<'p> {
    SentPacket {
        number: 0,
        moment: Moment(0),
        way: Way::Down,
        ip: ip.copied(),
    }
}

fn more_items<'p>(
    alloc: Global,
    front: &FrontEnd,
    ip: &Ip4<'p>,
) -> Result<Vec<DataItem<'p>>, ThreadStop> {
    let mut items: Vec<DataItem<'p>> = Vec::new(alloc);
    for number in 1..MORE + 1 {
        let item = front.packet_item(2 + number, new_packet(ip));
        items.push(DataItem { number, ..item })?;
    }
    Ok(items)
}
