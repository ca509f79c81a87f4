//! Takes the two halves of a subscriber through all that a slice does with them: a side at the front and a worker each,
//! which is turned in a thread of its own; then the halves come home. Prints what they were asked, did and noted.

use crate::thread_control::{ControlCame, control_home};
use crate::thread_data::{DataCame, data_home};
use crate::thread_stop::ThreadStop;
use crate::thread_subject::new_subject;
use control_half::ControlHalf;
use counter_half::DataHalf;
use ipv4_packet::Ip4;
use std::alloc::{AllocError as NoMemory, Global};
use std::mem::size_of;
use std::sync::Wait;
use std::thread::Threads;
use text_fields::Text;
use worker_core::{DataOrder, Order};

// 28 octets of UDP from 203.0.113.9, port 5060, to 10.45.0.2.
const DOWN: &[u8] =
    b"\x45\0\0\x1c\0\0\0\0\x40\x11\0\0\xcb\0\x71\x09\x0a\x2d\0\x02\x13\xc4\x27\x10\0\x08\0\0";

/// How many octets an order has at most: a half is a slot and a pointer, and an item the largest of all.
const MOST: usize = 96;

/// What came of the half of each kind.
#[derive(Clone, Copy)]
struct HalvesCame {
    control: ControlCame,
    data_half: DataCame,
}

// What comes of the two halves of a subscriber.
fn take_through<R: Threads + Wait + Sync>(rt: &R, alloc: Global) -> Result<HalvesCame, ThreadStop> {
    let Some(ip) = Ip4::whole(DOWN) else {
        return Err(ThreadStop::Back);
    };
    let subject = new_subject(rt, alloc, &ip)?;
    let control = control_home(rt, alloc, subject.control);
    let data_half = data_home(rt, alloc, subject.data_half, subject.item, subject.more);
    Ok(HalvesCame {
        control: control?,
        data_half: data_half?,
    })
}

fn push_bool(text: &mut Text, is: bool) -> Result<(), NoMemory> {
    text.push_field(if is { b"true" } else { b"false" })
}

fn push_sizes(text: &mut Text) -> Result<(), NoMemory> {
    text.extend_from_slice(b"orders of at most")?;
    text.push_number(MOST as u64)?;
    text.extend_from_slice(b" octets:")?;
    push_bool(text, size_of::<Order<ControlHalf>>() <= MOST)?;
    text.push(b',')?;
    push_bool(text, size_of::<DataOrder<DataHalf>>() <= MOST)?;
    text.push(b'\n')?;
    Ok(())
}

fn push_control(text: &mut Text, control: ControlCame) -> Result<(), NoMemory> {
    text.extend_from_slice(b"control:")?;
    text.push_number(control.homes as u64)?;
    text.extend_from_slice(b" home, settled")?;
    push_bool(text, control.sent)?;
    push_bool(text, control.called)?;
    push_bool(text, control.again)?;
    text.push(b'\n')?;
    Ok(())
}

fn push_data(text: &mut Text, data_half: DataCame) -> Result<(), NoMemory> {
    text.extend_from_slice(b"packets: parks")?;
    push_bool(text, data_half.parks)?;
    push_bool(text, data_half.parks_then)?;
    text.push(b',')?;
    text.push_number(data_half.refused)?;
    text.extend_from_slice(b" refused, place")?;
    text.push_number(u64::from(data_half.place))?;
    text.push(b',')?;
    text.push_number(data_half.homes as u64)?;
    text.extend_from_slice(b" home,")?;
    text.push_number(data_half.left as u64)?;
    text.extend_from_slice(b" left\n")
}

/// What the halves were asked, did and noted.
pub(crate) fn play<R: Threads + Wait + Sync>(rt: &R, alloc: Global) -> Result<Text, ThreadStop> {
    let outcome = take_through(rt, alloc)?;
    let mut text = Text::new(alloc);
    push_sizes(&mut text)?;
    push_control(&mut text, outcome.control)?;
    push_data(&mut text, outcome.data_half)?;
    Ok(text)
}
