//! Plays events of slots, a line each, through the plain gateway and through a subscriber with its running
//! counters, and prints the entries of a report that both of them lead to. Each slot ends with its charging
//! records and open counters. Besides, s begins a slot and e ends it; t takes the charging records, q asks for
//! the open counters, h for what the subscriber says of itself; j binds it for a slice; p makes its counters again
//! of their parts; w plays a packet up so often, with so many octets, and counts those that pass; and l and k ask
//! whether a list is one of bearers, and one of asks.
#![tactic(auto)]

mod fields;
mod kinds;
mod lists;
mod player;
mod printing;
mod stop;

use fields::Fields;
use kinds::{event_of, packet_of};
use lists::{are_asks, are_bearers};
use pc_base::Way;
use player::SlotPlayer;
use printing::{push_passed, push_told, push_yes};
use std::alloc::Global;
use std::io::{self, BufRead, BufReader, BufWriter, Write};
use stop::EventStop;
use text_fields::Text;

/// What a line asks for: a new slot, a list, or what a slot does.
fn answer(
    alloc: Global,
    now: &mut Option<SlotPlayer>,
    line: &str,
    text: &mut Text,
) -> Result<(), EventStop> {
    let row = Fields::read(alloc, line.as_bytes())?;
    match row.letter {
        b's' => {
            *now = Some(SlotPlayer::new(alloc, row.word(0))?);
            Ok(())
        }
        b'l' => Ok(push_yes(text, are_bearers(alloc, &row)?)?),
        b'k' => Ok(push_yes(text, are_asks(alloc, &row)?)?),
        _ => match now {
            Some(player) => go_on(alloc, player, row, text),
            None => Err(EventStop::Line),
        },
    }
}

fn go_on(
    alloc: Global,
    player: &mut SlotPlayer,
    row: Fields,
    text: &mut Text,
) -> Result<(), EventStop> {
    match row.letter {
        b'e' => player.finish(text),
        b't' => player.take(text),
        b'q' => player.opens(text),
        b'p' => Ok(push_yes(text, player.remake()?)?),
        b'h' => Ok(push_told(alloc, text, player.tell())?),
        b'j' => {
            player.go(row.octet(0));
            Ok(())
        }
        b'w' => {
            let (len, count) = ((row.word(4) % 0x1_0000) as u16, row.octet(5));
            let first = packet_of(Way::Up(row.octet(3)), row);
            let passed = player.flood(alloc, &first, len, count)?;
            Ok(push_passed(alloc, text, passed)?)
        }
        _ => {
            let line = row.number(0);
            let lent = row.letter < b'a';
            let event = event_of(alloc, row)?;
            player.play(alloc, line, &event, lent, text)
        }
    }
}

fn main(rt: HostRuntime) -> io::Result<()> {
    let alloc = rt.alloc();
    let mut out = BufWriter::new(alloc, io::writer(&rt))?;
    let mut now = None;
    for line in BufReader::new(alloc, rt.reader())?.lines(alloc) {
        let line = line?;
        let mut text = Text::new(alloc);
        match answer(alloc, &mut now, line.as_str(), &mut text) {
            Ok(()) => out.write_all(text.as_slice())?,
            Err(stop) => writeln!(out, "{} at {line}", stop.word())?,
        }
    }
    out.flush()
}
