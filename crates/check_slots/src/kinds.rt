//! The events that lines name: u and d a packet up and down (U and D one whose octets are lent), a an attach,
//! b a bearer, f filters, x a drop, o an AMBR; of the MME c, m, r and z a Create, Modify, Release and Delete, g, v
//! and y the answers of created, updated and deleted bearers. The numbers are that of the trace's line and then the
//! event's in their order.
use crate::fields::Fields;
use crate::stop::EventStop;
use bearer_state::{Ask, Asks, Qos};
use gate_model::{Command, CommandKind, Event, Packet};
use pc_base::Way;
use std::alloc::{AllocError as NoMemory, Global};
use tft_codec::{Tft, read};

/// The event of a line.
pub fn event_of(alloc: Global, row: Fields) -> Result<Event, EventStop> {
    match row.letter {
        b'u' | b'U' => Ok(Event::Packet(packet_of(Way::Up(row.octet(3)), row))),
        b'd' | b'D' => Ok(Event::Packet(packet_of(Way::Down, row))),
        _ => command_of(kind_of(alloc, &row)?),
    }
}

fn command_of(kind: CommandKind) -> Result<Event, EventStop> {
    match Command::of(kind) {
        Some(command) => Ok(Event::Command(command)),
        None => Err(EventStop::Line),
    }
}

/// A packet of this way.
pub fn packet_of(way: Way, row: Fields) -> Packet {
    Packet {
        number: row.number(1),
        moment: row.moment(2),
        way,
        octets: row.octets,
    }
}

fn kind_of(alloc: Global, row: &Fields) -> Result<CommandKind, EventStop> {
    match row.letter {
        b'm' => asked(row, asks_of(alloc, row)?),
        b'b' => Ok(bearer(row, template_of(alloc, row)?)),
        b'f' => Ok(filters(row, template_of(alloc, row)?)),
        b'a' | b'c' | b'o' | b'g' => Ok(session_kind(row)),
        _ => short_kind(row),
    }
}

fn asked(row: &Fields, asks: Vec<Ask>) -> Result<CommandKind, EventStop> {
    match Asks::of(asks) {
        Some(asks) => Ok(CommandKind::Modify {
            seq: row.word(1),
            mme: row.given(2),
            asks,
        }),
        None => Err(EventStop::Line),
    }
}

fn asks_of(alloc: Global, row: &Fields) -> Result<Vec<Ask>, NoMemory> {
    let mut asks = Vec::new(alloc);
    for number in 0..row.octet(5) {
        let at = 6 + 4 * usize::from(number);
        asks.push(Ask {
            ebi: row.octet(at),
            enb: row.given(at + 1),
        })?;
    }
    Ok(asks)
}

fn template_of(alloc: Global, row: &Fields) -> Result<Tft, EventStop> {
    match read(alloc, row.octets.as_slice()) {
        Ok(template) => Ok(template),
        Err(_) => Err(EventStop::Line),
    }
}

fn bearer(row: &Fields, tft: Tft) -> CommandKind {
    CommandKind::AddBearer {
        seq: row.word(1),
        qci: row.octet(2),
        mbr_up: row.rate(3),
        mbr_down: row.rate(4),
        gbr_up: row.rate(5),
        gbr_down: row.rate(6),
        tft,
    }
}

fn filters(row: &Fields, tft: Tft) -> CommandKind {
    CommandKind::Filters {
        seq: row.word(1),
        ebi: row.octet(2),
        tft,
    }
}

fn qos(row: &Fields, at: usize) -> Qos {
    Qos {
        arp: row.octet(at),
        qci: row.octet(at.saturating_add(1)),
        mbr_up: row.rate(at.saturating_add(2)),
        mbr_down: row.rate(at.saturating_add(3)),
        gbr_up: row.rate(at.saturating_add(4)),
        gbr_down: row.rate(at.saturating_add(5)),
    }
}

fn session_kind(row: &Fields) -> CommandKind {
    match row.letter {
        b'a' => CommandKind::Attach {
            enb: row.peer(1),
            up: row.rate(3),
            down: row.rate(4),
        },
        b'c' => CommandKind::Create {
            seq: row.word(1),
            mme: row.peer(2),
            pdn: row.octet(4),
            ebi: row.octet(5),
            qos: qos(row, 6),
            enb: row.given(12),
            up: row.rate(15),
            down: row.rate(16),
        },
        b'o' => CommandKind::Ambr {
            seq: row.word(1),
            up: row.rate(2),
            down: row.rate(3),
        },
        _ => CommandKind::CreateAns {
            seq: row.word(1),
            cause: row.octet(2),
            ebi: row.octet(3),
            row_cause: row.octet(4),
            enb: row.given(5),
        },
    }
}

fn short_kind(row: &Fields) -> Result<CommandKind, EventStop> {
    let seq = row.word(1);
    match row.letter {
        b'x' => Ok(CommandKind::Drop {
            seq,
            ebi: row.octet(2),
        }),
        b'r' => Ok(CommandKind::Release { seq }),
        b'z' => Ok(CommandKind::Delete { seq }),
        b'v' => Ok(CommandKind::UpdateAns { seq }),
        b'y' => Ok(CommandKind::DeleteAns { seq }),
        _ => Err(EventStop::Line),
    }
}
