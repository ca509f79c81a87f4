//! A row: `SLICES ROOM LANE BOUND,BOUND,.. TURNS ASK ASK ..`, where each slot is bound for by slot; TURNS is `-` for
//! none, `all` for those of two slices in order, or `STATE/PER` for drawn ones; ASK is `n` for a note, `c3` and `p3`
//! for a command and a packet of slot 3, `m3>1` for a move of slot 3 to slice 1.
ghost use Rattle.epoch_schedule.specs.TurnsTold.{AreWorkers};
ghost use Rattle.std.specs.Prelude.{IfOk};

use epoch_schedule::{LineAsk, Rooms, Turns};
use std::alloc::{AllocError, Global};
use text_fields::{cut, read_number};

/// The turns behind each line.
#[derive(Clone, Copy)]
pub enum TurnsAsked {
    None,
    All,
    Drawn { state: u64, per: u32 },
}

impl TurnsAsked {
    /// The turns, of so many slices: all of them need two.
    pub fn of(self, alloc: Global, slices: u8) -> Result<Turns, AllocError>
        ensures { IfOk result (λ turns. AreWorkers slices turns) }
    {
        match self {
            TurnsAsked::All if slices >= 2 => {
                let workers = Vec::from_slice(alloc, &[0, 1, 2, 3])?;
                Ok(Turns::List(workers))
            }
            TurnsAsked::All | TurnsAsked::None => Ok(Turns::List(Vec::new(alloc))),
            TurnsAsked::Drawn { state, per } => Ok(Turns::Drawn { state, per }),
        }
    }
}

#[derive(Drop)]
pub struct Case {
    pub slices: u8,
    pub rooms: Rooms,
    pub bounds: Vec<u8>,
    pub turns: TurnsAsked,
    pub asks: Vec<LineAsk>,
}

fn number(text: &[u8]) -> Option<u32> {
    let number = read_number(text, 0, 65_535)?;
    Some(number as u32)
}

fn octet(text: &[u8]) -> Option<u8> {
    let number = read_number(text, 0, 255)?;
    Some(number as u8)
}

fn read_turns(text: &[u8]) -> Option<TurnsAsked> {
    if text == b"-".as_slice() {
        return Some(TurnsAsked::None);
    }
    if text == b"all".as_slice() {
        return Some(TurnsAsked::All);
    }
    let (state, per) = cut(b'/', text);
    let state = read_number(state, 0, u64::MAX)?;
    let per = number(per?)?;
    Some(TurnsAsked::Drawn { state, per })
}

fn read_ask(text: &[u8]) -> Option<LineAsk> {
    match text {
        [b'n'] => Some(LineAsk::Nothing),
        [b'c', slot @ ..] => Some(LineAsk::Command(number(slot)?)),
        [b'p', slot @ ..] => Some(LineAsk::Packet(number(slot)?)),
        [b'm', places @ ..] => {
            let (slot, slice) = cut(b'>', places);
            Some(LineAsk::Move(number(slot)?, octet(slice?)?))
        }
        _ => None,
    }
}

fn read_bounds(alloc: Global, text: &[u8]) -> Result<Option<Vec<u8>>, AllocError> {
    let mut bounds = Vec::new(alloc);
    if text == b"-".as_slice() {
        return Ok(Some(bounds));
    }
    for field in text.split(|octet| *octet == b',') {
        match octet(field) {
            Some(slice) => bounds.push(slice)?,
            None => return Ok(None),
        }
    }
    Ok(Some(bounds))
}

fn read_asks(alloc: Global, text: &[u8]) -> Result<Option<Vec<LineAsk>>, AllocError> {
    let mut asks = Vec::new(alloc);
    for field in text.split(|octet| *octet == b' ') {
        match read_ask(field) {
            Some(ask) => asks.push(ask)?,
            None => return Ok(None),
        }
    }
    Ok(Some(asks))
}

// What stands before bounds and asks.
#[derive(Drop)]
struct CaseHead<'a> {
    slices: u8,
    rooms: Rooms,
    bounds: &'a [u8],
    turns: TurnsAsked,
    asks: &'a [u8],
}

fn read_head(line: &[u8]) -> Option<CaseHead<'_>> {
    let (slices, rest) = cut(b' ', line);
    let (room, rest) = cut(b' ', rest?);
    let (lane, rest) = cut(b' ', rest?);
    let (bounds, rest) = cut(b' ', rest?);
    let (turns, asks) = cut(b' ', rest?);
    let rooms = Rooms {
        room: number(room)?,
        lane: number(lane)?,
    };
    Some(CaseHead {
        slices: octet(slices)?,
        rooms,
        bounds,
        turns: read_turns(turns)?,
        asks: asks?,
    })
}

/// None where the line is no row.
pub fn read_row(alloc: Global, line: &[u8]) -> Result<Option<Case>, AllocError> {
    let Some(head) = read_head(line) else {
        return Ok(None);
    };
    let Some(bounds) = read_bounds(alloc, head.bounds)? else {
        return Ok(None);
    };
    let Some(asks) = read_asks(alloc, head.asks)? else {
        return Ok(None);
    };
    Ok(Some(Case {
        slices: head.slices,
        rooms: head.rooms,
        bounds,
        turns: head.turns,
        asks,
    }))
}
