//! What stands before a trace.
ghost use Rattle.std.specs.Prelude.{IfOk};
ghost use Rattle.check_fronts.specs.Benches.{IsGateway};
ghost use Rattle.check_fronts.specs.Rows.{IsRow};

use crate::stop::RowStop;
use audit_core::Setup;
use std::alloc::Global;
use text_fields::{cut, next_piece, read_number};

/// The gateway of a trace, how often a try is repeated, whether places are written, and the workers that are turned
/// behind each line.
#[derive(Drop)]
pub struct FrontRun {
    pub setup: Setup,
    pub patience: u32,
    pub places: bool,
    pub turns: Vec<u8>,
}

/// A row.
#[derive(Drop)]
pub enum Row {
    Run(FrontRun),
    Made { seed: u64, runs: u64 },
}

// The number that stands next, and what stands behind it.
fn number_of(left: Option<&[u8]>) -> Result<(u64, Option<&[u8]>), RowStop> {
    let Some((word, rest)) = next_piece(b' ', left) else {
        return Err(RowStop::Row);
    };
    match read_number(word, 0, 1_000_000) {
        Some(number) => Ok((number, rest)),
        None => Err(RowStop::Row),
    }
}

// Numbers of workers with commas between, or none at all.
fn turns_of(alloc: Global, text: &[u8]) -> Result<Vec<u8>, RowStop> {
    let mut turns = Vec::new(alloc);
    if text == b"-".as_slice() {
        return Ok(turns);
    }
    for word in text.split(|octet| *octet == b',') {
        let Some(worker) = read_number(word, 0, 127) else {
            return Err(RowStop::Row);
        };
        let Ok(()) = turns.push((worker % 128) as u8) else {
            return Err(RowStop::NoMemory);
        };
    }
    Ok(turns)
}

// A gateway over so many slices.
fn setup_of(slices: u64, room: u64, lane: u64) -> Result<Setup, RowStop>
    ensures { IfOk result IsGateway }
{
    if slices < 1 || slices > 64 || room < 1 || room > 256 || lane < 1 || lane > 16384 {
        return Err(RowStop::Row);
    }
    Ok(Setup {
        solo: false,
        slices: slices as u8,
        room: room as u32,
        lane: lane as u32,
    })
}

fn run_of(alloc: Global, words: Option<&[u8]>) -> Result<FrontRun, RowStop>
    ensures { IfOk result (λ run. IsGateway run.setup) }
{
    let (slices, rest) = number_of(words)?;
    let (room, rest) = number_of(rest)?;
    let (lane, rest) = number_of(rest)?;
    let (patience, rest) = number_of(rest)?;
    let (places, rest) = number_of(rest)?;
    let Some(turns) = rest else {
        return Err(RowStop::Row);
    };
    Ok(FrontRun {
        setup: setup_of(slices, room, lane)?,
        patience: (patience % 1_000_000) as u32,
        places: places == 1,
        turns: turns_of(alloc, turns)?,
    })
}

/// The row of these octets.
pub fn row_of(alloc: Global, octets: &[u8]) -> Result<Row, RowStop>
    ensures { IfOk result IsRow }
{
    let (word, words) = cut(b' ', octets);
    if word == b"run".as_slice() {
        return Ok(Row::Run(run_of(alloc, words)?));
    }
    if word == b"made".as_slice() {
        let (seed, rest) = number_of(words)?;
        let (runs, _) = number_of(rest)?;
        return Ok(Row::Made { seed, runs });
    }
    Err(RowStop::Row)
}
