//! Computes schedules of epochs and plans of moves, and says what they are, a line each.

use crate::plans;
use crate::schedule_case::{Case, read_row};
use crate::schedule_telling::push_schedule;
use bumpalo::Bump;
use epoch_schedule::schedule;
use std::alloc::{AllocError, Global};
use std::fs;
use std::io::{self, Write};
use text_fields::Text;

// The schedule of a row, or that it is none.
fn push_answer(alloc: Global, text: &mut Text, row: Case) -> Result<(), AllocError> {
    if row.slices == 0 || row.slices > 64 {
        return text.extend_from_slice(b"no such slices");
    }
    let mut turns = row.turns.of(alloc, row.slices)?;
    let arena = Bump::new(alloc);
    let scheduled = schedule(
        alloc,
        &arena,
        row.rooms,
        row.slices,
        &row.bounds,
        &row.asks,
        &mut turns,
    )?;
    push_schedule(
        text,
        &scheduled,
        row.bounds.len().min(65_536) as u32,
        &turns,
    )
}

/// The answers to rows, a line each, and then the plans.
fn answers(alloc: Global, rows: &[u8]) -> Result<Text, AllocError> {
    let mut text = Text::new(alloc);
    for line in rows.split(|octet| *octet == b'\n') {
        match read_row(alloc, line)? {
            Some(row) => push_answer(alloc, &mut text, row)?,
            None => text.extend_from_slice(b"no such row")?,
        }
        text.push(b'\n')?;
    }
    plans::push_plans(alloc, &mut text)?;
    Ok(text)
}

/// The schedules of the rows of `schedules.txt`, and the plans.
pub(crate) fn tell(rt: &HostRuntime) -> io::Result<()> {
    let rows = fs::read(rt, "schedules.txt")?;
    let lines = rows.as_slice();
    let told = answers(rt.alloc(), lines.strip_suffix(b"\n").unwrap_or(lines))?;
    io::writer(rt).write_all(told.as_slice())
}
