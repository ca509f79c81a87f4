//! The lines of a trace.
use crate::stop::RowStop;
use pc_base::Moment;
use std::alloc::Global;
use text_fields::Text;
use trace_lines::{LineBad, LineKind, TraceLine, read_line};

/// The lines that these octets are.
pub fn lines_of(alloc: Global, octets: &[u8]) -> Result<Vec<TraceLine>, RowStop> {
    let mut lines: Vec<TraceLine> = Vec::new(alloc);
    let mut latest = Moment(0);
    for text in octets.split(|octet| *octet == b'\n') {
        if text.is_empty() {
            continue;
        }
        let line = line_of(alloc, text, latest)?;
        latest = line.moment;
        add_line(&mut lines, line)?;
    }
    Ok(lines)
}

/// Puts a line behind others, as the next one: a command's sequence number is that of its line.
pub fn add_line(lines: &mut Vec<TraceLine>, line: TraceLine) -> Result<(), RowStop> {
    let mut line = line;
    line.number = (lines.len() as u64).saturating_add(1);
    let Ok(()) = lines.push(line) else {
        return Err(RowStop::NoMemory);
    };
    Ok(())
}

// The line of these octets, before it has a number.
fn line_of(alloc: Global, text: &[u8], latest: Moment) -> Result<TraceLine, RowStop> {
    match read_line(alloc, text, 0, latest) {
        Ok(line) => Ok(line),
        Err(LineBad::NoMemory) => Err(RowStop::NoMemory),
        Err(_) => Err(RowStop::Row),
    }
}

/// An order to end the epoch, before it has a number.
pub fn fence_at(alloc: Global, moment: Moment) -> TraceLine {
    TraceLine {
        number: 0,
        moment,
        kind: LineKind::Fence,
        octets: Text::new(alloc),
    }
}
