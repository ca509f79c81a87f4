//! The lines of a trace, and what an audit of them reads.
ghost use Rattle.std.specs.Prelude.{◌≡◌, ◌≤◌, length, IfOk};
ghost use Rattle.at_rest.specs.Coming.{AreLater};

use crate::TraceStop;
use pc_base::Moment;
use std::alloc::{AllocError, Global};
use text_fields::Text;
use trace_lines::{LineBad, TraceLine, push_text, read_line};

// How many lines a trace may have.
const MOST_LINES: usize = 1_000_000;

/// The lines that these octets are.
pub fn lines_of(alloc: Global, octets: &[u8]) -> Result<Vec<TraceLine>, TraceStop>
    ensures later { IfOk result (λ lines. AreLater 0 lines.items) }
    ensures few { IfOk result (λ lines. length lines.items ≤ 1000000) }
{
    let mut lines = Vec::new(alloc);
    let mut latest = Moment(0);
    for text in octets.split(|octet| *octet == b'\n') {
        if text.is_empty() {
            continue;
        }
        if lines.len() >= MOST_LINES {
            return Err(TraceStop::Lines);
        }
        let (line, moment) = line_of(alloc, text, lines.len() as u64 + 1, latest)?;
        latest = moment;
        let Ok(()) = lines.push(line) else {
            return Err(TraceStop::NoMemory);
        };
    }
    Ok(lines)
}

// The next line, and its moment.
fn line_of(
    alloc: Global,
    text: &[u8],
    number: u64,
    least: Moment,
) -> Result<(TraceLine, Moment), TraceStop>
    ensures { IfOk result (λ read. (least ≤ read.1) × (read.1 ≡ read.0.moment)) }
{
    match read_line(alloc, text, number, least) {
        Ok(line) => {
            let moment = line.moment;
            Ok((line, moment))
        }
        Err(LineBad::NoMemory) => Err(TraceStop::NoMemory),
        Err(_) => Err(TraceStop::Lines),
    }
}

/// What an audit reads: the lines of a trace, and a report of them.
pub fn input_of(alloc: Global, lines: &[TraceLine], report: &[u8]) -> Result<Vec<u8>, AllocError> {
    let mut input = Text::new(alloc);
    for line in lines {
        push_text(&mut input, line)?;
        input.push(b'\n')?;
    }
    input.extend_from_slice(b"REPORT\n")?;
    input.extend_from_slice(report)?;
    Ok(input.into_octets())
}
