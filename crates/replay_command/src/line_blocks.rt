//! Lines that are read apart from those before them, in threads.
ghost use Rattle.std.specs.Prelude.{◌+◌, ◌<◌, ◌≤◌, ◌++◌, ℕ, List, length, drop, IfOk, IfSome};
ghost use Rattle.std.specs.Thread.{IsSync};
ghost use Rattle.replay_command.specs.Apart.{IsFirst, IsPart};

use memchr::memrchr;
use pc_base::Moment;
use pc_outside::{NEWLINE, line_len};
use std::alloc::{AllocError, Global};
use std::thread::{Threads, join};
use trace_lines::{LineBad, TraceLine, read_line};

/// How many octets are read by one thread at most: some five thousand lines.
pub(crate) const PART_LEN: usize = 0x10_0000;

/// What a line says, read apart from those before it: under the number 0, where each moment may come. And the length
/// of its text.
#[derive(Drop)]
pub(crate) struct Apart {
    pub(crate) line: Result<TraceLine, LineBad>,
    pub(crate) len: usize,
}

/// Lines that were read one behind another, and whether they are all that the octets have.
#[derive(Drop)]
pub(crate) struct LineBlock {
    pub(crate) lines: Vec<Apart>,
    pub(crate) whole: bool,
}

/// Reads the first lines of octets, each with its newline, in as many threads as there are parts worth one.
pub(crate) fn read_parts<R: Threads + Sync>(
    rt: &R,
    alloc: Global,
    octets: &[u8],
) -> Result<LineBlock, AllocError>
    ensures { IfOk result (λ part. IsPart part octets.now) }
{
    let middle = behind_newline(octets, octets.len() / 2);
    if octets.len() <= PART_LEN || middle == 0 {
        return read_part(alloc, octets);
    }
    let (prefix, back) = octets.split_at(middle);
    let (first, second) = join(
        rt,
        || -> Result<LineBlock, AllocError>
            requires { IsSync R.row }
            ensures { IfOk result (λ part. IsPart part prefix.entry.now) }
        { read_parts(rt, alloc, prefix) },
        || -> Result<LineBlock, AllocError>
            requires { IsSync R.row }
            ensures { IfOk result (λ part. IsPart part back.entry.now) }
        { read_parts(rt, alloc, back) },
    );
    both(first?, second?)
}

// Just behind the last newline before this place; 0 where none is.
fn behind_newline(octets: &[u8], place: usize) -> usize
    requires { place ≤ length octets.now }
    ensures { result ≤ place }
{
    match memrchr(NEWLINE, &octets[..place]) {
        Some(at) => at + 1,
        None => 0,
    }
}

// One part behind the other, unless the first breaks off.
fn both(first: LineBlock, second: LineBlock) -> Result<LineBlock, AllocError>
    ensures { (prefix back : List ℕ) → IsPart first prefix → IsPart second back
        → IfOk result (λ part. IsPart part (prefix ++ back)) }
{
    if !first.whole {
        return Ok(first);
    }
    let LineBlock {
        mut lines,
        whole: _,
    } = first;
    let LineBlock {
        lines: mut more,
        whole,
    } = second;
    lines.append(&mut more)?;
    Ok(LineBlock { lines, whole })
}

fn read_part(alloc: Global, octets: &[u8]) -> Result<LineBlock, AllocError>
    ensures { IfOk result (λ part. IsPart part octets.now) }
{
    let mut lines = Vec::new(alloc);
    let mut at = 0;
    while at < octets.len() {
        let Some(one) = read_first(alloc, &octets[at..]) else {
            break;
        };
        at += one.len + 1;
        lines.push(one)?;
    }
    Ok(LineBlock {
        lines,
        whole: at == octets.len(),
    })
}

// Reads the first line, if its newline is there and it isn't too long.
fn read_first(alloc: Global, octets: &[u8]) -> Option<Apart>
    ensures within { IfSome result (λ one. one.len < length octets.now) }
    ensures first { IfSome result (λ one. IsFirst one octets.now (drop (one.len + 1) octets.now)) }
{
    let len = line_len(octets, 0)?;
    Some(Apart {
        line: read_line(alloc, &octets[..len], 0, Moment(0)),
        len,
    })
}
