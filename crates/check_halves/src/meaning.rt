//! What the lines of a trace mean.
use crate::bench::SLICES;
use address_book::AddressBook;
use at_rest::decide_line;
use demux::Meant;
use split_record::NoMemory;
use std::alloc::Global;
use trace_lines::TraceLine;

/// What each line means behind those before it.
pub fn meant_by<'a>(alloc: Global, lines: &'a [TraceLine]) -> Result<Vec<Meant<'a>>, NoMemory> {
    let mut book = AddressBook::new(alloc);
    let mut subscribers = Vec::new(alloc);
    let mut all = Vec::new(alloc);
    for line in lines {
        let meant = decide_line(alloc, SLICES, &mut book, &mut subscribers, line)?;
        all.push(meant)?;
    }
    Ok(all)
}
