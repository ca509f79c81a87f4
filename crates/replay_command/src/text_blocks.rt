//! Texts that are made by blocks in threads.
ghost use Rattle.std.specs.Prelude.{◌≡◌, ◌<◌, ◌≤◌, ◌++◌, flat_map, map, vec_len, OnOk, IfOk};
ghost use Rattle.std.specs.Thread.{IsSync};
ghost use Rattle.front_core.specs.Filled.{entry_told};
ghost use Rattle.trace_run.specs.Entries.{lines_text};

use crate::telling::push_entries;
use front_core::FrontEntry;
use std::alloc::{AllocError, Global};
use std::mem;
use std::thread::{Threads, join};
use text_fields::Text;

/// How many entries are told by one thread at most.
const BLOCK_LEN: usize = 16_384;

/// Appends the lines of entries as `push_entries` does, and lets the entries go. Many are told by blocks, in as many
/// threads as there are blocks, each into a buffer of its own. Buffers are kept: the next text of as many entries takes
/// hardly any memory.
pub fn push_blocks<'p, R: Threads + Sync>(
    rt: &R,
    alloc: Global,
    entries: Vec<FrontEntry<'p>>,
    places: bool,
    buffers: &mut Vec<Text>,
    report: &mut Text,
) -> Result<(), AllocError>
    ensures { OnOk result (report.new ≡ report.old ++ lines_text places (map entry_told entries.entry.items)) }
{
    if entries.len() <= BLOCK_LEN {
        return push_entries(report, entries.as_slice(), places);
    }
    let kept = mem::replace(buffers, Vec::new(alloc));
    let own = buffers_for(alloc, kept, (entries.len() - 1) / BLOCK_LEN + 1)?;
    let told = told_by_blocks(rt, entries, places, own)?;
    push_texts(report, told.as_slice())?;
    *buffers = told;
    Ok(())
}

// So many buffers, those that are kept among them.
fn buffers_for(alloc: Global, kept: Vec<Text>, many: usize) -> Result<Vec<Text>, AllocError>
    ensures { IfOk result (λ buffers. vec_len buffers ≡ many) }
{
    let mut buffers = kept;
    buffers.truncate(many);
    while buffers.len() < many {
        buffers.push(Text::new(alloc))?;
    }
    Ok(buffers)
}

// The lines of entries, those of each block by a thread of its own, which lets the block go: in each buffer the text of
// one block.
fn told_by_blocks<'p, R: Threads + Sync>(
    rt: &R,
    entries: Vec<FrontEntry<'p>>,
    places: bool,
    buffers: Vec<Text>,
) -> Result<Vec<Text>, AllocError>
    requires { 0 < vec_len buffers }
    ensures { IfOk result (λ told. flat_map (λ text. text) told.items
        ≡ lines_text places (map entry_told entries.entry.items)) }
{
    let many = buffers.len();
    if many == 1 {
        return told_in_one(entries, places, buffers);
    }
    let mut first_buffers = buffers;
    let other_buffers = first_buffers.split_off(many / 2)?;
    let mut prefix = entries;
    let back = prefix.split_off(prefix_len(prefix.len(), many))?;
    let (first, second) = join(
        rt,
        move || -> Result<Vec<Text>, AllocError>
            requires sync { IsSync R.row }
            requires buffers { 0 < vec_len first_buffers }
            ensures { IfOk result (λ told. flat_map (λ text. text) told.items
                ≡ lines_text places (map entry_told prefix.entry.items)) }
        { told_by_blocks(rt, prefix, places, first_buffers) },
        move || -> Result<Vec<Text>, AllocError>
            requires sync { IsSync R.row }
            requires buffers { 0 < vec_len other_buffers }
            ensures { IfOk result (λ told. flat_map (λ text. text) told.items
                ≡ lines_text places (map entry_told back.entry.items)) }
        { told_by_blocks(rt, back, places, other_buffers) },
    );
    both(first?, second?)
}

// How many of so many entries go into the first half of these buffers.
fn prefix_len(entries: usize, buffers: usize) -> usize
    requires { 0 < buffers }
    ensures { result ≤ entries }
{
    (entries / buffers).saturating_mul(buffers / 2).min(entries)
}

// The lines of entries in the one buffer.
fn told_in_one(
    entries: Vec<FrontEntry<'_>>,
    places: bool,
    buffers: Vec<Text>,
) -> Result<Vec<Text>, AllocError>
    requires { vec_len buffers ≡ 1 }
    ensures { IfOk result (λ told. flat_map (λ text. text) told.items
        ≡ lines_text places (map entry_told entries.entry.items)) }
{
    let mut buffers = buffers;
    let buffer = &mut buffers[0];
    buffer.clear();
    push_entries(buffer, entries.as_slice(), places)?;
    Ok(buffers)
}

// The texts of one list, and behind them those of another.
fn both(first: Vec<Text>, second: Vec<Text>) -> Result<Vec<Text>, AllocError>
    ensures { IfOk result (λ told. told.items ≡ first.items ++ second.items) }
{
    let mut told = first;
    let mut more = second;
    told.append(&mut more)?;
    Ok(told)
}

// Appends the texts of a list.
fn push_texts(report: &mut Text, texts: &[Text]) -> Result<(), AllocError>
    ensures { OnOk result (report.new ≡ report.old ++ flat_map (λ text. text) texts.now) }
{
    for text in texts {
        report.extend_from_slice(text.as_slice())?;
    }
    Ok(())
}
