//! Lines that are given in their order, and read by blocks in threads.
ghost use Rattle.std.specs.Prelude.{◌≡◌, [], false, ℕ, List, Option, IfOk};
ghost use Rattle.std.specs.Io.KnownBytes.{prepend_known};
ghost use Rattle.std.specs.Vec.Iter.{into_iter_items};
ghost use Rattle.pc_outside.specs.Limits.{input_max};
ghost use Rattle.trace_lines.specs.Meaning.{not_before};
ghost use Rattle.trace_run.specs.Next.{Gives, Tells, TakesRoom, said_in};
ghost use Rattle.replay_command.specs.Apart.{AreFirst, IsFirst, numbered};

use crate::line_blocks::{Apart, PART_LEN, read_parts};
use pc_base::Moment;
use pc_outside::{LineBuf, Source};
use std::alloc::{AllocError, Global};
use std::marker::Model;
use std::thread::Threads;
use std::vec::IntoIter;
use trace_lines::{LineBad, TraceLine};
use trace_run::{LineReader, Next, given, next_line, refused};

/// How many octets are read ahead: some twenty thousand lines, and an unfinished one.
const BUFFER_LEN: usize = 0x40_0000;

/// Gives the lines of a source: where octets of many lines were read, these are read in threads, and then given in
/// their order. Contracts see it as the octets that it holds.
#[derive(Drop)]
pub struct BlockReader<'r, R> {
    rt: &'r R,
    alloc: Global,
    buf: LineBuf,

    // Those of the first lines held.
    lines: IntoIter<Apart, Global>,
}

impl<'r, R> Model for BlockReader<'r, R> {
    ghost use Rattle.std.specs.Prelude.{List, ℕ};
    ghost use Rattle.std.specs.Vec.Iter.{into_iter_items};
    ghost use Rattle.pc_outside.specs.Held.{Held};
    ghost use Rattle.replay_command.specs.Apart.{AreFirst};

    ghost Value = { Held };

    ghost view = { λ reader. reader.buf };

    ghost invariant = { λ reader. (behind : List ℕ)
        × AreFirst (into_iter_items reader.lines) reader.buf.buffered behind };
}

impl<'r, R> BlockReader<'r, R> {
    /// A reader that nothing was read into.
    pub fn new(rt: &'r R, alloc: Global) -> Result<BlockReader<'r, R>, AllocError>
        ensures { IfOk result (λ reader. reader ≡ record { line = []; last = false; buffered = []; room = input_max }) }
    {
        Ok(BlockReader {
            rt,
            alloc,
            buf: LineBuf::of_len(alloc, BUFFER_LEN)?,
            lines: none_read(alloc),
        })
    }
}

impl<'r, R: Threads + Sync> LineReader for BlockReader<'r, R> {
    ghost use Rattle.std.specs.Thread.{IsSync};

    ghost holds = { λ reader. reader };

    ghost is_ready = { λ reader. IsSync R.row };

    fn next<S: Source>(
        &mut self,
        source: &mut S,
        line: &mut TraceLine,
        number: u64,
        least: Moment,
    ) -> Next {
        match self.lines.next() {
            Some(one) => give(&mut self.buf, one, line, number, least),
            None => {
                let next = next_line(line, source, &mut self.buf, number, least);
                self.lines = ahead(self.rt, self.alloc, is_line(&next), self.buf.buffered());
                next
            }
        }
    }
}

// Whether more lines may be behind it.
fn is_line(next: &Next) -> bool {
    match next {
        Next::Line { .. } => true,
        _ => false,
    }
}

// Behind a line, where the octets of many more are held, these are read; none are where memory is short.
fn ahead<R: Threads + Sync>(
    rt: &R,
    alloc: Global,
    behind_line: bool,
    octets: &[u8],
) -> IntoIter<Apart, Global>
    ensures { (behind : List ℕ) × AreFirst (into_iter_items result) octets.now behind }
{
    if !behind_line || octets.len() <= PART_LEN {
        return none_read(alloc);
    }
    match read_parts(rt, alloc, octets) {
        Ok(part) => part.lines.into_iter(),
        Err(AllocError) => none_read(alloc),
    }
}

fn none_read(alloc: Global) -> IntoIter<Apart, Global>
    ensures { into_iter_items result ≡ [] }
{
    Vec::new(alloc).into_iter()
}

// Gives the first line held, of which this was read.
fn give(buf: &mut LineBuf, one: Apart, place: &mut TraceLine, number: u64, least: Moment) -> Next
    requires { (behind : List ℕ) × IsFirst one buf.old.buffered behind }

    ensures tells { (left : Option (List ℕ)) → Tells (said_in result place.new) number least buf.old.room buf.new.room
        (prepend_known buf.old.buffered left) (prepend_known buf.new.buffered left) }
    ensures room { TakesRoom (said_in result place.new) buf.old.room buf.new.room }
    ensures given { Gives (said_in result place.new) number least }
    ensures no_fault { result ≡ Next.ReadFault → ⊥ }
    ensures behind { (behind : List ℕ) → IsFirst one buf.old.buffered behind → buf.new.buffered ≡ behind }
{
    let len = one.len;
    buf.give(len);
    match in_order(one.line, number, least) {
        Ok(line) => {
            *place = line;
            given(len, false)
        }
        Err(why) => refused(why),
    }
}

// What was read apart, as the line of this number, where no moment below the least may come.
fn in_order(
    read: Result<TraceLine, LineBad>,
    number: u64,
    least: Moment,
) -> Result<TraceLine, LineBad>
    ensures { result ≡ not_before least (numbered number read) }
{
    let line = read?;
    if line.moment < least {
        return Err(LineBad::MomentBack);
    }
    Ok(TraceLine {
        number,
        moment: line.moment,
        kind: line.kind,
        octets: line.octets,
    })
}
