// The buffer that lines are read through.
ghost use Rattle.std.specs.Prelude.{◌≡◌, ◌+◌, ◌-◌, ◌<◌, ◌≤◌, ◌∷◌, [], length, take, drop, slice_range};
ghost use Rattle.std.specs.Prelude.{IfOk, IfSome, IfNone, OnErr};
ghost use Rattle.std.specs.Io.KnownBytes.{IsAtEnd, Keeps};
ghost use Rattle.memchr.specs.Find.{IsFirstByte, is_byte};
ghost use Rattle.pc_outside.specs.Faults.{Rises};
ghost use Rattle.pc_outside.specs.Limits.{newline, line_max};
ghost use Rattle.pc_outside.specs.Line.{NoNewline};

use super::NoMemory;
use super::reading::LineRead;
use super::refilling::read_behind;
use super::sources::{Failed, Source};
use memchr::memchr;
use std::alloc::Global;
use std::marker::Model;
use std::simd::prelude::*;

/// The octet that ends a line.
pub const NEWLINE: u8 = b'\n';

/// How many octets a line may have, its newline aside.
pub const LINE_MAX: usize = 132_000;

/// How many octets are read in all.
pub const INPUT_MAX: u64 = 0x100_0000_0000;

/// How many octets a buffer holds, if nothing else is asked: an unfinished line, and a large piece behind it.
const BUFFER_LEN: usize = 0x4_0000;

/// The octets read ahead, and the line that was read last.
#[derive(Drop)]
pub struct LineBuf {
    octets: Vec<u8>,

    // The octets read and not yet given.
    from: usize,
    to: usize,

    // The line that was read last.
    line_from: usize,
    line_to: usize,

    // Whether the source was at its end behind that line.
    last: bool,
    taken: u64,
}

impl Model for LineBuf {
    ghost use Rattle.std.specs.Prelude.{◌+◌, ◌-◌, slice_range};
    ghost use Rattle.pc_outside.specs.Limits.{input_max};
    ghost use Rattle.pc_outside.specs.Held.{Held};

    ghost Value = { Held };

    ghost view = { λ buf. record {
      line = slice_range buf.octets.items buf.line_from buf.line_to;
      last = buf.last;
      buffered = slice_range buf.octets.items buf.from buf.to;
      room = input_max + (buf.to - buf.from) - buf.taken;
    } };

    ghost use Rattle.pc_outside.specs.Buffer.{IsSound};

    ghost invariant = { IsSound };
}

impl LineBuf {
    ghost use Rattle.std.specs.Prelude.{◌≡◌, ◌+◌, ◌<◌, ◌≤◌, [], false, length, take, drop};
    ghost use Rattle.std.specs.Prelude.{IfOk, IfSome, IfNone, OnOk, OnErr};
    ghost use Rattle.std.specs.Io.KnownBytes.{IsAtEnd, Keeps};
    ghost use Rattle.pc_outside.specs.Faults.{Rises};
    ghost use Rattle.pc_outside.specs.Limits.{line_max, input_max};
    ghost use Rattle.pc_outside.specs.Line.{NoNewline};
    ghost use Rattle.pc_outside.specs.Held.{IsUnfinished};
    ghost use Rattle.pc_outside.specs.Steps.{Settles, Gains, Finishes};

    /// A buffer that nothing was read into. All its memory is taken here.
    pub fn new(alloc: Global) -> Result<LineBuf, NoMemory>
        ensures { IfOk result (λ buf. buf ≡ record { line = []; last = false; buffered = []; room = input_max }) }
    {
        LineBuf::of_len(alloc, BUFFER_LEN)
    }

    /// The same of a buffer that holds so many octets, more than the longest line.
    pub fn of_len(alloc: Global, len: usize) -> Result<LineBuf, NoMemory>
        requires { line_max < len }
        ensures { IfOk result (λ buf. buf ≡ record { line = []; last = false; buffered = []; room = input_max }) }
    {
        let octets = vec![in alloc; 0u8; len]?;
        Ok(LineBuf {
            octets,
            from: 0,
            to: 0,
            line_from: 0,
            line_to: 0,
            last: false,
            taken: 0,
        })
    }

    /// The line that was read last, without its newline. It is empty after any answer but `Line`.
    pub fn line(&self) -> &[u8]
        ensures { result.now ≡ self.now.line }
    {
        &self.octets[self.line_from..self.line_to]
    }

    /// Whether the line that was read last is the input's last one: no newline ended it, and the source was
    /// at its end behind it. After any answer but `Line` it is false.
    pub fn is_last(&self) -> bool
        ensures { result ≡ self.now.last }
    {
        self.last
    }

    /// How many octets were read so far.
    pub fn taken(&self) -> u64
        ensures { result + self.now.room ≡ input_max + length self.now.buffered }
    {
        self.taken
    }

    /// The octets read and not yet given.
    pub fn buffered(&self) -> &[u8]
        ensures { result.now ≡ self.now.buffered }
    {
        &self.octets[self.from..self.to]
    }

    /// Gives up the first line held, whose text has this length.
    pub fn give(&mut self, len: usize)
        requires { len < length self.old.buffered }
        ensures buffered { self.new.buffered ≡ drop (len + 1) self.old.buffered }
        ensures room { self.old.room ≡ len + 1 + self.new.room }
    {
        let newline = self.from + len;
        self.from = newline + 1;
    }

    pub(super) fn buffered_len(&self) -> usize
        ensures { result ≡ length self.now.buffered }
    {
        self.to - self.from
    }

    #[inline(always)]
    pub(super) fn forget_line(&mut self)
        ensures { self.new ≡ record self.old { line = []; last = false } }
    {
        self.line_from = 0;
        self.line_to = 0;
        self.last = false;
    }

    // The answer that the octets held give, whatever comes behind them. The first `seen` of them
    // are known to end no line. `None`: more are needed.
    #[inline(always)]
    pub(super) fn settle(&mut self, seen: usize) -> Option<LineRead>
        requires seen_held { seen ≤ length self.old.buffered }
        requires seen_short { seen ≤ line_max }
        requires seen_none { NoNewline (take seen self.old.buffered) }

        ensures settled { IfSome result (λ read. Settles read self.old self.new) }
        ensures waits { IfNone result ((self.new ≡ self.old) × IsUnfinished self.new) }
    {
        let buffered = &self.octets[self.from..self.to];
        match line_len(buffered, seen) {
            Some(len) => {
                self.line_from = self.from;
                self.line_to = self.from + len;
                self.from = self.line_to + 1;
                Some(LineRead::Line)
            }
            None if buffered.len() > LINE_MAX => Some(LineRead::LineLong),
            None if self.taken == INPUT_MAX => Some(LineRead::TooLong),
            None => None,
        }
    }

    // Reads more octets behind an unfinished line, which is moved to the start first.
    pub(super) fn refill<S: Source>(&mut self, source: &mut S) -> Result<usize, Failed>
        requires no_line { self.old.line ≡ [] }
        requires unfinished { IsUnfinished self.old }

        ensures gains { IfOk result (Gains self.old self.new (S.left source.old) (S.left source.new)) }
        ensures end { IfOk result (λ count. count ≡ 0 → IsAtEnd (S.left source.new)) }
        ensures kept { OnErr result ((self.new ≡ self.old) × Keeps (S.left source.old) (S.left source.new)) }

        ensures later { S.faults source.old ≤ S.faults source.new }
        ensures cause { OnErr result (Rises (S.faults source.old) (S.faults source.new)) }
        ensures no_fault { OnOk result (S.faults source.new ≡ S.faults source.old) }
    {
        self.line_from = 0;
        self.line_to = 0;
        let (from, to) = (self.from, self.to);
        self.from = 0;
        self.to = to - from;
        let room = (INPUT_MAX - self.taken) as usize;
        let most = room.min(self.octets.len() - self.to);
        let count = read_behind(source, &mut self.octets, from, to, most)?;
        self.to += count;
        self.taken += count as u64;
        Ok(count)
    }

    // At the end of the source an unfinished line that isn't empty is the last one.
    pub(super) fn finish(&mut self) -> LineRead
        requires no_line { self.old.line ≡ [] }
        requires unfinished { IsUnfinished self.old }
        ensures { Finishes result self.old self.new }
    {
        if self.from == self.to {
            return LineRead::End;
        }
        self.line_from = self.from;
        self.line_to = self.to;
        self.last = true;
        self.from = self.to;
        LineRead::Line
    }
}

/// Where the first newline stands, if within a line's length. The first `seen` octets are none.
#[inline(always)]
pub fn line_len(octets: &[u8], seen: usize) -> Option<usize>
    requires seen_held { seen ≤ length octets.now }
    requires seen_short { seen ≤ line_max }
    requires seen_none { NoNewline (take seen octets.now) }

    ensures within { IfSome result (λ len. len < length octets.now) }
    ensures short { IfSome result (λ len. len ≤ line_max) }
    ensures line { IfSome result (λ len. NoNewline (take len octets.now)) }
    ensures newline { IfSome result (λ len. drop len octets.now ≡ newline ∷ drop (len + 1) octets.now) }
    ensures none { IfNone result (NoNewline (take (line_max + 1) octets.now)) }
{
    let end = (LINE_MAX + 1).min(octets.len());
    match first_newline(&octets[seen..end]) {
        Some(at) => Some(seen + at),
        None => None,
    }
}

// How many octets are looked at in one round: most lines are a few rounds long, so a call for each costs more.
const ROUND: usize = 64;

// Where the first newline stands.
#[inline(always)]
fn first_newline(octets: &[u8]) -> Option<usize>
    ensures { IsFirstByte (is_byte newline) octets.now result }
{
    let rounds = octets.len() / ROUND;
    for round in 0..rounds {
        let at = ROUND * round;
        if let Some(place) = newline_in_round(&octets[at..at + ROUND]) {
            return Some(at + place);
        }
    }
    let at = ROUND * rounds;
    match memchr(NEWLINE, &octets[at..]) {
        Some(place) => Some(at + place),
        None => None,
    }
}

// The same of one round.
#[inline(always)]
fn newline_in_round(octets: &[u8]) -> Option<usize>
    requires { length octets.now ≡ 64 }
    ensures { IsFirstByte (is_byte newline) octets.now result }
{
    let here = u8x64::from_slice(octets)
        .simd_eq(u8x64::splat(NEWLINE))
        .to_bitmask();
    if here != 0 {
        return Some(here.trailing_zeros() as usize);
    }
    None
}
