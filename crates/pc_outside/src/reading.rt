// Octets read in pieces are given out line by line.
ghost use Rattle.std.specs.Prelude.{◌≡◌, ◌≢◌, ◌⊎◌, ◌≤◌, ℕ, List, [], ◌++◌, false};
ghost use Rattle.std.specs.Io.KnownBytes.{prepend_known};
ghost use Rattle.pc_outside.specs.Faults.{Rises};
ghost use Rattle.pc_outside.specs.LineReads.{Answers, Reads};
ghost use Rattle.pc_outside.specs.OneAnswer.{OneAnswer};
ghost use Rattle.pc_outside.specs.Held.{HasStopped, IsUnfinished};

use super::line_buffer::LineBuf;
use super::sources::{Failed, Source};

/// What came of reading a line.
#[derive(Clone, Copy, Debug, PartialEq, Eq)]
pub enum LineRead {
    /// The next line is in the buffer, without its newline. A last line without newline counts
    /// where it isn't empty, and the buffer tells that it is the last one.
    Line,

    /// The source is at its end, and nothing is left.
    End,

    /// The source failed. Nothing is lost, and a later call reads on.
    ReadFault,

    /// The next line has more than 132,000 octets.
    LineLong,

    /// 2^40 octets were read, no end came, and no whole line of them is left. The unfinished one
    /// isn't too long.
    TooLong,
}

/// Reads the next line into the buffer. It takes no memory.
#[inline(always)]
pub fn read_line<S: Source>(source: &mut S, buf: &mut LineBuf) -> LineRead
    // The octets that the source tells, behind those held, give the answer.
    ensures octets { Reads result buf.old.room buf.new.room (prepend_known buf.old.buffered (S.left source.old))
        (prepend_known buf.new.buffered (S.left source.new)) buf.new.line buf.new.last }

    // Whatever it tells, those held and some that it gave do.
    ensures held { (given : List ℕ) × Answers result buf.old.room buf.new.room (buf.old.buffered ++ given)
        buf.new.buffered buf.new.line buf.new.last }

    // A fault is the source's, comes only where more octets are needed, and is told at once.
    ensures later { S.faults source.old ≤ S.faults source.new }
    ensures fault { result ≡ LineRead.ReadFault → Rises (S.faults source.old) (S.faults source.new) }
    ensures no_fault { result ≢ LineRead.ReadFault → S.faults source.new ≡ S.faults source.old }
    ensures unfinished { result ≡ LineRead.ReadFault → IsUnfinished buf.new }

    // After the last two answers each later one is the same, and nothing is read.
    ensures stopped { (result ≡ LineRead.LineLong) ⊎ (result ≡ LineRead.TooLong) → HasStopped result buf.new }
    ensures stays { (stop : LineRead) → HasStopped stop buf.old
        → (result ≡ stop) × (source.new ≡ source.old) × (buf.new.buffered ≡ buf.old.buffered) }
{
    buf.forget_line();
    match buf.settle(0) {
        Some(read) => read,
        None => read_more(source, buf),
    }
}

// The same where the octets held don't give the answer: more are read until they do.
#[inline(never)]
fn read_more<S: Source>(source: &mut S, buf: &mut LineBuf) -> LineRead
    requires no_line { buf.old.line ≡ [] }
    requires not_last { buf.old.last ≡ false }
    requires unfinished { IsUnfinished buf.old }

    ensures octets { Reads result buf.old.room buf.new.room (prepend_known buf.old.buffered (S.left source.old))
        (prepend_known buf.new.buffered (S.left source.new)) buf.new.line buf.new.last }
    ensures held { (given : List ℕ) × Answers result buf.old.room buf.new.room (buf.old.buffered ++ given)
        buf.new.buffered buf.new.line buf.new.last }

    ensures later { S.faults source.old ≤ S.faults source.new }
    ensures fault { result ≡ LineRead.ReadFault → Rises (S.faults source.old) (S.faults source.new) }
    ensures no_fault { result ≢ LineRead.ReadFault → S.faults source.new ≡ S.faults source.old }
    ensures unfinished { result ≡ LineRead.ReadFault → IsUnfinished buf.new }
    ensures stopped { (result ≡ LineRead.LineLong) ⊎ (result ≡ LineRead.TooLong) → HasStopped result buf.new }
{
    loop {
        let seen = buf.buffered_len();
        match buf.refill(source) {
            Ok(0) => return buf.finish(),
            Ok(_) => {}
            Err(Failed) => return LineRead::ReadFault,
        }
        if let Some(read) = buf.settle(seen) {
            return read;
        }
    }
}

/// The octets decide the answer: no two answers but `ReadFault` fit the same octets and room,
/// nor two lines or two rests.
pub fn one_answer()
    ensures { OneAnswer }
{}
