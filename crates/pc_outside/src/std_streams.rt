// The streams of the system: the trusted edge. What they give and take is not told.
ghost use Rattle.std.specs.Prelude.{◌≡◌, ◌<◌, ◌≤◌, None, length, IfOk, OnOk, OnErr};
ghost use Rattle.std.specs.Io.KnownBytes.{ReadConsumes, WriteAppends};
ghost use Rattle.pc_outside.specs.Faults.{Rises};
ghost use Rattle.pc_outside.specs.Memory.{counted};
ghost use Rattle.pc_outside.specs.Streams.{reader_of, read_faults, writer_of, write_faults};

use super::sinks::Sink;
use super::sources::{Failed, Source};
use std::io::{Read, Write};

/// A source over any reader. It counts each `Err` of the reader.
#[derive(Drop)]
pub struct StdSource<R> {
    inner: R,
    faults: u64,
}

impl<R: Read> StdSource<R> {
    /// A source that nothing was read from. It takes no memory.
    pub fn new(inner: R) -> StdSource<R>
        ensures reader { reader_of result ≡ inner }
        ensures faults { read_faults result ≡ 0 }
    {
        StdSource { inner, faults: 0 }
    }
}

impl<R: Read> Source for StdSource<R> {
    ghost left = { λ _. None };

    ghost faults = { λ source. source.faults };

    fn read(&mut self, into: &mut [u8]) -> Result<usize, Failed>
        // The trait's clauses. Nothing is told.
        ensures count { IfOk result (λ n. n ≤ length into.old) }
        ensures octets { ReadConsumes None None result into.new }
        ensures later { read_faults self.old ≤ read_faults self.new }
        ensures cause { OnErr result (Rises (read_faults self.old) (read_faults self.new)) }

        // What the reader gave is handed on, and its failures are counted.
        ensures handed_on { ReadConsumes (R.remaining (reader_of self.old))
            (R.remaining (reader_of self.new)) result into.new }
        ensures no_fault { OnOk result (read_faults self.new ≡ read_faults self.old) }
        ensures fault { OnErr result (read_faults self.new ≡ counted (read_faults self.old)) }
    {
        match self.inner.read(into) {
            Ok(count) => Ok(count),
            Err(_) => {
                self.faults = self.faults.saturating_add(1);
                Err(Failed)
            }
        }
    }
}

/// A sink over any writer. It counts each `Err` of the writer, and each write that took no octet
/// of a piece that isn't empty.
#[derive(Drop)]
pub struct StdSink<W> {
    inner: W,
    faults: u64,
}

impl<W: Write> StdSink<W> {
    /// A sink that nothing was written to. It takes no memory.
    pub fn new(inner: W) -> StdSink<W>
        ensures writer { writer_of result ≡ inner }
        ensures faults { write_faults result ≡ 0 }
    {
        StdSink { inner, faults: 0 }
    }
}

impl<W: Write> Sink for StdSink<W> {
    ghost written = { λ _. None };

    ghost faults = { λ sink. sink.faults };

    fn write(&mut self, from: &[u8]) -> Result<usize, Failed>
        // The trait's clauses. Nothing is told.
        ensures count { IfOk result (λ n. n ≤ length from.now) }
        ensures some { 0 < length from.now → IfOk result (λ n. 1 ≤ n) }
        ensures octets { WriteAppends None None result from.now }
        ensures later { write_faults self.old ≤ write_faults self.new }
        ensures cause { OnErr result (Rises (write_faults self.old) (write_faults self.new)) }

        // What the writer took is answered, and its failures are counted.
        ensures handed_on { WriteAppends (W.contents (writer_of self.old))
            (W.contents (writer_of self.new)) result from.now }
        ensures no_fault { OnOk result (write_faults self.new ≡ write_faults self.old) }
        ensures fault { OnErr result (write_faults self.new ≡ counted (write_faults self.old)) }
    {
        match self.inner.write(from) {
            Ok(count) if count > 0 || from.is_empty() => Ok(count),
            _ => {
                self.faults = self.faults.saturating_add(1);
                Err(Failed)
            }
        }
    }
}
