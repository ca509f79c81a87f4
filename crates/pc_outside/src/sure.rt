// A source and a sink over memory that never fail.
ghost use Rattle.std.specs.Prelude.{◌≡◌, ◌≤◌, ◌<◌, ◌++◌, ℕ, [], Some, None, length, take, min};
ghost use Rattle.std.specs.Prelude.{IfOk, IsOkAnd, OnOk, OnErr};
ghost use Rattle.std.specs.Io.KnownBytes.{ReadConsumes, WriteAppends};
ghost use Rattle.pc_outside.specs.Faults.{Rises};

use super::NoMemory;
use super::sinks::Sink;
use super::sources::{Failed, Source};
use std::alloc::Global;
use std::marker::Model;

/// A source of these octets. Its count of faults is 0 for good, so no read fails.
#[derive(Drop)]
pub struct SureSource {
    octets: Vec<u8>,
    from: usize,
}

impl Model for SureSource {
    ghost use Rattle.std.specs.Prelude.{ℕ, List, ◌≤◌, drop, vec_len};

    // the octets that are left
    ghost Value = { List ℕ };

    ghost view = { λ source. drop source.from source.octets.items };

    ghost invariant = { λ source. source.from ≤ vec_len source.octets };
}

impl SureSource {
    /// It takes no memory, and always answers.
    pub fn new(bytes: Vec<u8>) -> Result<SureSource, NoMemory>
        ensures { IsOkAnd result (λ source. source ≡ bytes.items) }
    {
        Ok(SureSource {
            octets: bytes,
            from: 0,
        })
    }
}

impl Source for SureSource {
    ghost left = { λ source. Some source };

    ghost faults = { λ source. 0 };

    fn read(&mut self, into: &mut [u8]) -> Result<usize, Failed>
        ensures count { IfOk result (λ n. n ≤ length into.old) }
        ensures octets { ReadConsumes (Some self.old) (Some self.new) result into.new }
        ensures later { 0 ≤ 0 }
        ensures cause { OnErr result (Rises 0 0) }
        ensures no_fault { OnOk result (◌≡◌ {A = ℕ} 0 0) }
        // As many as the slice and the rest allow.
        ensures sure { IsOkAnd result (λ n. n ≡ min (length into.old) (length self.old)) }
    {
        let left = &self.octets[self.from..];
        let count = into.len().min(left.len());
        into[..count].copy_from_slice(&left[..count]);
        self.from += count;
        Ok(count)
    }
}

/// A sink that takes all octets and keeps the first ones, as many as it has room for. Its count of
/// faults is 0 for good, so no write fails. A sink that tells what was written tells it for good,
/// which one without room can't: as a `Sink` it tells nothing, and `written` lends what it keeps.
#[derive(Drop)]
pub struct SureSink {
    octets: Vec<u8>,
    room: usize,
}

impl Model for SureSink {
    ghost use Rattle.std.specs.Prelude.{◌≤◌, vec_len, vec_capacity};
    ghost use Rattle.pc_outside.specs.Memory.{Keeper};

    ghost Value = { Keeper };

    ghost view = { λ sink. record {
      kept = sink.octets.items;
      room = sink.room;
    } };

    ghost invariant = { λ sink. (vec_len sink.octets ≤ sink.room) × (sink.room ≤ vec_capacity sink.octets) };
}

impl SureSink {
    /// All its memory is taken here: room for so many octets.
    pub fn new(alloc: Global, room: usize) -> Result<SureSink, NoMemory>
        ensures { IfOk result (λ sink. sink ≡ record { kept = []; room = room }) }
    {
        let octets = Vec::with_capacity(alloc, room)?;
        Ok(SureSink { octets, room })
    }

    /// The octets that were written, at most as many as there is room for.
    pub fn written(&self) -> &[u8]
        ensures { result.now ≡ self.now.kept }
    {
        &self.octets
    }
}

impl Sink for SureSink {
    ghost written = { λ sink. None };

    ghost faults = { λ sink. 0 };

    fn write(&mut self, from: &[u8]) -> Result<usize, Failed>
        ensures count { IfOk result (λ n. n ≤ length from.now) }
        ensures some { 0 < length from.now → IfOk result (λ n. 1 ≤ n) }
        ensures octets { WriteAppends None None result from.now }
        ensures later { 0 ≤ 0 }
        ensures cause { OnErr result (Rises 0 0) }

        // All octets are taken, and the first ones kept.
        ensures sure { IsOkAnd result (λ n. n ≡ length from.now) }
        ensures kept { self.new.kept ≡ take self.old.room (self.old.kept ++ from.now) }
        ensures same { self.new.room ≡ self.old.room }
    {
        let count = from.len().min(self.room - self.octets.len());
        match self.octets.extend_from_slice(&from[..count]) {
            Ok(()) => Ok(from.len()),
            Err(_) => unreachable!(),
        }
    }
}
