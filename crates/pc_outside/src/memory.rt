// A source and a sink over memory. Both tell their octets, and fail where they are told to.
ghost use Rattle.std.specs.Prelude.{◌≡◌, ◌↔◌, ◌⊎◌, ◌<◌, ◌≤◌, ◌-◌, [], Some, length, drop, min, Contains};
ghost use Rattle.std.specs.Prelude.{IsErr, IsOkAnd, IfOk, OnOk, OnErr};
ghost use Rattle.std.specs.Io.KnownBytes.{ReadConsumes, WriteAppends};
ghost use Rattle.pc_outside.specs.Faults.{Rises};
ghost use Rattle.pc_outside.specs.Memory.{counted};

use super::NoMemory;
use super::sinks::Sink;
use super::sources::{Failed, Source};
use std::alloc::Global;
use std::marker::Model;

/// A source of these octets, that gives them in pieces and fails at some calls.
#[derive(Drop)]
pub struct MemSource {
    octets: Vec<u8>,
    from: usize,
    piece: usize,
    fail_at: Vec<u64>,
    calls: u64,
    faults: u64,
}

impl Model for MemSource {
    ghost use Rattle.std.specs.Prelude.{◌≤◌, drop, vec_len};
    ghost use Rattle.pc_outside.specs.Memory.{Supply};

    ghost Value = { Supply };

    ghost view = { λ source. record {
      left = drop source.from source.octets.items;
      piece = source.piece;
      fail_at = source.fail_at.items;
      calls = source.calls;
      faults = source.faults;
    } };

    ghost invariant = { λ source. (source.from ≤ vec_len source.octets) × (1 ≤ source.piece) };
}

impl MemSource {
    /// Each read gives as many octets as `piece`, the slice and the rest allow. The calls whose
    /// number from 0 is in `fail_at` fail. It takes no memory, and always answers.
    pub fn new(bytes: Vec<u8>, piece: usize, fail_at: Vec<u64>) -> Result<MemSource, NoMemory>
        requires { 1 ≤ piece }
        ensures { IsOkAnd result (λ source. source ≡ record {
          left = bytes.items;
          piece = piece;
          fail_at = fail_at.items;
          calls = 0;
          faults = 0;
        }) }
    {
        Ok(MemSource {
            octets: bytes,
            from: 0,
            piece,
            fail_at,
            calls: 0,
            faults: 0,
        })
    }
}

impl Source for MemSource {
    ghost left = { λ source. Some source.left };

    ghost faults = { λ source. source.faults };

    fn read(&mut self, into: &mut [u8]) -> Result<usize, Failed>
        // The trait's clauses.
        ensures count { IfOk result (λ n. n ≤ length into.old) }
        ensures octets { ReadConsumes (Some self.old.left) (Some self.new.left) result into.new }
        ensures later { self.old.faults ≤ self.new.faults }
        ensures cause { OnErr result (Rises self.old.faults self.new.faults) }

        // Which calls fail, and how much the others give.
        ensures fails { IsErr result ↔ Contains self.old.fail_at self.old.calls }
        ensures given { IfOk result (λ n. n ≡ min self.old.piece (min (length into.old) (length self.old.left))) }

        // The call is counted, and its failure.
        ensures call { self.new.calls ≡ counted self.old.calls }
        ensures no_fault { OnOk result (self.new.faults ≡ self.old.faults) }
        ensures fault { OnErr result (self.new.faults ≡ counted self.old.faults) }
        ensures same { (self.new.piece ≡ self.old.piece) × (self.new.fail_at ≡ self.old.fail_at) }
    {
        let fails = self.fail_at.contains(&self.calls);
        self.calls = self.calls.saturating_add(1);
        if fails {
            self.faults = self.faults.saturating_add(1);
            return Err(Failed);
        }
        let left = &self.octets[self.from..];
        let count = self.piece.min(into.len()).min(left.len());
        into[..count].copy_from_slice(&left[..count]);
        self.from += count;
        Ok(count)
    }
}

/// A sink that keeps what is written in memory, takes it in pieces and fails at some calls.
#[derive(Drop)]
pub struct MemSink {
    octets: Vec<u8>,
    room: usize,
    piece: usize,
    fail_at: Vec<u64>,
    calls: u64,
    faults: u64,
}

impl Model for MemSink {
    ghost use Rattle.std.specs.Prelude.{◌≤◌, vec_len, vec_capacity};
    ghost use Rattle.pc_outside.specs.Memory.{Store};

    ghost Value = { Store };

    ghost view = { λ sink. record {
      written = sink.octets.items;
      room = sink.room;
      piece = sink.piece;
      fail_at = sink.fail_at.items;
      calls = sink.calls;
      faults = sink.faults;
    } };

    ghost invariant = { λ sink. (vec_len sink.octets ≤ sink.room) × (sink.room ≤ vec_capacity sink.octets)
        × (1 ≤ sink.piece) };
}

impl MemSink {
    /// Each write takes as many octets as `piece`, the slice and the room allow. The calls whose
    /// number from 0 is in `fail_at` fail, and so does each where `room` octets are held.
    /// All its memory is taken here.
    pub fn new(
        alloc: Global,
        room: usize,
        piece: usize,
        fail_at: Vec<u64>,
    ) -> Result<MemSink, NoMemory>
        requires { 1 ≤ piece }
        ensures { IfOk result (λ sink. sink ≡ record {
          written = [];
          room = room;
          piece = piece;
          fail_at = fail_at.items;
          calls = 0;
          faults = 0;
        }) }
    {
        let octets = Vec::with_capacity(alloc, room)?;
        Ok(MemSink {
            octets,
            room,
            piece,
            fail_at,
            calls: 0,
            faults: 0,
        })
    }

    /// The octets that were written.
    pub fn written(&self) -> &[u8]
        ensures { result.now ≡ self.now.written }
    {
        &self.octets
    }
}

impl Sink for MemSink {
    ghost written = { λ sink. Some sink.written };

    ghost faults = { λ sink. sink.faults };

    fn write(&mut self, from: &[u8]) -> Result<usize, Failed>
        // The trait's clauses.
        ensures count { IfOk result (λ n. n ≤ length from.now) }
        ensures some { 0 < length from.now → IfOk result (λ n. 1 ≤ n) }
        ensures octets { WriteAppends (Some self.old.written) (Some self.new.written) result from.now }
        ensures later { self.old.faults ≤ self.new.faults }
        ensures cause { OnErr result (Rises self.old.faults self.new.faults) }

        // Which calls fail, and how much the others take.
        ensures fails { IsErr result ↔ (Contains self.old.fail_at self.old.calls
            ⊎ (self.old.room ≤ length self.old.written)) }
        ensures taken { IfOk result (λ n. n ≡ min self.old.piece
            (min (length from.now) (self.old.room - length self.old.written))) }

        // The call is counted, and its failure.
        ensures call { self.new.calls ≡ counted self.old.calls }
        ensures no_fault { OnOk result (self.new.faults ≡ self.old.faults) }
        ensures fault { OnErr result (self.new.faults ≡ counted self.old.faults) }
        ensures same { (self.new.room ≡ self.old.room) × (self.new.piece ≡ self.old.piece)
            × (self.new.fail_at ≡ self.old.fail_at) }
    {
        let fails = self.fail_at.contains(&self.calls) || self.octets.len() >= self.room;
        self.calls = self.calls.saturating_add(1);
        if fails {
            self.faults = self.faults.saturating_add(1);
            return Err(Failed);
        }
        let count = self
            .piece
            .min(from.len())
            .min(self.room - self.octets.len());
        match self.octets.extend_from_slice(&from[..count]) {
            Ok(()) => Ok(count),
            Err(_) => unreachable!(),
        }
    }
}
