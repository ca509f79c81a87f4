//! Octets of a source, held a piece at a time.
ghost use Rattle.std.specs.Prelude.{◌≡◌, ◌+◌, ◌-◌, ◌<◌, ◌≤◌, [], true, false};
ghost use Rattle.std.specs.Prelude.{length, drop, slice_range, IfOk, OnErr};
ghost use Rattle.std.specs.Io.KnownBytes.{IsAtEnd};
ghost use Rattle.pc_outside.specs.Faults.{Rises};
ghost use Rattle.pc_outside.specs.Limits.{input_max};
ghost use Rattle.pcap_form.specs.Ahead.{Ahead, Fills, Gains};

use crate::NoMemory;
use pc_outside::{Failed, INPUT_MAX, Source, read_behind};
use std::alloc::Global;
use std::marker::Model;

// How many octets are held: twice as many and more, so that few are moved.
const BLOCK_LEN: usize = 0xa_0000;

/// What came of asking for octets.
#[derive(Clone, Copy, Debug, PartialEq, Eq)]
pub enum Fill {
    /// As many as were asked for are held.
    Enough,
    /// The source is at its end before.
    End,
    /// 2^40 octets were taken before.
    Full,
    /// The source failed. Nothing is lost.
    Fault,
}

/// The octets taken from a source and not yet passed, at most 2^40 in all.
#[derive(Drop)]
pub struct Block {
    octets: Vec<u8>,
    from: usize,
    to: usize,
    taken: u64,
}

impl Model for Block {
    ghost use Rattle.std.specs.Prelude.{◌+◌, ◌-◌, slice_range};
    ghost use Rattle.pc_outside.specs.Limits.{input_max};
    ghost use Rattle.pcap_form.specs.Ahead.{Ahead};

    ghost Value = { Ahead };

    ghost view = { λ block. record {
      held = slice_range block.octets.items block.from block.to;
      room = input_max + (block.to - block.from) - block.taken;
    } };

    ghost use Rattle.pcap_form.specs.Inside.{IsSound};

    ghost invariant = { IsSound };
}

impl Block {
    /// A block that nothing was taken into. All its memory is taken here.
    pub fn new(alloc: Global) -> Result<Block, NoMemory>
        ensures { IfOk result (λ block. block ≡ record { held = []; room = input_max }) }
    {
        let octets = vec![in alloc; 0u8; BLOCK_LEN]?;
        Ok(Block {
            octets,
            from: 0,
            to: 0,
            taken: 0,
        })
    }

    /// The octets that are held.
    pub fn held(&self) -> &[u8]
        ensures { result.now ≡ self.now.held }
    {
        &self.octets[self.from..self.to]
    }

    /// Passes the first octets that are held.
    pub fn pass(&mut self, count: usize)
        requires { count ≤ length self.old.held }
        ensures held { self.new.held ≡ drop count self.old.held }
        ensures room { self.new.room + count ≡ self.old.room }
    {
        self.from += count;
    }

    /// Takes octets until as many are held as are needed, or no more come. Those held stay in
    /// front.
    pub fn fill<S: Source>(&mut self, source: &mut S, need: usize) -> Fill
        requires { need ≤ 262160 }

        ensures gains { Gains self.old self.new (S.left source.old) (S.left source.new) }
        ensures filled { Fills result need self.new (S.left source.new) }

        // A fault is the source's.
        ensures later { S.faults source.old ≤ S.faults source.new }
        ensures fault { result ≡ Fill.Fault → Rises (S.faults source.old) (S.faults source.new) }
    {
        while self.held_len() < need {
            if self.is_full() {
                return Fill::Full;
            }
            match self.refill(source) {
                Ok(0) => return Fill::End,
                Ok(_) => {}
                Err(Failed) => return Fill::Fault,
            }
        }
        Fill::Enough
    }

    fn held_len(&self) -> usize
        ensures len { result ≡ length self.now.held }
        ensures within { length self.now.held ≤ self.now.room }
    {
        self.to - self.from
    }

    // Whether as many octets were taken as are looked at.
    fn is_full(&self) -> bool
        ensures full { result ≡ true → length self.now.held ≡ self.now.room }
        ensures more { result ≡ false → length self.now.held < self.now.room }
    {
        self.taken == INPUT_MAX
    }

    // Takes more octets behind those held, which are moved to the start first.
    fn refill<S: Source>(&mut self, source: &mut S) -> Result<usize, Failed>
        requires some { length self.old.held < 262160 }
        requires more { length self.old.held < self.old.room }

        ensures gains { Gains self.old self.new (S.left source.old) (S.left source.new) }
        ensures count { IfOk result (λ count. length self.new.held ≡ length self.old.held + count) }
        ensures end { IfOk result (λ count. count ≡ 0 → IsAtEnd (S.left source.new)) }
        ensures kept { OnErr result (length self.new.held ≡ length self.old.held) }

        ensures later { S.faults source.old ≤ S.faults source.new }
        ensures cause { OnErr result (Rises (S.faults source.old) (S.faults source.new)) }
    {
        let (from, to) = (self.from, self.to);
        self.from = 0;
        self.to = to - from;
        let room = (INPUT_MAX - self.taken) as usize;
        let most = room.min(BLOCK_LEN - self.to);
        let count = read_behind(source, &mut self.octets, from, to, most)?;
        self.to += count;
        self.taken += count as u64;
        Ok(count)
    }
}
