//! The front of an epoch.
ghost use Rattle.std.specs.Prelude.{◌≡◌, ◌<◌, ◌≤◌, ◌+◌, ◌++◌, ◌∷◌, [], ◌^◌, map, length, OnOk, OnErr, IfOk, IfSome};

use crate::opening::{Opened, controls_of, datas_of};
use crate::taken::{OpenEntry, Taken};
use crate::taking::take;
use crate::{BothSides, Halves, NoMemory, Took};
use address_book::AddressBook;
use at_rest::{AtRest, decide_line};
use migration::{DataSide, Side};
use pc_base::{SliceNo, Slot};
use std::alloc::Global;
use std::snapshot::Snapshot;
use std::sync::Wait;
use subscriber::Subscriber;
use trace_lines::TraceLine;
use worker_core::Post;

/// The front of an epoch: what it was opened with, and what came since.
#[derive(Drop)]
pub struct Front<'p> {
    pub(crate) alloc: Global,
    /// The gateway as it was, for clauses alone.
    pub(crate) opened: Snapshot<AtRest>,
    pub(crate) slices: u8,
    pub(crate) lane: u32,
    pub(crate) book: AddressBook,
    /// By slot. In place of one that is split stands one without events.
    pub(crate) subscribers: Vec<Subscriber>,
    pub(crate) halves: Halves<'p>,
    /// Of each line of the epoch.
    pub(crate) entries: Vec<Taken>,
    /// How many lines the run had, and the moment of the last one.
    pub(crate) lines: u64,
    pub(crate) latest: u64,
}

impl<'p> Front<'p> {
    ghost use Rattle.std.specs.Prelude.{List};
    ghost use Rattle.trace_lines.specs.Line.{Line};
    ghost use Rattle.lawful_run.specs.Merging.{Histories};
    ghost use Rattle.lawful_run.specs.Trace.{meant_next};
    ghost use Rattle.at_rest.specs.Rest.{IsBehind, RepresentsAll};
    ghost use Rattle.worker_core.specs.Workers.{place_of, worker_lanes};
    ghost use Rattle.worker_core.specs.DataWorkers as data_worker;
    ghost use Rattle.front_core.specs.Counting.{TookTries};
    ghost use Rattle.front_core.specs.Words.{IsWhole, opened_of, entries_in, taken_by, lines_in, latest_in, fulls_in};
    ghost use Rattle.front_core.specs.Words.{control_lanes, data_lanes, moving_in, first_slices, PumpsFront, TakesLine};
    ghost use Rattle.front_core.specs.Words.{TakesAtOnce};
    ghost use Rattle.front_core.specs.Entries.{IsLastCommand};
    ghost use Rattle.front_core.specs.Taking.{MayBecome};

    /// Opens an epoch: the gateway at rest is taken apart, and each slice gets its workers. Out of
    /// memory, all is given up.
    pub fn open(alloc: Global, rest: AtRest) -> Result<Opened<'p>, NoMemory>
        requires behind { (prior : List Line) × IsBehind rest prior }
        requires represents { (before : Histories) × RepresentsAll rest before }

        ensures whole { IfOk result (λ made. IsWhole made.front) }
        ensures opened { IfOk result (λ made. (opened_of made.front ≡ rest) × (entries_in made.front ≡ [])) }
        ensures counts { IfOk result (λ made. (lines_in made.front ≡ rest.lines) × (latest_in made.front ≡ rest.latest)
            × (fulls_in made.front ≡ rest.fulls)) }

        // The workers are those of the desks, in the order of slices, and each is of its slice.
        ensures controls { IfOk result (λ made. control_lanes made.front ≡ map worker_lanes made.controls.items) }
        ensures datas { IfOk result (λ made. data_lanes made.front ≡ map data_worker.worker_lanes made.datas.items) }
        ensures places { IfOk result (λ made. (map place_of made.controls.items ≡ first_slices rest.slices)
            × (map data_worker.place_of made.datas.items ≡ first_slices rest.slices)) }
    {
        let opened = Snapshot::of(&rest);
        let AtRest {
            sizes,
            book,
            subscribers,
            lines,
            latest,
            fulls,
        } = rest;
        let controls = controls_of(alloc, sizes.slices)?;
        let datas = datas_of(alloc, sizes.slices, sizes.lane)?;
        let front = Front {
            alloc,
            opened,
            slices: sizes.slices,
            lane: sizes.lane,
            book,
            subscribers,
            halves: Halves {
                alloc,
                room: sizes.room,
                lots: Vec::new(alloc),
                sides: BothSides::new(
                    alloc,
                    Side::new(alloc, controls.desks),
                    DataSide::new(alloc, datas.desks, sizes.room),
                ),
                fulls,
            },
            entries: Vec::new(alloc),
            lines,
            latest,
        };
        Ok(Opened {
            front,
            controls: controls.workers,
            datas: datas.workers,
        })
    }

    /// Takes home what came, and gives what orders and items wait.
    pub fn pump<R: Wait>(&mut self, rt: &R)
        ensures pumps { PumpsFront self.old self.new }
        ensures whole { IsWhole self.old → IsWhole self.new }
        ensures same { (opened_of self.new ≡ opened_of self.old) × (entries_in self.new ≡ entries_in self.old) }
        ensures counts { (lines_in self.new ≡ lines_in self.old) × (latest_in self.new ≡ latest_in self.old)
            × (fulls_in self.new ≡ fulls_in self.old) }
        ensures lanes { (control_lanes self.new ≡ control_lanes self.old)
            × (data_lanes self.new ≡ data_lanes self.old) }
    {
        self.halves.pump(rt);
    }

    /// Takes a line. What it means is decided behind a pump. A command's or packet's subscriber is split, if it
    /// isn't in this epoch; one that finds its queue or lane full is tried again so many times, a packet behind
    /// a pump, and the threads of these posts are woken first. Out of memory the line isn't taken, and the front may
    /// only be dropped.
    pub fn line<R: Wait>(
        &mut self,
        rt: &R,
        line: &'p TraceLine,
        patience: u32,
        posts: &[Post],
    ) -> Result<Took, NoMemory>
        requires whole { IsWhole self.old }
        requires few { lines_in self.old < 2 ^ 39 }
        requires late { latest_in self.old ≤ line.now.moment }

        ensures whole { OnOk result (IsWhole self.new) }
        ensures opened { opened_of self.new ≡ opened_of self.old }
        ensures taken { OnOk result (taken_by self.new ≡ taken_by self.old ++ line.now ∷ []) }
        ensures counts { OnOk result ((lines_in self.new ≡ lines_in self.old + 1)
            × (latest_in self.new ≡ line.now.moment)) }
        ensures lanes { OnOk result ((control_lanes self.new ≡ control_lanes self.old)
            × (data_lanes self.new ≡ data_lanes self.old)) }

        // What became of it: as its entry says, which is what the line means behind those before it.
        ensures takes { IfOk result (λ took. TakesLine line.now (patience + 1) took self.old self.new) }
        ensures means { (prior : List Line) → IsBehind (opened_of self.old) prior → IfOk result (λ took.
            MayBecome (meant_next (opened_of self.old).slices (prior ++ taken_by self.old) line.now) took) }

        // The count of full answers rises by one for each try that was refused, and by nothing else: where the line
        // is, by so many and one.
        ensures tried { IfOk result (λ took. TookTries (patience + 1) took (fulls_in self.old) (fulls_in self.new)) }
        ensures rises { fulls_in self.old ≤ fulls_in self.new }

        // Out of memory nothing is accepted.
        ensures none { OnErr result (entries_in self.new ≡ entries_in self.old) }
    {
        self.halves.pump(rt);
        self.line_at_once(rt, line, patience, posts)
    }

    /// The same where the sides stand as they do: nothing is pumped before, so what came home meanwhile, and what
    /// waits, is left to a later pump.
    pub fn line_at_once<R: Wait>(
        &mut self,
        rt: &R,
        line: &'p TraceLine,
        patience: u32,
        posts: &[Post],
    ) -> Result<Took, NoMemory>
        requires whole { IsWhole self.old }
        requires few { lines_in self.old < 2 ^ 39 }
        requires late { latest_in self.old ≤ line.now.moment }

        ensures whole { OnOk result (IsWhole self.new) }
        ensures opened { opened_of self.new ≡ opened_of self.old }
        ensures taken { OnOk result (taken_by self.new ≡ taken_by self.old ++ line.now ∷ []) }
        ensures counts { OnOk result ((lines_in self.new ≡ lines_in self.old + 1)
            × (latest_in self.new ≡ line.now.moment)) }
        ensures lanes { OnOk result ((control_lanes self.new ≡ control_lanes self.old)
            × (data_lanes self.new ≡ data_lanes self.old)) }

        // What became of it: as its entry says, which is what the line means behind those before it.
        ensures takes { IfOk result (λ took. TakesAtOnce line.now (patience + 1) took self.old self.new) }
        ensures means { (prior : List Line) → IsBehind (opened_of self.old) prior → IfOk result (λ took.
            MayBecome (meant_next (opened_of self.old).slices (prior ++ taken_by self.old) line.now) took) }

        // The count of full answers rises by one for each try that was refused, and by nothing else: where the line
        // is, by so many and one.
        ensures tried { IfOk result (λ took. TookTries (patience + 1) took (fulls_in self.old) (fulls_in self.new)) }
        ensures rises { fulls_in self.old ≤ fulls_in self.new }

        // Out of memory nothing is accepted.
        ensures none { OnErr result (entries_in self.new ≡ entries_in self.old) }
    {
        self.entries.reserve(1)?;
        let meant = decide_line(
            self.alloc,
            self.slices,
            &mut self.book,
            &mut self.subscribers,
            line,
        )?;
        let open = take(
            rt,
            self.alloc,
            self.lines + 1,
            meant,
            self.subscribers.as_mut_slice(),
            &mut self.halves,
            patience,
            posts,
        )?;
        let took = open.took();
        self.entries.push_reserved(Taken {
            line: Snapshot::of(line),
            open,
        });
        self.lines += 1;
        self.latest = line.moment.0;
        Ok(took)
    }

    /// Takes memory for the entries of so many lines more, so that none of them moves the others. Out of memory all
    /// stays as it was.
    pub fn expect(&mut self, lines: usize) -> Result<(), NoMemory>
        ensures whole { IsWhole self.old → IsWhole self.new }
        ensures same { (opened_of self.new ≡ opened_of self.old) × (entries_in self.new ≡ entries_in self.old) }
        ensures counts { (lines_in self.new ≡ lines_in self.old) × (latest_in self.new ≡ latest_in self.old)
            × (fulls_in self.new ≡ fulls_in self.old) }
        ensures lanes { (control_lanes self.new ≡ control_lanes self.old)
            × (data_lanes self.new ≡ data_lanes self.old) }
    {
        self.entries.reserve(lines)
    }

    /// Where the last line is a command that was accepted: its slot, and the slice that its control half was sent
    /// to and isn't known to have left. The half may be elsewhere meanwhile.
    pub fn called(&self) -> Option<(SliceNo, Slot)>
        ensures { IfSome result (λ called. IsLastCommand called.1 (entries_in self.now)) }
    {
        let slot = self.entries.last()?.open.commanded()?;
        let slice = self.halves.sides.controls.slice_of(slot)?;
        Some((slice, slot))
    }

    /// How many places a slice's lane has.
    pub fn lane(&self) -> u32
        ensures { result ≡ self.now.lane }
    {
        self.lane
    }

    /// The slice that has most likely something to do for the last line: where the half of its slot is, or, where it is
    /// no command or packet, where that of the slot is that moved last. No clause speaks of it, and nothing may rest on
    /// it but when a thread is woken.
    pub fn last_slice(&self) -> Option<SliceNo> {
        let slot = match self.entries.last()?.open.slot() {
            Some(slot) => slot,
            None => *self.halves.sides.moving.last()?,
        };
        self.halves.sides.controls.slice_of(slot)
    }

    /// How many slots are kept as moving: the control half of each may be on its way.
    pub fn on_their_way(&self) -> usize
        ensures { result ≡ length (moving_in self.now) }
    {
        self.halves.sides.moving.len()
    }

    /// How many lines the run had, those of this epoch too.
    pub fn lines(&self) -> u64
        ensures { result ≡ lines_in self.now }
    {
        self.lines
    }

    /// The moment of the last line.
    pub fn latest(&self) -> u64
        ensures { result ≡ latest_in self.now }
    {
        self.latest
    }

    /// How many tries of the run were answered Full; at the last u64 it stays.
    pub fn fulls(&self) -> u64
        ensures { result ≡ fulls_in self.now }
    {
        self.halves.fulls
    }
}
