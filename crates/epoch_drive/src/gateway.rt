//! The gateway under a schedule: at rest, or ahead by the lines of an epoch that is open.
ghost use Rattle.std.specs.Prelude.{◌≡◌, ℕ, ◌+◌, ◌≤◌, ◌∷◌, ◌++◌, [], List, length, IfOk, OnOk};
ghost use Rattle.trace_lines.specs.Line.{Line};
ghost use Rattle.lawful_run.specs.Trace.{meant_from};
ghost use Rattle.lawful_run.specs.Merging.{Histories, behind};
ghost use Rattle.lawful_run.specs.Run.{told_in};
ghost use Rattle.at_rest.specs.Rest.{IsBehind, RepresentsAll, Rest, bound_at};
ghost use Rattle.epoch_schedule.specs.TurnsTold.{AreWorkers, turns_told, turns_behind};
ghost use Rattle.epoch_drive.specs.Driven.{IsDriven};
ghost use Rattle.epoch_drive.specs.Runs.{bounds_behind};
ghost use Rattle.at_rest.specs.Coming.{latest_behind};
ghost use Rattle.epoch_drive.specs.Lines.{rooms_of};
ghost use Rattle.epoch_drive.specs.Taken.{HasTaken, IsResting, MayCome, rest_of};
ghost use Rattle.epoch_drive.specs.Telling.{AreShort, told_by};

use crate::driving::do_lines;
use crate::kept::{keep, keep_packet};
use crate::{DrivenEpoch, EpochLines};
use address_book::AddressBook;
use at_rest::{AtRest, decide_line};
use demux::{LentPacket, packet_of};
use epoch_schedule::{Rooms, Turns};
use gate_model::sessions_keep_their_slot;
use std::alloc::AllocError;
use subscriber::Subscriber;
use trace_lines::TraceLine;

/// The gateway, with the book and the subscribers behind the lines that it took: what those mean stands in
/// `EpochLines`, and is done when their epoch is driven. After running out of memory it may only be dropped.
#[derive(Drop)]
pub struct DrivenGateway {
    /// How many slices there are, 1 to 64.
    pub slices: u8,
    /// The room of a slot's queues, 1 to 256.
    pub room: u32,
    /// The room of a slice's lane, 1 to 16,384.
    pub lane: u32,
    /// Which IMSI has which slot.
    pub book: AddressBook,
    /// By slot: as many as there are IMSIs in the book.
    pub subscribers: Vec<Subscriber>,
    /// How many lines stood before the open epoch.
    pub lines: u64,
    /// The moment of the last line in microseconds, or 0.
    pub latest: u64,
}

impl DrivenGateway {
    /// The gateway at rest.
    pub fn of(rest: AtRest) -> DrivenGateway
        ensures { IsResting rest result }
    {
        let AtRest {
            sizes,
            book,
            subscribers,
            lines,
            latest,
            fulls: _,
        } = rest;
        DrivenGateway {
            slices: sizes.slices,
            room: sizes.room,
            lane: sizes.lane,
            book,
            subscribers,
            lines,
            latest,
        }
    }

    /// Opens an epoch.
    pub fn begin(&self, lines: &mut EpochLines) -> Result<(), AllocError>
        ensures { (rest : Rest) → IsResting rest self.now → OnOk result (HasTaken rest [] self.now lines.new) }
    {
        lines.begin(self.subscribers.as_slice())
    }

    /// Takes the next line of the open epoch.
    pub fn take(&mut self, lines: &mut EpochLines, line: &TraceLine) -> Result<(), AllocError>
        requires { (start : Rest) × (taken : List Line) × HasTaken start taken self.old lines.old }
        ensures { (start : Rest) (taken : List Line) → HasTaken start taken self.old lines.old
            → OnOk result (HasTaken start (taken ++ line.now ∷ []) self.new lines.new) }
    {
        match packet_of(&self.book, line) {
            // It changes neither the book nor the subscribers.
            Some(found) => {
                let packet = LentPacket {
                    moment: line.moment,
                    way: found.1,
                    ip: found.2,
                };
                keep_packet(lines, found.0, &packet)?;
                self.latest = line.moment.0;
                Ok(())
            }
            None => self.take_any(lines, line),
        }
    }

    // Takes any line.
    #[inline(never)]
    fn take_any(&mut self, lines: &mut EpochLines, line: &TraceLine) -> Result<(), AllocError>
        requires { (start : Rest) × (taken : List Line) × HasTaken start taken self.old lines.old }
        ensures { (start : Rest) (taken : List Line) → HasTaken start taken self.old lines.old
            → OnOk result (HasTaken start (taken ++ line.now ∷ []) self.new lines.new) }
    {
        let alloc = *self.subscribers.allocator();
        let meant = decide_line(
            alloc,
            self.slices,
            &mut self.book,
            &mut self.subscribers,
            line,
        )?;
        keep(alloc, lines, meant)?;
        self.latest = line.moment.0;
        Ok(())
    }

    /// Drives the open epoch: its lines, behind each of them the turns. Lines are counted on from those
    /// before, and are at most 2^39 in all. Out of memory, drawn turns may have gone on.
    pub fn drive<'a>(
        &mut self,
        lines: &'a EpochLines,
        turns: &mut Turns,
    ) -> Result<DrivenEpoch<'a>, AllocError>
        requires { (start : Rest) × (taken : List Line) × (HasTaken start taken self.old lines.now
            × MayCome start taken × AreWorkers start.slices turns.old) }

        // The entries are those of the driven epoch: from where the subscribers stand and are bound for, by
        // what the lines mean behind those before them, under the turns. Effects and charging records are
        // those of as many slots as the book has, or more.
        ensures driven { (start : Rest) (taken prior : List Line) (before : Histories) (slots : ℕ)
            → HasTaken start taken self.old lines.now → MayCome start taken → IsBehind start prior
            → RepresentsAll start before
            → IfOk result (λ epoch. length self.new.book ≤ slots → IsDriven (rooms_of start) (bound_at start)
            (turns_told turns.old start.slices (length taken)) slots (start.lines + 1) before
            (meant_from start.slices prior taken) (told_by epoch)) }

        // The gateway represents the events behind the epoch, is what all lines leave, and is at rest.
        ensures represents { (start : Rest) (taken prior : List Line) (before : Histories)
            → HasTaken start taken self.old lines.now → MayCome start taken → IsBehind start prior
            → RepresentsAll start before
            → IfOk result (λ epoch. RepresentsAll (rest_of self.new) (behind before
            (told_in (meant_from start.slices prior taken) (told_by epoch)))) }
        ensures behind { (start : Rest) (taken prior : List Line) → HasTaken start taken self.old lines.now
            → MayCome start taken → IsBehind start prior
            → OnOk result (IsBehind (rest_of self.new) (prior ++ taken)) }
        ensures bounds { (start : Rest) (taken prior : List Line) → HasTaken start taken self.old lines.now
            → MayCome start taken → IsBehind start prior → OnOk result ((slot : ℕ)
            → bound_at (rest_of self.new) slot
            ≡ bounds_behind (bound_at start) (meant_from start.slices prior taken) slot) }
        ensures rests { (start : Rest) (taken : List Line) → HasTaken start taken self.old lines.now
            → MayCome start taken → OnOk result (IsResting (rest_of self.new) self.new) }
        ensures setup { (start : Rest) (taken : List Line) → HasTaken start taken self.old lines.now
            → OnOk result ((self.new.slices ≡ start.slices) × (self.new.room ≡ start.room)
            × (self.new.lane ≡ start.lane)) }
        ensures latest { (start : Rest) (taken : List Line) → HasTaken start taken self.old lines.now
            → OnOk result (self.new.latest ≡ latest_behind start.latest taken) }
        ensures lines { (start : Rest) (taken : List Line) → HasTaken start taken self.old lines.now
            → OnOk result (self.new.lines ≡ start.lines + length taken) }

        // Each verdict can be written.
        ensures short { IfOk result (λ epoch. AreShort epoch.lines.items) }

        // Listed turns stay, and drawn ones go on.
        ensures turns { (start : Rest) (taken : List Line) → HasTaken start taken self.old lines.now
            → OnOk result (turns.new ≡ turns_behind turns.old (length taken)) }
    {
        sessions_keep_their_slot();
        let rooms = Rooms {
            room: self.room,
            lane: self.lane,
        };
        let epoch = do_lines(
            rooms,
            self.slices,
            &self.book,
            &mut self.subscribers,
            self.lines,
            lines,
            turns,
        )?;
        self.lines += lines.lines.len() as u64;
        Ok(epoch)
    }
}
