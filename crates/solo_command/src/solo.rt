//! The sequential gateway, on one thread: each line is answered before the next.
ghost use Rattle.std.specs.Prelude.{◌≡◌, ℕ, ◌≤◌, ◌<◌, ◌+◌, ◌∷◌, ◌++◌, [], List};
ghost use Rattle.std.specs.Prelude.{length, None, OnOk, IfOk};
ghost use Rattle.demux.specs.Resolved.{IsDue, book_with, decided, slot_of};
ghost use Rattle.demux.specs.declared.decision.Decision.TheVariants as decision;
ghost use Rattle.demux.specs.declared.decision.Whose.TheVariants.{Known, New};
ghost use Rattle.demux.specs.Texts.{move_note};
ghost use Rattle.demux.specs.Trace.{Meaning, note as noted, command as commanded, packet as carried};
ghost use Rattle.lawful_run.specs.Merging.{Histories};
ghost use Rattle.lawful_run.specs.Outcomes.{opens};
ghost use Rattle.lawful_run.specs.Run.{by_slot, no_events};
ghost use Rattle.solo_command.specs.Answering.{IsValid};
ghost use Rattle.solo_command.specs.Gateway.{Told, admitting, no_subscribers};
ghost use Rattle.solo_command.specs.Reports.{IsGatewayOf, opens_from};
ghost use Rattle.trace_lines.specs.Line.{Line};
ghost use Rattle.solo_command.specs.Gathering.{charges_text, closing_text};
ghost use Rattle.solo_command.specs.Holding.{HasRoom, Holds, IsLate, Tells, Waits, gateway_of, told_closing};
ghost use Rattle.solo_command.specs.Report.{slices};
ghost use Rattle.solo_command.specs.Standing.{BringsNothing, IsInBook, Stands, Story, entry_line, events_of};
ghost use Rattle.solo_command.specs.Standing.{meant_next, story_of, with_end, with_book, with_meaning, with_move};
ghost use Rattle.solo_command.specs.Standing.{with_packet};

use crate::entry_text::{push_handled, push_move};
use crate::gathered::Gathered;
use address_book::AddressBook;
use control_steps::Command;
use demux::{Decision, LentPacket, Whose, decide, packet_of, start_slice};
use pc_base::{Imsi, SliceNo, Slot};
use record_codec::StateFile;
use std::alloc::{AllocError, Global};
use subscriber::Subscriber;
use text_fields::Text;
use trace_lines::TraceLine;
use trace_run::{push_answer, push_note, push_opens};

/// How many slices there are for an order to move.
const SLICES: u8 = 64;

/// The book, a subscriber for each slot in it, and what waits for the end of the epoch.
#[derive(Drop)]
pub struct Solo {
    pub book: AddressBook,
    pub subscribers: Vec<Subscriber>,
    gathered: Gathered,
}

impl Solo {
    /// The gateway before its first line.
    pub fn new(alloc: Global) -> Solo
        ensures stands { Stands result (story_of [] 0 no_events []) }
        ensures gateway { gateway_of result ≡ no_subscribers }
        ensures waits { (slots : ℕ) → Waits result.gathered slots [] }
    {
        Solo {
            book: AddressBook::new(alloc),
            subscribers: Vec::new(alloc),
            gathered: Gathered::new(alloc),
        }
    }

    /// The gateway that a state file has.
    pub fn behind(alloc: Global, file: StateFile) -> Solo
        ensures gateway { IsGatewayOf file (gateway_of result) }
        ensures waits { (slots : ℕ) → Waits result.gathered slots [] }
    {
        let StateFile {
            book,
            subscribers,
            ..
        } = file;
        Solo {
            book,
            subscribers,
            gathered: Gathered::new(alloc),
        }
    }

    /// Answers a line: its entry's text is appended to the report. After running out of memory the gateway
    /// may only be dropped.
    #[inline(always)]
    pub fn enter(&mut self, line: &TraceLine, report: &mut Text) -> Result<(), AllocError>
        requires room { HasRoom self.old }
        requires late { IsLate self.old line.now.moment }

        ensures told { (done : List Line) (latest : ℕ) (before : Histories) (made : List Meaning)
            → Stands self.old (story_of done latest before made) → line.now.number ≡ length done + 1
            → OnOk result (report.new ≡ report.old
            ++ entry_line (story_of done latest before made) (meant_next done line.now)) }
        ensures stands { (done : List Line) (latest : ℕ) (before : Histories) (made : List Meaning)
            → Stands self.old (story_of done latest before made)
            → latest ≤ line.now.moment
            → OnOk result (Stands self.new (story_of (done ++ line.now ∷ []) line.now.moment before
            (made ++ meant_next done line.now ∷ []))) }

        // The same by what its subscribers hold, also of those that were read.
        ensures answers { OnOk result (Tells line.now.number (decided slices self.old.book line.now) self.old
            self.new report.old report.new) }
    {
        match packet_of(&self.book, line) {
            Some(found) => {
                let packet = LentPacket {
                    moment: line.moment,
                    way: found.1,
                    ip: found.2,
                };
                self.packet(line.number, found.0, &packet, report)
            }
            None => self.enter_decided(line, report),
        }
    }

    // The same of any line.
    #[inline(never)]
    fn enter_decided(&mut self, line: &TraceLine, report: &mut Text) -> Result<(), AllocError>
        requires room { HasRoom self.old }
        requires late { IsLate self.old line.now.moment }

        ensures told { (done : List Line) (latest : ℕ) (before : Histories) (made : List Meaning)
            → Stands self.old (story_of done latest before made) → line.now.number ≡ length done + 1
            → OnOk result (report.new ≡ report.old
            ++ entry_line (story_of done latest before made) (meant_next done line.now)) }
        ensures stands { (done : List Line) (latest : ℕ) (before : Histories) (made : List Meaning)
            → Stands self.old (story_of done latest before made)
            → latest ≤ line.now.moment
            → OnOk result (Stands self.new (story_of (done ++ line.now ∷ []) line.now.moment before
            (made ++ meant_next done line.now ∷ []))) }
        ensures answers { OnOk result (Tells line.now.number (decided slices self.old.book line.now) self.old
            self.new report.old report.new) }
    {
        let alloc = *self.subscribers.allocator();
        let number = line.number;
        match decide(alloc, &self.book, SLICES, line)? {
            Decision::Packet { slot, packet } => self.packet(number, slot, &packet, report),
            Decision::Command { whose, command } => {
                self.command(alloc, number, whose, &command, report)
            }
            Decision::Move { slot, slice } => self.move_to(number, slot, slice, report),
            Decision::Note(text) => push_note(report, number, text.as_slice()),
        }
    }

    /// Ends an epoch: its effects are appended by slot, and then its charging records.
    pub fn end_epoch(&mut self, report: &mut Text) -> Result<(), AllocError>
        ensures told { (story : Story) → Stands self.old story
            → OnOk result (report.new ≡ report.old
            ++ closing_text (length story.book) story.before story.made) }
        ensures stands { (story : Story) → Stands self.old story
            → OnOk result (Stands self.new (with_end story)) }

        // The same by what was told of the epoch's lines.
        ensures ends { (open_ : List Told) → Waits self.old.gathered (length self.old.book) open_
            → OnOk result (report.new ≡ report.old ++ told_closing (length self.old.book) open_) }
        ensures emptied { OnOk result ((slots : ℕ) → Waits self.new.gathered slots []) }
        ensures same { gateway_of self.new ≡ gateway_of self.old }
    {
        self.gathered.push_all(report)
    }

    /// Appends the open counters of all subscribers.
    pub fn push_opens(&self, report: &mut Text) -> Result<(), AllocError>
        ensures after { (story : Story) → Stands self.now story → OnOk result (report.new
            ≡ report.old ++ charges_text
            (by_slot (length story.book) (λ slot. opens slot (events_of story slot)))) }
        ensures own { (lines latest : ℕ) → Holds lines latest (gateway_of self.now) → OnOk result (report.new
            ≡ report.old ++ charges_text (opens_from 0 self.now.subscribers.items)) }
    {
        push_opens(report, self.subscribers.as_slice())
    }

    // An order that a subscriber goes to a slice.
    #[inline(never)]
    fn move_to(
        &mut self,
        number: u64,
        slot: Slot,
        slice: SliceNo,
        report: &mut Text,
    ) -> Result<(), AllocError>
        requires room { HasRoom self.old }
        requires known { IsInBook self.old slot }

        ensures told { (story : Story) → Stands self.old story
            → number ≡ story.lines + 1 → OnOk result (report.new ≡ report.old
            ++ entry_line story (noted (move_note (story.bound slot) slot slice))) }
        ensures stands { (story : Story) (now : Meaning) → Stands self.old story → BringsNothing now
            → OnOk result (Stands self.new (with_move story now slot slice)) }
        ensures tells { OnOk result (Tells number (decision.Move slot slice) self.old self.new report.old
            report.new) }
    {
        let place = slot.0 as usize;
        let subscriber = &mut self.subscribers[place];
        push_move(report, number, subscriber.destination(), slot, slice)?;
        subscriber.set_destination(slice);
        Ok(())
    }

    // A packet of a slot in the book.
    #[inline(always)]
    fn packet(
        &mut self,
        number: u64,
        slot: Slot,
        packet: &LentPacket<'_>,
        report: &mut Text,
    ) -> Result<(), AllocError>
        requires room { HasRoom self.old }
        requires known { IsInBook self.old slot }
        requires late { IsLate self.old packet.now.moment }

        ensures told { (story : Story) → Stands self.old story
            → number ≡ story.lines + 1 → OnOk result (report.new ≡ report.old
            ++ entry_line story (carried slot packet.now)) }
        ensures stands { (story : Story) → Stands self.old story → story.latest ≤ packet.now.moment
            → OnOk result (Stands self.new (with_packet story (carried slot packet.now)
            packet.now.moment)) }
        ensures tells { OnOk result (Tells number (decision.Packet slot packet.now) self.old self.new report.old
            report.new) }
    {
        let place = slot.0 as usize;
        let subscriber = &mut self.subscribers[place];
        // Below 2^16, as a G-PDU asks.
        let _len = packet.ip.total_len();
        let handled = subscriber.judge(packet.moment, packet.way, &packet.ip)?;
        push_handled(report, number, slot, handled)?;
        self.gathered.add_rows(slot, subscriber.take_closed())?;
        Ok(())
    }

    // A command of a slot in the book, or of a new one.
    #[inline(never)]
    fn command(
        &mut self,
        alloc: Global,
        number: u64,
        whose: Whose,
        command: &Command,
        report: &mut Text,
    ) -> Result<(), AllocError>
        requires room { HasRoom self.old }
        requires due { IsDue self.old.book whose }

        ensures told { (story : Story) → Stands self.old story
            → number ≡ story.lines + 1 → OnOk result (report.new ≡ report.old
            ++ entry_line story (commanded (slot_of story.book whose) command.now)) }
        ensures stands { (story : Story) → Stands self.old story
            → OnOk result (Stands self.new (with_book
            (with_meaning story (commanded (slot_of story.book whose) command.now))
            (book_with story.book whose))) }
        ensures tells { OnOk result (Tells number (decision.Command whose command.now) self.old self.new
            report.old report.new) }
    {
        match whose {
            Whose::Known(slot) => self.answer(alloc, number, slot, command, report),
            Whose::New(imsi) => {
                let slot = self.admit(alloc, imsi)?;
                self.answer(alloc, number, slot, command, report)
            }
        }
    }

    // A command of a slot in the book.
    fn answer(
        &mut self,
        alloc: Global,
        number: u64,
        slot: Slot,
        command: &Command,
        report: &mut Text,
    ) -> Result<(), AllocError>
        requires room { HasRoom self.old }
        requires known { IsInBook self.old slot }

        ensures told { (story : Story) → Stands self.old story
            → number ≡ story.lines + 1 → OnOk result (report.new ≡ report.old
            ++ entry_line story (commanded slot command.now)) }
        ensures stands { (story : Story) → Stands self.old story
            → OnOk result (Stands self.new (with_meaning story (commanded slot command.now))) }
        ensures tells { OnOk result (Tells number (decision.Command (Known slot) command.now) self.old self.new
            report.old report.new) }
    {
        let place = slot.0 as usize;
        let subscriber = &mut self.subscribers[place];
        let count = subscriber.commands();
        let (reply, effects) = subscriber.command(alloc, command)?;
        valid(subscriber);
        push_answer(report, number, slot, count, &reply)?;
        self.gathered.add_effects(slot, count, effects)?;
        self.gathered.add_rows(slot, subscriber.take_closed())?;
        Ok(())
    }

    // The slot of a new IMSI, which gets a subscriber.
    fn admit(&mut self, alloc: Global, imsi: Imsi) -> Result<Slot, AllocError>
        requires due { IsDue self.old.book (New imsi) }

        ensures slot { (story : Story) → Stands self.old story
            → IfOk result (λ slot. slot ≡ length story.book) }
        ensures stands { (story : Story) → Stands self.old story
            → OnOk result (Stands self.new (with_book story (story.book ++ imsi ∷ []))) }
        ensures admits { OnOk result (gateway_of self.new ≡ admitting slices (New imsi) (gateway_of self.old)) }
        ensures next { IfOk result (λ slot. slot ≡ length self.old.book) }
        ensures waits { OnOk result (self.new.gathered ≡ self.old.gathered) }
    {
        let slot = Whose::New(imsi).admit(&mut self.book)?;
        let home = start_slice(slot, SLICES);
        self.subscribers.push(Subscriber::new(alloc, slot, home)?)?;
        Ok(slot)
    }
}

// The ranges that each subscriber keeps.
fn valid(subscriber: &Subscriber)
    ensures { IsValid subscriber.now }
{
    subscriber.session.known();
    let _bearers = subscriber.version.bearers();
}
