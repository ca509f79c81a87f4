//! The second sentence and a part of the sixth, line by line of an epoch: the first entry that isn't numbered on, and
//! the first line that is refused, parked or, on one thread, handled where it mayn't be.

ghost use Rattle.std.specs.Prelude.{◌≡◌, ◌+◌, ◌<◌, ◌≤◌, ◌^◌, ◌∷◌, [], ℕ, List, length, decimal, IfOk, OnOk};
ghost use Rattle.std.specs.Prelude.{◌≢◌, ◌++◌, None, Some, if◌then◌else◌, option_map};
ghost use Rattle.lawful_run.specs.Answers.{Answers};
ghost use Rattle.lawful_run.specs.LinesTold.{LineTold};
ghost use Rattle.lawful_run.specs.Merging.{Histories};
ghost use Rattle.at_rest.specs.Meant.{AreStanding};
ghost use Rattle.audit_core.specs.Holding.{AreKnownTold, IsKnown};
ghost use Rattle.audit_core.specs.Meant.{line_told, lines_of};
ghost use Rattle.audit_core.specs.OfSlot.{AreAnswered};
ghost use Rattle.audit_core.specs.Telling.{at_line};
ghost use Rattle.audit_core.specs.Walking.{FewBefore, HasWalked, Walks, load_by, may_behind, may_refuse};
ghost use Rattle.audit_core.specs.Walking.{may_stand, number_missed, one_new, one_taken, own_by, waits_due};

use crate::NoMemory;
use crate::setup::Setup;
use crate::telling::{Break, at_line, dash};
use crate::told_line::ToldLine;
use pc_base::Octets;
use report_lines::LineEntry;
use slot_execution::KeptMeaning;
use std::alloc::Global;
use subscriber::Subscriber;

/// What is broken first of each.
#[derive(Drop)]
pub(crate) struct Walked {
    pub numbers: Option<Break>,
    pub waits: Option<Break>,
}

// What a slot had in the epoch so far: a command or packet, a move, accepted commands and packets; and whether a packet
// may be parked now.
#[derive(Clone, Copy)]
struct Own {
    seen: bool,
    moved: bool,
    may_park: bool,
    commands: u64,
    packets: u64,
}

// How many slots had a command or packet; accepted packets and moves of all slots.
#[derive(Clone, Copy)]
struct AcceptedLoad {
    slots: u64,
    packets: u64,
    moves: u64,
}

#[derive(Drop)]
struct Course {
    own: Vec<Own>,
    load: AcceptedLoad,
}

fn one_new(seen: bool) -> u64
    ensures value { result ≡ one_new seen }
    ensures most { result ≤ 1 }
{
    if seen { 0 } else { 1 }
}

fn one_taken(told: &ToldLine<'_>) -> u64
    ensures value { result ≡ one_taken (line_told told.now).entry }
    ensures most { result ≤ 1 }
{
    if told.is_refused() { 0 } else { 1 }
}

impl Own {
    // With a line of the slot more.
    fn with(self, told: &ToldLine<'_>) -> Own
        requires commands { self.commands < 2 ^ 62 }
        requires packets { self.packets < 2 ^ 62 }
        ensures { result ≡ own_by self (line_told told.now).meaning (line_told told.now).entry }
    {
        match told.meant {
            KeptMeaning::Command { .. } => Own {
                seen: true,
                commands: self.commands + one_taken(told),
                ..self
            },
            KeptMeaning::Packet { .. } => Own {
                seen: true,
                packets: self.packets + one_taken(told),
                may_park: may_behind(self.may_park, told.entry),
                ..self
            },
            KeptMeaning::Move { .. } => Own {
                moved: true,
                may_park: true,
                ..self
            },
            KeptMeaning::Note(_) => self,
        }
    }
}

fn may_behind(may: bool, entry: &LineEntry) -> bool
    ensures { result ≡ may_behind may entry.now }
{
    match entry {
        LineEntry::P(judged) => may && judged.parked,
        LineEntry::N(_) | LineEntry::C(_) | LineEntry::F(_) => may,
    }
}

impl AcceptedLoad {
    // With a line more, of a slot that was seen or not.
    fn with(self, seen: bool, told: &ToldLine<'_>) -> AcceptedLoad
        requires slots { self.slots < 2 ^ 62 }
        requires packets { self.packets < 2 ^ 62 }
        requires moves { self.moves < 2 ^ 62 }
        ensures { result ≡ load_by self seen (line_told told.now).meaning (line_told told.now).entry }
    {
        match told.meant {
            KeptMeaning::Command { .. } => AcceptedLoad {
                slots: self.slots + one_new(seen),
                ..self
            },
            KeptMeaning::Packet { .. } => AcceptedLoad {
                slots: self.slots + one_new(seen),
                packets: self.packets + one_taken(told),
                ..self
            },
            KeptMeaning::Move { .. } => AcceptedLoad {
                moves: self.moves + 1,
                ..self
            },
            KeptMeaning::Note(_) => self,
        }
    }
}

// Whether a refused line's queue or lane could be full. Its own slot counts for the lane.
fn may_refuse(setup: &Setup, packet: bool, own: &Own, load: &AcceptedLoad) -> bool
    requires packets { load.now.packets < 2 ^ 61 }
    requires slots { load.now.slots < 2 ^ 61 }
    requires moves { load.now.moves < 2 ^ 61 }
    ensures { result ≡ may_refuse setup.now packet own.now load.now }
{
    if setup.solo {
        return false;
    }
    if packet {
        let slots = load.slots + one_new(own.seen);
        let items = load.packets + slots + 2 * load.moves;
        return items >= u64::from(setup.lane)
            || (own.moved && own.packets >= u64::from(setup.room));
    }
    own.commands >= u64::from(setup.room)
}

// Whether a line may stand so, where its slot had so many commands before it, from the first one ever on.
fn may_stand(
    setup: &Setup,
    own: &Own,
    load: &AcceptedLoad,
    commands: u64,
    entry: &LineEntry,
) -> bool
    requires packets { load.now.packets < 2 ^ 61 }
    requires slots { load.now.slots < 2 ^ 61 }
    requires moves { load.now.moves < 2 ^ 61 }
    ensures { result ≡ may_stand setup.now own.now load.now commands entry.now }
{
    match entry {
        LineEntry::F(refused) => may_refuse(setup, refused.packet, own, load),
        LineEntry::P(judged) => {
            (own.may_park || !judged.parked) && (!setup.solo || judged.commands == commands)
        }
        LineEntry::N(_) | LineEntry::C(_) => true,
    }
}

// On one thread, the count that a packet has to have where it has another.
fn count_due(
    alloc: Global,
    setup: &Setup,
    commands: u64,
    entry: &LineEntry,
) -> Result<Octets, NoMemory>
    ensures { IfOk result (λ text. text ≡ waits_due setup.now commands entry.now) }
{
    match entry {
        LineEntry::P(judged) => if setup.solo && judged.commands != commands {
            number_due(alloc, commands)
        } else {
            dash(alloc)
        },
        LineEntry::N(_) | LineEntry::C(_) | LineEntry::F(_) => dash(alloc),
    }
}

// The number that an entry has to have, where it has another.
fn number_missed(commands: u64, packets: u64, entry: &LineEntry) -> Option<u64>
    ensures { result ≡ number_missed commands packets entry.now }
{
    match entry {
        LineEntry::C(answered) => if answered.number == commands {
            None
        } else {
            Some(commands)
        },
        LineEntry::P(judged) => if judged.number == packets {
            None
        } else {
            Some(packets)
        },
        LineEntry::N(_) | LineEntry::F(_) => None,
    }
}

fn number_due(alloc: Global, number: u64) -> Result<Octets, NoMemory>
    ensures { IfOk result (λ text. text ≡ decimal number) }
{
    Ok(Octets::of(format!(in alloc; "{number}")?.into_bytes()))
}

impl Course {
    fn new(alloc: Global, slots: usize) -> Result<Course, NoMemory>
        ensures { IfOk result (λ course. Walks course slots []) }
    {
        let none = Own {
            seen: false,
            moved: false,
            may_park: false,
            commands: 0,
            packets: 0,
        };
        Ok(Course {
            own: vec![in alloc; none; slots]?,
            load: AcceptedLoad {
                slots: 0,
                packets: 0,
                moves: 0,
            },
        })
    }
}

impl Course {
    // With a line more.
    fn take(&mut self, told: &ToldLine<'_>)
        requires known { IsKnown (length self.old.own.items) (line_told told.now).meaning }
        requires few { (slots : ℕ) × (before : List LineTold) × Walks self.old slots before
            × (length before < 2 ^ 60) }
        ensures { (slots n : ℕ) (before : List LineTold) → Walks self.old slots before
            → Answers n (line_told told.now).meaning (line_told told.now).entry
            → Walks self.new slots (before ++ line_told told.now ∷ []) }
    {
        if let Some(slot) = told.slot() {
            let place = slot.0 as usize;
            let own = self.own[place];
            self.load = self.load.with(own.seen, told);
            self.own[place] = own.with(told);
        }
    }
}

/// The first breaks of an epoch's lines, where the subscribers stand before it.
pub(crate) fn walk(
    alloc: Global,
    setup: &Setup,
    subscribers: &[Subscriber],
    lines: &[ToldLine<'_>],
) -> Result<Walked, NoMemory>
    requires short { length lines.now < 2 ^ 60 }
    requires few { FewBefore subscribers.now (length lines.now) }
    requires known { AreKnownTold (length subscribers.now) (lines_of lines.now) }
    requires answered { (first : ℕ) × AreAnswered first (lines_of lines.now) }
    ensures { (histories : Histories) → AreStanding subscribers.now histories
        → IfOk result (HasWalked setup.now histories (lines_of lines.now)) }
{
    let mut course = Course::new(alloc, subscribers.len())?;
    let mut walked = Walked {
        numbers: None,
        waits: None,
    };
    for told in lines {
        note_line(alloc, setup, subscribers, &course, told, &mut walked)?;
        course.take(told);
    }
    Ok(walked)
}

// What a line breaks behind those before it.
fn note_line(
    alloc: Global,
    setup: &Setup,
    subscribers: &[Subscriber],
    course: &Course,
    told: &ToldLine<'_>,
    walked: &mut Walked,
) -> Result<(), NoMemory>
    requires known { IsKnown (length subscribers.now) (line_told told.now).meaning }
    requires few { (before : List LineTold) × Walks course.now (length subscribers.now) before
        × FewBefore subscribers.now (length before + 1) × (length before < 2 ^ 60) }
    ensures { (n : ℕ) (histories : Histories) (before : List LineTold) → AreStanding subscribers.now histories
        → Walks course.now (length subscribers.now) before
        → Answers n (line_told told.now).meaning (line_told told.now).entry
        → HasWalked setup.now histories before walked.old
        → OnOk result (HasWalked setup.now histories (before ++ line_told told.now ∷ []) walked.new) }
{
    let Some(slot) = told.slot() else {
        return Ok(());
    };
    let place = slot.0 as usize;
    let own = course.own[place];
    let subscriber = &subscribers[place];
    let commands = subscriber.commands() + own.commands;
    let packets = subscriber.packets() + own.packets;
    note_numbers(alloc, walked, commands, packets, told.entry)?;
    note_waits(
        alloc,
        setup,
        &own,
        &course.load,
        commands,
        told.entry,
        walked,
    )
}

fn note_waits(
    alloc: Global,
    setup: &Setup,
    own: &Own,
    load: &AcceptedLoad,
    commands: u64,
    entry: &LineEntry,
    walked: &mut Walked,
) -> Result<(), NoMemory>
    requires packets { load.now.packets < 2 ^ 61 }
    requires slots { load.now.slots < 2 ^ 61 }
    requires moves { load.now.moves < 2 ^ 61 }
    ensures numbers { OnOk result (walked.new.numbers ≡ walked.old.numbers) }
    ensures kept { walked.old.waits ≢ None → OnOk result (walked.new.waits ≡ walked.old.waits) }
    ensures waits { walked.old.waits ≡ None → OnOk result (walked.new.waits
        ≡ (if may_stand setup.now own.now load.now commands entry.now then None
        else Some (at_line entry.now (waits_due setup.now commands entry.now)))) }
{
    if walked.waits.is_some() || may_stand(setup, own, load, commands, entry) {
        return Ok(());
    }
    let due = count_due(alloc, setup, commands, entry)?;
    walked.waits = Some(at_line(alloc, entry, due)?);
    Ok(())
}

fn note_numbers(
    alloc: Global,
    walked: &mut Walked,
    commands: u64,
    packets: u64,
    entry: &LineEntry,
) -> Result<(), NoMemory>
    ensures waits { OnOk result (walked.new.waits ≡ walked.old.waits) }
    ensures kept { walked.old.numbers ≢ None → OnOk result (walked.new.numbers ≡ walked.old.numbers) }
    ensures numbers { walked.old.numbers ≡ None → OnOk result (walked.new.numbers
        ≡ option_map (λ due. at_line entry.now (decimal due)) (number_missed commands packets entry.now)) }
{
    if walked.numbers.is_some() {
        return Ok(());
    }
    if let Some(due) = number_missed(commands, packets, entry) {
        walked.numbers = Some(at_line(alloc, entry, number_due(alloc, due)?)?);
    }
    Ok(())
}
