//! A control half at its lanes, turned by hand.
use crate::answers::{StepStop, push_counted, push_word};
use crate::step::ScriptStep;
use bearer_state::{Session, Version};
use control_half::{Batch, BoxedCommand, CommandDone, CommandItem, ControlHalf};
use control_steps::{Command, CommandKind};
use lane_core::{Did, NoMemory, Receiver, Sender, lane};
use pc_base::{Addr4, Kbps, Outcome, Peer, Slot, Teid};
use std::alloc::Global;
use std::sync::Wait;
use text_fields::Text;
use worker_core::Traveller;

const ENB: Peer = Peer {
    teid: Teid(0xa01),
    addr: Addr4(0xc633_6407),
};

/// A half, and the far ends of its lanes.
#[derive(Drop)]
pub struct ControlBench {
    alloc: Global,
    half: ControlHalf,
    commands: Sender<CommandItem>,
    versions: Receiver<Batch<Version>>,
}

fn attach(alloc: Global) -> Result<BoxedCommand, StepStop> {
    let kind = CommandKind::Attach {
        enb: ENB,
        up: Kbps(1000),
        down: Kbps(2000),
    };
    match Command::of(kind) {
        Some(command) => Ok(BoxedCommand::of(alloc, command)?),
        None => Err(StepStop::Step),
    }
}

impl ControlBench {
    /// A new half, over lanes of so many commands and batches.
    pub fn new(alloc: Global, commands: u32, batches: u32) -> Result<ControlBench, StepStop> {
        if commands == 0 || commands > 100 || batches == 0 || batches > 100 {
            return Err(StepStop::Step);
        }
        let (commands, taking) = lane(alloc, commands)?;
        let (sending, versions) = lane(alloc, batches)?;
        let session = Session::new(alloc, Slot(1));
        match ControlHalf::new(session, 0, 0, taking, sending) {
            Ok(half) => Ok(ControlBench {
                alloc,
                half,
                commands,
                versions,
            }),
            Err(_) => Err(StepStop::NoMemory),
        }
    }

    // The next command, an attach; whether the lane takes it. It is ten lines behind its number.
    fn give<R: Wait>(&mut self, rt: &R, step: ScriptStep) -> Result<bool, StepStop> {
        let number = self.commands.offers();
        if number > 100 {
            return Err(StepStop::Step);
        }
        let item = CommandItem {
            number,
            hop: u64::from(step.one),
            floor: u64::from(step.two),
            line: number + 10,
            command: attach(self.alloc)?,
        };
        Ok(self.commands.offer(rt, item).is_ok())
    }

    // What a turn came to.
    fn turn<R: Wait>(&mut self, rt: &R) -> Result<&'static [u8], NoMemory> {
        match self.half.work(rt)? {
            Did::Idle => Ok(b"idle"),
            Did::Held => Ok(b"held"),
            Did::Worked => Ok(b"worked"),
        }
    }

    // The floor of the next batch, and the numbers of its versions.
    fn batch<R: Wait>(&mut self, rt: &R, text: &mut Text) -> Result<(), StepStop> {
        match self.versions.take(rt) {
            Some(batch) => Ok(push_batch(text, &batch)?),
            None => push_word(text, b"none"),
        }
    }

    /// A command of a hop and a floor (c), a turn and how many commands the half has applied behind it (w), the next
    /// batch (b), or an arrival behind so many moves (h).
    pub fn play<R: Wait>(
        &mut self,
        rt: &R,
        step: ScriptStep,
        text: &mut Text,
    ) -> Result<(), StepStop> {
        match step.letter {
            b'c' => {
                let took = self.give(rt, step)?;
                push_word(text, if took { b"ok" } else { b"full" })
            }
            b'w' => {
                let did = self.turn(rt)?;
                push_counted(text, did, self.half.done())
            }
            b'b' => self.batch(rt, text),
            b'h' => {
                self.half.arrive(u64::from(step.one));
                push_word(text, b"ok")
            }
            _ => Err(StepStop::Step),
        }
    }

    /// The replies: line, number and outcome of each.
    pub fn end(self, alloc: Global) -> Result<Text, StepStop> {
        let mut text = Text::new(alloc);
        let end = self.half.into_end();
        push_notes(&mut text, end.control.notes.as_slice())?;
        Ok(text)
    }
}

fn push_notes(text: &mut Text, notes: &[CommandDone]) -> Result<(), NoMemory> {
    let mut between: &[u8] = b"";
    for note in notes {
        text.extend_from_slice(between)?;
        push_note(text, note)?;
        between = b";";
    }
    Ok(())
}

fn push_batch(text: &mut Text, batch: &Batch<Version>) -> Result<(), NoMemory> {
    text.push_number(batch.floor())?;
    for version in batch.versions() {
        text.push_number(version.number)?;
    }
    Ok(())
}

fn push_note(text: &mut Text, note: &CommandDone) -> Result<(), NoMemory> {
    text.push_number(note.line)?;
    text.push_number(note.number)?;
    text.push_field(match note.reply.outcome {
        Outcome::Done => b"done",
        Outcome::No => b"no",
        Outcome::Again => b"again",
    })
}
