//! What is left of a subscriber's halves, until they are one again.
ghost use Rattle.std.specs.Prelude.{◌≡◌, ◌++◌, IfOk, IfErr};
ghost use Rattle.counter_half.specs.Half.{handled_by};
ghost use Rattle.counter_half.specs.Handled.{places_in};
ghost use Rattle.split_record.specs.Rejoined.{AreOfOneSplit, AreAccepted, Finishes};
ghost use Rattle.split_record.specs.Origin.{start_in, commands_in, items_in_all, places_in_all, bound_for, LeftMeetAll};
ghost use Rattle.split_record.specs.Origin.{IsAt, IsOpen, IsHalfway, IsClosing};
ghost use Rattle.split_record.specs.Props.{accepted_prop};

use crate::closing::Closing;
use crate::origin::Origin;
use crate::{Finished, FrontEnd};
use bearer_state::Version;
use control_half::{Batch, CommandItem, ControlEnd, ControlHalf, Controller};
use counter_half::{DataHalf, DataItem, DataRest};
use lane_core::{Sender, close};
use pc_base::SliceNo;
use std::alloc::Global;
use std::sync::Wait;

/// What is left of a subscriber's front end and halves after running out of memory. Nothing is lost.
#[derive(Drop)]
pub struct RecordParts<'p> {
    pub(crate) alloc: Global,
    pub(crate) origin: Origin<'p>,
    pub(crate) destination: SliceNo,
    pub(crate) stage: Stage<'p>,
    ghost accepted: { AreAccepted origin.front.value (items_in_all origin) } by { accepted_prop },
    ghost whole: { IsAt origin stage },
    ghost bound: { destination ≡ origin.front.value.destination },
}

/// How far the halves are together.
#[derive(Drop)]
pub(crate) enum Stage<'p> {
    /// Both lanes are open.
    Open(OpenHalves<'p>),
    /// The lane of commands is closed.
    Halfway(Halfway<'p>),
    /// Both are.
    Closing(Closing<'p>),
}

/// The halves with both lanes open.
#[derive(Drop)]
pub(crate) struct OpenHalves<'p> {
    pub(crate) lane: Sender<CommandItem>,
    pub(crate) control: ControlEnd,
    pub(crate) data_half: DataRest<'p>,
    pub(crate) left: Vec<DataItem<'p>>,
}

/// The halves with the lane of versions open.
#[derive(Drop)]
pub(crate) struct Halfway<'p> {
    pub(crate) control: Commanded,
    pub(crate) versions: Sender<Batch<Version>>,
    pub(crate) data_half: DataRest<'p>,
    pub(crate) left: Vec<DataItem<'p>>,
}

/// What a control half has done, and the commands that it has still to do.
#[derive(Drop)]
pub(crate) struct Commanded {
    pub(crate) controller: Controller,
    /// The last command was applied under this floor, and its version is still to be made.
    pub(crate) due: Option<u64>,
    /// Versions that weren't sent.
    pub(crate) kept: Option<Batch<Version>>,
    /// A command that was taken from the lane, before those that were left there.
    pub(crate) head: Option<CommandItem>,
    pub(crate) rest: Vec<CommandItem>,
}

impl<'p> RecordParts<'p> {
    ghost use Rattle.split_record.specs.Parts.{IsOf};

    pub(crate) fn new(
        alloc: Global,
        front: FrontEnd,
        control: ControlHalf,
        data_half: DataHalf<'p>,
        left: Vec<DataItem<'p>>,
    ) -> RecordParts<'p>
        requires one { AreOfOneSplit front control data_half }
        requires accepted { AreAccepted front (handled_by data_half ++ left.items) }
        ensures { IsOf result front data_half.entry left.entry.items }
    {
        let origin = Origin::of(&front, &data_half, &left);
        let FrontEnd {
            destination,
            lane,
            ..
        } = front;
        RecordParts {
            alloc,
            origin,
            destination,
            stage: Stage::Open(OpenHalves {
                lane,
                control: control.into_end(),
                data_half: data_half.into_rest(),
                left,
            }),
        }
    }

    /// Goes on where memory ran out.
    pub fn again<R: Wait>(self, rt: &R) -> Result<Finished<'p>, RecordParts<'p>>
        ensures finished { IfOk result (λ made. Finishes (start_in self.entry.origin) (commands_in self.entry.origin)
            (items_in_all self.entry.origin) (bound_for self.entry.origin) made) }
        ensures placed { IfOk result (λ made. places_in made.packets.items ≡ places_in_all self.entry.origin) }
        ensures met { IfOk result (λ made. LeftMeetAll self.entry.origin made.packets.items) }
        ensures parts { IfErr result (λ parts. parts.origin ≡ self.entry.origin) }
    {
        let RecordParts {
            alloc,
            origin,
            destination,
            stage,
        } = self;
        match closed(rt, alloc, &origin, stage) {
            Ok(mut closing) => match closing.work(alloc, &origin) {
                Ok(()) => Ok(closing.finished(&origin, destination)),
                Err(_) => Err(RecordParts {
                    alloc,
                    origin,
                    destination,
                    stage: Stage::Closing(closing),
                }),
            },
            Err(stage) => Err(RecordParts {
                alloc,
                origin,
                destination,
                stage,
            }),
        }
    }
}

/// Both lanes are closed. Out of memory, no lane is closed in part.
fn closed<'p, R: Wait>(
    rt: &R,
    alloc: Global,
    origin: &Origin<'p>,
    stage: Stage<'p>,
) -> Result<Closing<'p>, Stage<'p>>
    requires at { IsAt origin.now stage }
    ensures ok { IfOk result (λ closing. IsClosing origin.now closing) }
    ensures err { IfErr result (λ back. IsAt origin.now back) }
{
    match stage {
        Stage::Open(open) => match open.closed(rt, alloc, origin) {
            Ok(halfway) => closed_behind(rt, alloc, origin, halfway),
            Err(open) => Err(Stage::Open(open)),
        },
        Stage::Halfway(halfway) => closed_behind(rt, alloc, origin, halfway),
        Stage::Closing(closing) => Ok(closing),
    }
}

/// The lane of versions is closed behind that of commands.
fn closed_behind<'p, R: Wait>(
    rt: &R,
    alloc: Global,
    origin: &Origin<'p>,
    halfway: Halfway<'p>,
) -> Result<Closing<'p>, Stage<'p>>
    requires at { IsHalfway origin.now halfway }
    ensures ok { IfOk result (λ closing. IsClosing origin.now closing) }
    ensures err { IfErr result (λ back. IsAt origin.now back) }
{
    match halfway.closed(rt, alloc, origin) {
        Ok(closing) => Ok(closing),
        Err(halfway) => Err(Stage::Halfway(halfway)),
    }
}

impl<'p> OpenHalves<'p> {
    /// The lane of commands is closed. Out of memory, all is as before.
    fn closed<R: Wait>(
        self,
        rt: &R,
        alloc: Global,
        origin: &Origin<'p>,
    ) -> Result<Halfway<'p>, OpenHalves<'p>>
        requires at { IsOpen origin.now self }
        ensures ok { IfOk result (λ half. IsHalfway origin.now half) }
        ensures err { IfErr result (λ back. IsOpen origin.now back) }
    {
        let OpenHalves {
            lane,
            control,
            data_half,
            left,
        } = self;
        let ControlEnd {
            started,
            first,
            control: controller,
            head,
            due,
            batch,
            commands,
            versions,
        } = control;
        match close(rt, alloc, lane, commands) {
            Ok(rest) => Ok(Halfway {
                control: Commanded {
                    controller,
                    due,
                    kept: batch,
                    head,
                    rest,
                },
                versions,
                data_half,
                left,
            }),
            Err(ends) => Err(OpenHalves {
                lane: ends.tx,
                control: ControlEnd {
                    started,
                    first,
                    control: controller,
                    head,
                    due,
                    batch,
                    commands: ends.rx,
                    versions,
                },
                data_half,
                left,
            }),
        }
    }
}

impl<'p> Halfway<'p> {
    /// The lane of versions is closed too. Out of memory, all is as before.
    fn closed<R: Wait>(
        self,
        rt: &R,
        alloc: Global,
        origin: &Origin<'p>,
    ) -> Result<Closing<'p>, Halfway<'p>>
        requires at { IsHalfway origin.now self }
        ensures ok { IfOk result (λ closing. IsClosing origin.now closing) }
        ensures err { IfErr result (λ back. IsHalfway origin.now back) }
    {
        let Halfway {
            control,
            versions,
            data_half,
            left,
        } = self;
        let DataRest {
            state,
            batch,
            versions: learning,
        } = data_half;
        match close(rt, alloc, versions, learning) {
            Ok(batches) => Ok(Closing {
                control,
                applied: 0,
                state,
                taken: batch,
                batches,
                left,
                handled: 0,
            }),
            Err(ends) => Err(Halfway {
                control,
                versions: ends.tx,
                data_half: DataRest {
                    state,
                    batch,
                    versions: ends.rx,
                },
                left,
            }),
        }
    }
}
