//! A gateway over slices whose workers are turned by hand, and what it reports.
ghost use Rattle.std.specs.Prelude.{◌≡◌, OnOk, IfOk};
ghost use Rattle.front_core.specs.Closing.{Closes};
ghost use Rattle.front_core.specs.Filled.{told_by};
ghost use Rattle.front_core.specs.Words.{latest_in, opened_of, taken_by};
ghost use Rattle.check_fronts.specs.Benches.{HasWorkers, IsGateway};
ghost use Rattle.check_fronts.specs.Stands.{Stands};

use crate::entries::push_epoch;
use crate::stop::RowStop;
use crate::workers::{control_ends, data_ends, turn_control, turn_data};
use at_rest::AtRest;
use audit_core::{Audited, Setup, audit};
use front_core::{Ended, Front, Opened, close};
use pc_base::Moment;
use pc_outside::{SureSink, SureSource};
use std::alloc::{AllocError, Global};
use std::sync::Wait;
use text_fields::Text;
use trace_lines::{TraceLine, push_text};
use trace_run::push_opens;

// How many lines a trace may have.
const MOST_LINES: u64 = 1_000_000;

// What an audit finds is no longer.
const FINDING_LEN: usize = 16;

/// A gateway over slices in an epoch, whose packets lie in the lines that it took, and the report of the epochs before.
#[derive(Drop)]
pub struct Bench<'p> {
    alloc: Global,
    setup: Setup,
    patience: u32,
    opened: Opened<'p>,
    latest: Moment,
    report: Text,
}

/// The report of a trace, and what an audit writes of it.
#[derive(Drop)]
pub struct Told {
    report: Text,
    found: Text,
}

impl Told {
    /// Whether the report is a lawful run of its lines.
    pub fn is_lawful(&self) -> bool {
        self.found.as_slice() == b"yes\n".as_slice()
    }

    /// Appends both.
    pub fn push(&self, text: &mut Text) -> Result<(), RowStop> {
        text.extend_from_slice(self.report.as_slice())?;
        text.extend_from_slice(b"audit: ")?;
        text.extend_from_slice(self.found.as_slice())?;
        Ok(())
    }
}

impl<'p> Bench<'p> {
    /// A gateway with no subscriber, in its first epoch.
    pub fn new(alloc: Global, setup: Setup, patience: u32) -> Result<Bench<'p>, RowStop>
        requires { IsGateway setup }
        ensures { IfOk result Stands }
    {
        let rest = AtRest::new(alloc, setup.slices, setup.room, setup.lane);
        Ok(Bench {
            alloc,
            setup,
            patience,
            opened: Front::open(alloc, rest)?,
            latest: Moment(0),
            report: Text::new(alloc),
        })
    }

    /// Takes a line, as the next one.
    pub fn take<R: Wait>(&mut self, rt: &R, line: &'p TraceLine) -> Result<(), RowStop>
        requires { Stands self.old }
        ensures { OnOk result (Stands self.new) }
    {
        if self.opened.front.lines() > MOST_LINES {
            return Err(RowStop::Row);
        }
        let (moment, latest) = (line.moment, self.latest);
        if moment.0 < latest.0 {
            return Err(RowStop::Row);
        }
        let _took = self.opened.front.line(rt, line, self.patience, &[])?;
        self.latest = moment;
        Ok(())
    }

    /// A turn of a worker: of slice i those of the numbers 2 i and 2 i + 1.
    pub fn turn<R: Wait>(&mut self, rt: &R, worker: u8) -> Result<(), RowStop>
        requires { Stands self.old }
        ensures { Stands self.new }
    {
        let slice = usize::from(worker / 2);
        if worker.is_multiple_of(2) {
            turn_control(rt, &mut self.opened.controls, slice)
        } else {
            turn_data(rt, &mut self.opened.datas, slice)
        }
    }

    /// The epoch ends, and another begins.
    pub fn close<R: Wait>(self, rt: &R, places: bool) -> Result<Bench<'p>, RowStop>
        requires { Stands self }
        ensures { IfOk result Stands }
    {
        let Bench {
            alloc,
            setup,
            patience,
            opened,
            latest,
            mut report,
        } = self;
        let Ended { epoch, rest } = close_epoch(rt, alloc, opened)?;
        push_epoch(&mut report, &epoch, places)?;
        Ok(Bench {
            alloc,
            setup,
            patience,
            opened: Front::open(alloc, rest)?,
            latest,
            report,
        })
    }

    /// The last epoch ends: the whole report, of these lines.
    pub fn end<R: Wait>(self, rt: &R, lines: &[TraceLine], places: bool) -> Result<Told, RowStop>
        requires { Stands self }
    {
        let Bench {
            alloc,
            setup,
            patience: _,
            opened,
            latest: _,
            mut report,
        } = self;
        let Ended { epoch, rest } = close_epoch(rt, alloc, opened)?;
        push_epoch(&mut report, &epoch, places)?;
        push_opens(&mut report, rest.subscribers.as_slice())?;
        let found = found_of(alloc, &setup, lines, report.as_slice())?;
        Ok(Told { report, found })
    }
}

// The workers stop, and the epoch is closed.
fn close_epoch<'p, R: Wait>(
    rt: &R,
    alloc: Global,
    opened: Opened<'p>,
) -> Result<Ended<'p>, AllocError>
    requires { HasWorkers opened }
    ensures closes { IfOk result (λ ended. Closes (opened_of opened.entry.front) (taken_by opened.entry.front)
        ended.rest (told_by ended.epoch)) }
    ensures latest { IfOk result (λ ended. ended.rest.latest ≡ latest_in opened.entry.front) }
{
    let Opened {
        front,
        controls,
        datas,
    } = opened;
    let controls = control_ends(alloc, controls)?;
    let datas = data_ends(alloc, datas)?;
    close(rt, front, controls, datas)
}

// What an audit writes of a report.
fn found_of(
    alloc: Global,
    setup: &Setup,
    lines: &[TraceLine],
    report: &[u8],
) -> Result<Text, RowStop>
    requires { IsGateway setup.now }
{
    let mut input = Text::new(alloc);
    for line in lines {
        push_text(&mut input, line)?;
        input.push(b'\n')?;
    }
    input.extend_from_slice(b"REPORT\n")?;
    input.extend_from_slice(report)?;
    let mut source = SureSource::new(input.into_octets())?;
    let mut sink = SureSink::new(alloc, FINDING_LEN)?;
    match audit(alloc, setup, false, &mut source, &mut sink) {
        Audited::Confirmed | Audited::Refuted => (),
        Audited::NoMemory => return Err(RowStop::NoMemory),
        Audited::ReadFault | Audited::WriteFault => return Err(RowStop::Row),
        Audited::LineLong | Audited::TooLong => return Err(RowStop::Row),
    }
    let mut found = Text::new(alloc);
    found.extend_from_slice(sink.written())?;
    Ok(found)
}
