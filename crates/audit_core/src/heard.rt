//! The lines of an input, as they are heard one by one.

use crate::setup::BadAt;
use pc_base::Moment;
use report_lines::Entry;
use std::alloc::{AllocError, Global};
use trace_lines::{LineBad, TraceLine};

// The line between a trace and its report.
const MARKER: &[u8] = b"REPORT";

/// What was heard of a trace, and of the report behind it.
#[derive(Drop)]
pub struct Heard {
    pub lines: Vec<TraceLine>,
    /// The line at which the trace stops.
    pub bad: Option<BadAt>,
    pub entries: Vec<Entry>,
    /// Whether a line of the report is no entry. Then no more entries are kept.
    pub outside: bool,
    in_report: bool,
    least: Moment,
}

impl Heard {
    ghost use Rattle.std.specs.Prelude.{◌≡◌, ◌+◌, ◌<◌, ◌≤◌, ◌^◌, ◌++◌, ◌∷◌, []};
    ghost use Rattle.std.specs.Prelude.{List, vec_len, length, bytes_eq, Some, Err, OnOk, true, false};
    ghost use Rattle.trace_lines.specs.declared.bad.LineBad.TheVariants.{NoMemory};
    ghost use Rattle.audit_core.specs.Heard.{HasHeard, StopsAt};
    ghost use Rattle.audit_core.specs.Said.{marker};
    ghost use Rattle.pc_outside.specs.Texts.{Text};

    /// Nothing was heard yet.
    pub fn new(alloc: Global) -> Heard
        ensures nothing { HasHeard result [] }
        ensures none { vec_len result.lines ≡ 0 }
    {
        Heard {
            lines: Vec::new(alloc),
            bad: None,
            entries: Vec::new(alloc),
            outside: false,
            in_report: false,
            least: Moment(0),
        }
    }

    // Hears the next line of the input.
    pub(crate) fn take(&mut self, alloc: Global, text: &[u8]) -> Result<(), AllocError>
        requires few { vec_len self.old.lines < 2 ^ 40 }
        ensures heard { (texts : List Text) → HasHeard self.old texts
            → OnOk result (HasHeard self.new (texts ++ text.now ∷ [])) }
        ensures lines { vec_len self.new.lines + vec_len self.new.lines
            ≤ vec_len self.old.lines + vec_len self.old.lines + length text.now + 1 }
    {
        if self.in_report {
            self.take_entry(alloc, text)
        } else if text == MARKER {
            self.in_report = true;
            Ok(())
        } else {
            self.take_line(alloc, text)
        }
    }

    // Hears a line of the report.
    fn take_entry(&mut self, alloc: Global, text: &[u8]) -> Result<(), AllocError>
        requires open { self.old.in_report ≡ true }
        ensures heard { (texts : List Text) → HasHeard self.old texts
            → OnOk result (HasHeard self.new (texts ++ text.now ∷ [])) }
        ensures lines { self.new.lines ≡ self.old.lines }
    {
        if self.outside {
            return Ok(());
        }
        match report_lines::read(alloc, text)? {
            Some(entry) => self.entries.push(entry)?,
            None => self.outside = true,
        }
        Ok(())
    }

    // Hears a line of the trace.
    fn take_line(&mut self, alloc: Global, text: &[u8]) -> Result<(), AllocError>
        requires few { vec_len self.old.lines < 2 ^ 40 }
        requires unopened { self.old.in_report ≡ false }
        requires other { bytes_eq text.now marker ≡ false }
        ensures heard { (texts : List Text) → HasHeard self.old texts
            → OnOk result (HasHeard self.new (texts ++ text.now ∷ [])) }
        ensures lines { vec_len self.new.lines + vec_len self.new.lines
            ≤ vec_len self.old.lines + vec_len self.old.lines + length text.now + 1 }
    {
        if self.bad.is_some() {
            return Ok(());
        }
        let number = self.lines.len() as u64 + 1;
        match trace_lines::read_line(alloc, text, number, self.least) {
            Ok(line) => {
                self.least = line.moment;
                self.lines.push(line)?;
                Ok(())
            }
            Err(why) => self.stop(number, why),
        }
    }

    // The trace stops at a line that is refused, unless memory ran out.
    fn stop(&mut self, number: u64, why: LineBad) -> Result<(), AllocError>
        ensures stopped { OnOk result (StopsAt self.old self.new (record { number = number; why = why })) }
        ensures other { OnOk result (why ≡ NoMemory → ⊥) }
        ensures lines { self.new.lines ≡ self.old.lines }
    {
        match why {
            LineBad::NoMemory => Err(AllocError),
            LineBad::Field | LineBad::Number | LineBad::Kind | LineBad::Hex | LineBad::MomentBack =>
                {
                    self.bad = Some(BadAt { number, why });
                    Ok(())
                }
        }
    }
}
