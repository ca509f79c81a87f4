//! The command `solo`: the sequential gateway, and the report that it tells.
ghost use Rattle.std.specs.Prelude.{◌≡◌, ◌≤◌, ◌++◌, false, OnOk};
ghost use Rattle.pc_outside.specs.Faults.{Rises};
ghost use Rattle.trace_run.specs.Report.{Runs};
ghost use Rattle.solo_command.specs.Progress.{ending_text};
ghost use Rattle.solo_command.specs.Report.{IsSoloReport};

use crate::solo::Solo;
use pc_outside::{Sink, Source};
use std::alloc::{AllocError, Global};
use text_fields::Text;
use trace_lines::TraceLine;
use trace_run::{Ending, Reporter, Status, push_bad, run_report};

impl Reporter for Solo {
    ghost use Rattle.std.specs.Prelude.{false};
    ghost use Rattle.solo_command.specs.Progress.{HasAnswered};
    ghost use Rattle.solo_command.specs.Report.{IsSoloReport};

    ghost may_have = { λ first. IsSoloReport };

    ghost places = { λ first. false };

    ghost begins = { λ first. 1 };

    ghost represents = { λ first now. HasAnswered now };

    fn take(&mut self, line: &mut TraceLine, text: &mut Text) -> Result<(), AllocError> {
        self.enter(line, text)?;
        Ok(())
    }

    fn close(&mut self, text: &mut Text) -> Result<(), AllocError> {
        self.end_epoch(text)
    }

    fn finish(&mut self, ending: Ending, lines: u64, text: &mut Text) -> Result<(), AllocError> {
        push_ending(text, ending, lines + 1)?;
        self.end_epoch(text)?;
        self.push_opens(text)
    }
}

/// Appends the entry of a bad line, where one of this number ended the lines.
pub(crate) fn push_ending(text: &mut Text, ending: Ending, number: u64) -> Result<(), AllocError>
    ensures { OnOk result (text.new ≡ text.old ++ ending_text number ending) }
{
    match ending {
        Ending::BadLine(why) => push_bad(text, number, why),
        Ending::Ended | Ending::ReadFault | Ending::LineLong | Ending::TooLong => Ok(()),
    }
}

/// Does the command `solo`: reads a trace and writes its report, epoch by epoch.
pub fn run_solo<S: Source, K: Sink>(alloc: Global, source: &mut S, sink: &mut K) -> Status
    ensures runs { Runs IsSoloReport false result (Rises (S.faults source.old) (S.faults source.new))
        (S.left source.old) (S.left source.new)
        (K.written sink.old) (K.written sink.new) }
    ensures no_usage { result ≡ Status.Usage → ⊥ }

    ensures source_later { S.faults source.old ≤ S.faults source.new }
    ensures sink_later { K.faults sink.old ≤ K.faults sink.new }
    ensures read_fault { result ≡ Status.ReadFault
        → Rises (S.faults source.old) (S.faults source.new) }
    ensures write_fault { result ≡ Status.WriteFault
        → Rises (K.faults sink.old) (K.faults sink.new) }
{
    run_report(alloc, source, sink, Solo::new(alloc))
}
