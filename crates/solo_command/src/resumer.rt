//! A trace behind a saved state: the gateway that the state has, and the report that it tells.
ghost use Rattle.std.specs.Prelude.{◌≡◌, ◌+◌, false, []};
ghost use Rattle.solo_command.specs.Reports.{Gives, IsGatewayOf};
ghost use Rattle.trace_run.specs.Reporting.{SaysEpochs};
ghost use Rattle.solo_command.specs.Holding.{HasTold, gateway_of};
ghost use Rattle.solo_command.specs.Report.{slices};

use crate::Solo;
use crate::run::push_ending;
use record_codec::StateFile;
use std::alloc::{AllocError, Global};
use text_fields::Text;
use trace_lines::TraceLine;
use trace_run::{Ending, Reporter};

/// A gateway that goes on behind so many lines. Its report is the one that it gives by what its subscribers hold.
#[derive(Drop)]
pub struct Resumer {
    pub solo: Solo,
    pub lines: u64,
}

impl Resumer {
    /// The gateway that a state file has, behind the file's lines.
    pub fn behind(alloc: Global, file: StateFile) -> Resumer
        ensures begins { result.lines ≡ file.lines }
        ensures gateway { IsGatewayOf file (gateway_of result.solo) }

        // No line is answered, and nothing is told.
        ensures first { HasTold (gateway_of result.solo) result.solo 0 file.moment [] [] [] [] }
        ensures nothing { SaysEpochs (Gives slices (gateway_of result.solo)) false [] [] }
    {
        let lines = file.lines;
        Resumer {
            solo: Solo::behind(alloc, file),
            lines,
        }
    }
}

impl Reporter for Resumer {
    ghost use Rattle.std.specs.Prelude.{false, length, ◌+◌};
    ghost use Rattle.solo_command.specs.Reports.{Gives};
    ghost use Rattle.solo_command.specs.Holding.{HasTold, gateway_of};
    ghost use Rattle.solo_command.specs.Report.{slices};

    ghost may_have = { λ first. Gives slices (gateway_of first.solo) };

    ghost places = { λ first. false };

    ghost begins = { λ first. first.lines + 1 };

    ghost represents = { λ first now done latest. HasTold (gateway_of first.solo) now.solo (length done) latest };

    fn take(&mut self, line: &mut TraceLine, text: &mut Text) -> Result<(), AllocError> {
        self.solo.enter(line, text)?;
        Ok(())
    }

    fn close(&mut self, text: &mut Text) -> Result<(), AllocError> {
        self.solo.end_epoch(text)
    }

    fn finish(&mut self, ending: Ending, lines: u64, text: &mut Text) -> Result<(), AllocError> {
        push_ending(text, ending, lines + 1)?;
        self.solo.end_epoch(text)?;
        self.solo.push_opens(text)
    }
}
