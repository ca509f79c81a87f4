//! What the report of a made trace counts: each line is answered as it is made, and each epoch's text
//! is counted when it is whole.
ghost use Rattle.std.specs.Prelude.{◌≤◌, ◌∷◌, ◌++◌, [], ℕ, List, length, IfOk, OnOk};
ghost use Rattle.pc_outside.specs.Limits.{line_max};
ghost use Rattle.trace_lines.specs.Line.{Line};
ghost use Rattle.trace_lines.specs.Text.{line_text};
ghost use Rattle.trace_maker.specs.Generated.{made};
ghost use Rattle.trace_run.specs.Takers.{IsNextOf};
ghost use Rattle.pepc.specs.Counting.{CountedSoFar};
ghost use Rattle.pepc.specs.Make.{IsCounted};

use report_lines::EntryCounts;
use solo_command::Solo;
use std::alloc::{AllocError, Global};
use text_fields::Text;
use trace_lines::{TraceLine, push_text};
use trace_maker::{Maker, made_line};
use trace_run::{Ending, Epochs};

/// Counts the report of the trace of this seed, so many subscribers and so many lines.
pub fn counted(alloc: Global, seed: u64, subs: u32, lines: u32) -> Result<EntryCounts, AllocError>
    requires some { 1 ≤ subs }
    requires slots { subs ≤ 65533 }
    requires most { lines ≤ 100000 }

    ensures { IfOk result (λ counts. IsCounted (made seed subs lines) counts) }
{
    let mut maker = Maker::new(seed, subs, lines);
    let mut epochs = Epochs::new(alloc, Solo::new(alloc));
    let mut text = Text::new(alloc);
    let mut counts = EntryCounts::new();
    while let Some(mut line) = made_line(alloc, &mut maker)? {
        count_line(&mut epochs, &mut line, &mut text, &mut counts)?;
    }
    epochs.finish(Ending::Ended, u64::from(subs) + u64::from(lines))?;
    counts.add(epochs.text.as_slice());
    Ok(counts)
}

// Answers a line. An epoch that it ends is counted; the text of the line is used for its length alone.
fn count_line(
    epochs: &mut Epochs<Solo>,
    line: &mut TraceLine,
    text: &mut Text,
    counts: &mut EntryCounts,
) -> Result<(), AllocError>
    requires next { (done : List Line) × (latest : ℕ) × CountedSoFar epochs.old.reporter epochs.old.size
        epochs.old.text counts.old done latest × IsNextOf done latest line.old }
    requires short { length (line_text line.old) ≤ line_max }

    ensures { (done : List Line) (latest : ℕ)
        → CountedSoFar epochs.old.reporter epochs.old.size epochs.old.text counts.old done latest
        → IsNextOf done latest line.old
        → OnOk result (CountedSoFar epochs.new.reporter epochs.new.size epochs.new.text counts.new
        (done ++ line.old ∷ []) line.old.moment) }
{
    text.clear();
    push_text(text, line)?;
    let len = text.as_slice().len();
    if !epochs.answer(line, len)? {
        return Ok(());
    }
    counts.add(epochs.text.as_slice());
    epochs.text.clear();
    Ok(())
}
