//! The line of a summary.
ghost use Rattle.std.specs.Prelude.{◌≡◌, ◌++◌, decimal, OnOk};
ghost use Rattle.report_lines.specs.Summary.{summary_text};

use crate::EntryCounts;
use std::alloc::AllocError;

/// Appends the summary of a trace of so many lines, whose report counts this.
pub fn push_summary(text: &mut Vec<u8>, lines: u64, counts: &EntryCounts) -> Result<(), AllocError>
    ensures { OnOk result (text.new.items ≡ text.old.items ++ summary_text lines counts.now) }
{
    push_count(text, b"lines=", lines)?;
    push_count(text, b" N=", counts.notes)?;
    push_count(text, b" C=", counts.commands)?;
    push_count(text, b" P=", counts.packets)?;
    push_count(text, b" F=", counts.refusals)?;
    push_count(text, b" R=", counts.records)?;
    push_count(text, b" O=", counts.opens)?;
    push_count(text, b" up=", counts.up)?;
    push_count(text, b" down=", counts.down)?;
    text.push(b'\n')?;
    Ok(())
}

fn push_count(text: &mut Vec<u8>, name: &[u8], count: u64) -> Result<(), AllocError>
    ensures { OnOk result (text.new.items ≡ text.old.items ++ (name.now ++ decimal count)) }
{
    let mut buffer = itoa::Buffer::new();
    text.extend_from_slice(name)?;
    text.extend_from_slice(buffer.format(count).as_bytes())?;
    Ok(())
}
