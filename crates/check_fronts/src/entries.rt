//! The lines of an epoch's report.
use front_core::FrontEpoch;
use replay_command::push_entries;
use std::alloc::AllocError;
use text_fields::Text;
use trace_run::{push_effects, push_records};

/// Appends the entries of an epoch, with or without the places of its packets.
pub fn push_epoch(text: &mut Text, epoch: &FrontEpoch<'_>, places: bool) -> Result<(), AllocError> {
    push_entries(text, epoch.lines.as_slice(), places)?;
    push_effects(text, epoch.effects.as_slice())?;
    push_records(text, epoch.rows.as_slice())
}
