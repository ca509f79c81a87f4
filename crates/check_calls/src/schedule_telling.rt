//! The text of a schedule: a letter a line (`t` taken, `p` parked, `f` refused), by slot what each packet met and
//! where, and the generator's state.
use epoch_schedule::{LineOutcome, Met, Scheduled, Turns};
use pc_base::Place;
use std::alloc::AllocError;
use text_fields::Text;

fn letter(outcome: LineOutcome) -> u8 {
    if !outcome.taken {
        b'f'
    } else if outcome.parked {
        b'p'
    } else {
        b't'
    }
}

fn push_met(text: &mut Text, met: &Met) -> Result<(), AllocError> {
    text.push_number(met.commands as u64)?;
    match met.place {
        Place::At(slice) => {
            text.push(b'@')?;
            push_digits(text, u64::from(slice.0))
        }
        Place::Closing => text.extend_from_slice(b"@-"),
    }
}

// A number below 100.
fn push_digits(text: &mut Text, number: u64) -> Result<(), AllocError> {
    if number >= 10 {
        text.push(b'0' + (number / 10 % 10) as u8)?;
    }
    text.push(b'0' + (number % 10) as u8)?;
    Ok(())
}

fn push_slot(text: &mut Text, slot: u32, scheduled: &Scheduled<'_>) -> Result<(), AllocError> {
    text.extend_from_slice(b" |")?;
    text.push_number(u64::from(slot))?;
    for number in 0..scheduled.met_count(slot) {
        push_met(text, &scheduled.met(slot, number))?;
    }
    Ok(())
}

/// The text of a schedule of the slots below this one.
pub fn push_schedule(
    text: &mut Text,
    scheduled: &Scheduled<'_>,
    slots: u32,
    turns: &Turns,
) -> Result<(), AllocError> {
    for outcome in scheduled.outcomes() {
        text.push(letter(*outcome))?;
    }
    for slot in 0..slots {
        if scheduled.met_count(slot) > 0 {
            push_slot(text, slot, scheduled)?;
        }
    }
    if let Turns::Drawn { state, .. } = turns {
        text.extend_from_slice(b" ;")?;
        text.push_number(*state)?;
    }
    Ok(())
}
