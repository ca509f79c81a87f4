//! Which entries a trace may have: the lawful run, of the sequential gateway and of slices that share the work. How
//! an epoch is joined from what was made of each slot: entries that were left open for commands and packets, and
//! filled in the end (`epoch_laws`). And that what the events of a slot lead to is in range, where their own
//! numbers are: its session and its bearers, the packets that it holds, what its charging book heard, and the
//! answer that it keeps (`range_laws`).
#![tactic(auto)]

mod epoch_laws;
mod laws;
mod range_laws;

pub use epoch_laws::pieces_are_an_epoch;
pub use laws::{
    a_note_is_lawful, each_packet_is_charged, events_stand_as_told, every_trace_has_a_run,
    one_run_answers_in_sequence, one_text_of_one_thread, runs_grow, told_lines_are_in_range,
};
pub use range_laws::{
    answers_are_short, events_charge_few, events_lead_in_range, held_packets_came, lines_ask_once,
    open_pieces_are_in_range,
};
