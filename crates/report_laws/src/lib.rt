//! Laws of the reports of lawful runs: what may be left out of them, what an audit finds of those of the program's
//! own commands, what they tell of packets that wait, that each entry has octets and is in the ranges of a report,
//! and that a trace which is cut, saved and resumed has the report of the whole. And laws of subscribers who share
//! nothing: what a report tells of some slots is the same whatever other slots are sent, and what the reports of a
//! trace's parts tell of their own slots is all that the whole report tells.
#![tactic(auto)]

mod confirming;
mod neighbours;
mod parts;
mod resuming;
mod sequential;
mod shown;
mod single;
mod solo;
mod told;

pub use confirming::{each_report_is_lawful, own_report_is_confirmed, own_run_is_confirmed};
pub use neighbours::{neighbours_change_nothing, others_may_be_replaced};
pub use parts::parts_tell_all;
pub use resuming::cut_runs_go_on;
pub use sequential::every_input_has_a_report;
pub use shown::{one_thread_is_lawful_on_slices, places_may_be_left_out};
pub use single::{one_resumed_report, one_saved_text};
pub use solo::solo_reports_share_nothing;
pub use told::{entries_are_in_range, held_packets_have_one_fate, told_have_octets};
