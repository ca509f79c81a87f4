//! The report of one thread.
ghost use Rattle.report_laws.specs.Sequential.{EveryInputHasAReport};

/// Whatever octets a trace has, one thread may give a report of it, that of the sequential run: so the contract of
/// `solo` can be met on each input, with all that it says of a report.
pub fn every_input_has_a_report()
    ensures { EveryInputHasAReport }
{}
