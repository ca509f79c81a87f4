//! Laws.
ghost use Rattle.audit_core.specs.Why.{BreaksAreBroken, OneBreakOfCharges};

/// A sentence that has a break is broken, whatever gateway the report is held against.
pub fn breaks_are_broken()
    ensures { BreaksAreBroken }
{}

/// What is told of effects, charging records and open counters that aren't as they are made is one place, the first.
pub fn one_break_of_charges()
    ensures { OneBreakOfCharges }
{}
