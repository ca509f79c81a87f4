//! Parts of a trace.
ghost use Rattle.report_laws.specs.Parts.{PartsAreAlike, PartsTellAll};

/// Each slot is for one of some parts. A part has each line of the trace, or in the place of one that admits no one and
/// is for another part a line that is noted. What the parts' reports tell of their own slots, and part 0 of nobody's
/// lines, is all that the whole report tells, each once: line by line, in lockstep, and slot by slot.
pub fn parts_tell_all()
    ensures all { PartsTellAll }

    // So the whole trace and a part are alike to the part's slots.
    ensures alike { PartsAreAlike }
{}
