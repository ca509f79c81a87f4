//! What a subscriber's halves come to, where its commands and packets are those of an epoch's lines.
ghost use Rattle.split_record.specs.Joined.{EventsAreOfLines, CountsAreTold};

/// The events that finished halves tell are the epoch's events of their slot: the packets of the lines, numbered on, at
/// the counts of commands that the halves noted; and those of the lawful run, where the lines tell these counts.
pub fn events_are_of_lines()
    ensures events { EventsAreOfLines }
    ensures told { CountsAreTold }
{}
