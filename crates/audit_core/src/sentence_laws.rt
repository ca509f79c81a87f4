//! Laws of the sentences.
ghost use Rattle.audit_core.specs.Lawful.{SentencesAreTheRun, TracesHaveLines};
ghost use Rattle.audit_core.specs.Together.{NumbersAreOfSlots, CountsAreOfSlots, InSequenceIsOfSlots};
ghost use Rattle.audit_core.specs.Together.{ParkingIsOfSlots};

/// All six sentences hold of entries exactly where these are those of a lawful run, in a trace each epoch of which has
/// a line.
pub fn sentences_are_the_run()
    ensures sentences { SentencesAreTheRun }

    // So has each epoch of each input, whatever its octets say and wherever it stops.
    ensures lines { TracesHaveLines }
{}

/// What the lawful run says of the lines of an epoch is what these sentences say of each slot.
pub fn sentences_of_slots()
    ensures numbers { NumbersAreOfSlots }
    ensures counts { CountsAreOfSlots }
    ensures in_sequence { InSequenceIsOfSlots }
    ensures parking { ParkingIsOfSlots }
{}
