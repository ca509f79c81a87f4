//! Laws of the lawful run.
ghost use Rattle.std.specs.Prelude.{◌≡◌, ℕ, ◌+◌, ◌≤◌, All, List, [], ◌∷◌, ◌++◌, length, flat_map, false};
ghost use Rattle.demux.specs.Ranges.{IsInRange};
ghost use Rattle.demux.specs.Trace.{Meaning};
ghost use Rattle.gate_model.specs.declared.event.Event.{Event};
ghost use Rattle.lawful_run.specs.AnsweredRun.{answered_run, answered_from, answered_epoch, behind_epochs};
ghost use Rattle.lawful_run.specs.AnsweredRun.{behind_lines};
ghost use Rattle.lawful_run.specs.AnsweredRun.{entries_from, entry_after, events_after, with_line, brought, brings};
ghost use Rattle.lawful_run.specs.InSequence.{AnswersInSequence};
ghost use Rattle.lawful_run.specs.Setup.{Setup, solo};
ghost use Rattle.lawful_run.specs.Ledger.{ReportsArePartitions, EachOctetCharged, EachPacketCharged};
ghost use Rattle.lawful_run.specs.Merging.{Histories};
ghost use Rattle.lawful_run.specs.Noted.{NoteIsLawful};
ghost use Rattle.lawful_run.specs.Outcomes.{opens};
ghost use Rattle.lawful_run.specs.Placing.{EventsStandAsTold};
ghost use Rattle.lawful_run.specs.Report.{Report, report_text};
ghost use Rattle.lawful_run.specs.Run.{IsRun, by_slot};
ghost use Rattle.lawful_run.specs.Trace.{IsReport, answered_report, epochs_told};
ghost use Rattle.trace_lines.specs.Input.{Input, input_of};
ghost use Rattle.trace_lines.specs.Line.{IsLine};

/// Every trace has a sequential lawful run, whatever the setup.
pub fn every_trace_has_a_run()
    ensures lawful { (setup : Setup) (slots : ℕ) (made : List (List Meaning))
        → IsRun setup slots made (answered_run slots made) }
    ensures in_sequence { (slots : ℕ) (made : List (List Meaning)) → AnswersInSequence made (answered_run slots made) }

    // So has each input, whatever its octets say and wherever it stops.
    ensures report { (setup : Setup) (input : Input) → IsReport setup input (answered_report setup input) }
{}

/// What the lines of an input mean is in its ranges, and so is the note on the line that it may stop at.
pub fn told_lines_are_in_range()
    ensures lines { (slices : ℕ) (input : Input) → All IsLine input.lines
        → All (All IsInRange) (epochs_told slices input) }

    // So it is whatever the octets of an input say.
    ensures octets { (slices : ℕ) (octets : List ℕ) → All (All IsInRange) (epochs_told slices (input_of octets)) }
{}

/// Where a line can't be read, its note stands behind the lines of its epoch. It changes nothing else that is told.
pub fn a_note_is_lawful()
    ensures { NoteIsLawful }
{}

/// No other lawful run is sequential, whatever the setup.
pub fn one_run_answers_in_sequence()
    ensures { (setup : Setup) (slots : ℕ) (made : List (List Meaning)) (report : Report)
        → IsRun setup slots made report → AnswersInSequence made report → report ≡ answered_run slots made }
{}

/// With places left out, one thread has one report.
pub fn one_text_of_one_thread()
    ensures { (slots : ℕ) (made : List (List Meaning)) (report : Report)
        → IsRun solo slots made report → report_text false report ≡ report_text false (answered_run slots made) }
{}

/// The sequential run grows line by line, and epoch by epoch.
pub fn runs_grow()
    // A line adds its entry, and what it brings to each slot.
    ensures entries { (n : ℕ) (before : Histories) (made : List Meaning) (now : Meaning)
        → entries_from n before (made ++ now ∷ [])
        ≡ entries_from n before made ++ entry_after (n + length made) (behind_lines before made) now ∷ [] }
    ensures events { (slot : ℕ) (events : List Event) (made : List Meaning) (now : Meaning)
        → events_after slot events (made ++ now ∷ []) ≡ with_line slot (events_after slot events made) now }
    ensures brought { (slot : ℕ) (events : List Event) (made : List Meaning) (now : Meaning)
        → brought slot events (made ++ now ∷ [])
        ≡ brought slot events made ++ brings slot (events_after slot events made) now }
    ensures behind { (slot : ℕ) (events : List Event) (made : List Meaning)
        → events ++ brought slot events made ≡ events_after slot events made }

    // An epoch adds itself.
    ensures epochs { (slots first : ℕ) (before : Histories) (epochs : List (List Meaning)) (made : List Meaning)
        → answered_from slots first before (epochs ++ made ∷ [])
        ≡ answered_from slots first before epochs
        ++ answered_epoch slots (first + length (flat_map (λ (lines : List Meaning). lines) epochs))
        (behind_epochs before epochs) made ∷ [] }
    ensures all { (before : Histories) (epochs : List (List Meaning)) (made : List Meaning)
        → behind_epochs before (epochs ++ made ∷ []) ≡ behind_lines (behind_epochs before epochs) made }

    // Slots without events add nothing.
    ensures slots { (slots more first : ℕ) (before : Histories) (made : List Meaning)
        → ((slot : ℕ) → slots ≤ slot → before slot ≡ [])
        → ((slot : ℕ) → slots ≤ slot → brought slot (before slot) made ≡ [])
        → answered_epoch (slots + more) first before made ≡ answered_epoch slots first before made }
    ensures opens { (slots more : ℕ) (events : Histories) → ((slot : ℕ) → slots ≤ slot → events slot ≡ [])
        → by_slot (slots + more) (λ slot. opens slot (events slot)) ≡ by_slot slots (λ slot. opens slot (events slot)) }
{}

/// In every lawful run the events of a slot stand in the order that its packets' counts tell: its accepted
/// commands and packets, each in line order, and before each packet just as many commands as it tells.
pub fn events_stand_as_told()
    ensures { EventsStandAsTold }
{}

/// Billing is exact in every lawful run: the pieces that the charging records and the open counters of a
/// bearer's life tell have just the packets that verdicts and fates forward for it, each in one piece. So
/// they have its octets and its packets, each way.
pub fn each_packet_is_charged()
    ensures pieces { ReportsArePartitions }
    ensures octets { EachOctetCharged }
    ensures packets { EachPacketCharged }
{}
