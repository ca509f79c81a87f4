//! Laws of the definitions, each the contract of a function that does nothing.
ghost use Rattle.std.specs.Prelude.{◌≡◌, ◌<◌, ℕ, Bool, List, false};
ghost use Rattle.command_words.specs.declared.jobs.Lanes.{Lanes};
ghost use Rattle.trace_lines.specs.Input.{Input};
ghost use Rattle.lawful_run.specs.Ledger.{IsPartition};
ghost use Rattle.lawful_run.specs.Trace.{IsReport, slots_of};
ghost use Rattle.pepc.specs.Replay.{setup_asked};
ghost use Rattle.solo_command.specs.Report.{IsSoloReport};
ghost use Rattle.trace_run.specs.Report.{IsText};

/// The report is one function of the lines and of why they stop: no two texts are reports of the
/// same.
pub fn one_report()
    ensures { (input : Input) (text other : List ℕ) → IsText IsSoloReport false input text
        → IsText IsSoloReport false input other
        → text ≡ other }
{}

/// The exact ledger of what is written: of each bearer's life the charging records and the open
/// counter tell pieces that have just the packets that entries tell as forwarded for it, each in one
/// piece, once: on one thread, and over slices in threads for every schedule.
pub fn each_packet_is_charged()
    ensures sequential { (input : Input) (text : List ℕ) (written : IsText IsSoloReport false input text)
        (slot life : ℕ) → slot < slots_of input → IsPartition slot life written.report }
    ensures replayed { (lanes : Lanes) (places : Bool) (input : Input) (text : List ℕ)
        (written : IsText (IsReport (setup_asked lanes)) places input text) (slot life : ℕ)
        → slot < slots_of input → IsPartition slot life written.report }
{}
