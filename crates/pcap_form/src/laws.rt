//! What an export writes, an import gives back.
ghost use Rattle.std.specs.Prelude.{ℕ, List};
ghost use Rattle.trace_lines.specs.Line.{Line};
ghost use Rattle.pcap_form.specs.Law.{ComesBack, InOrder, TraceComesBack};

/// The capture of lines is whole, and gives back those that were kept, with the first kept moment
/// taken off each.
pub fn kept_lines_come_back()
    ensures { (lines : List Line) → InOrder 0 lines → ComesBack lines }
{}

/// So it is of every trace whose capture is shorter than 2^40 octets.
pub fn traces_come_back()
    ensures { (octets : List ℕ) → TraceComesBack octets }
{}
