//! A text and the lines that it means; the runs of lines that epochs are.
ghost use Rattle.std.specs.Prelude.{◌≡◌, ℕ, ◌≤◌, All, Ok, List};
ghost use Rattle.std.specs.Result.{result_err};
ghost use Rattle.trace_lines.specs.Input.{input_of};
ghost use Rattle.trace_lines.specs.Line.{Line, IsLine};
ghost use Rattle.trace_lines.specs.Text.{Means, line_text};
ghost use Rattle.trace_lines.specs.Meaning.{line_meaning, not_before};
ghost use Rattle.trace_lines.specs.Refusal.{first_fault};
ghost use Rattle.trace_lines.specs.Epochs.{epochs_of, AreEpochs};

/// A text means a line exactly where it is the line's text, up to the case of hexadecimal digits.
pub fn lines_mean_their_texts()
    // The text of a line means it, and no other line but for the number.
    ensures text { (line : Line) → IsLine line → Means (line_text line) line }
    ensures one { (text : List ℕ) (line other : Line) → Means text line → Means text other → line.number ≡ other.number
        → line ≡ other }

    // What is read going along the fields is what is meant.
    ensures read { (least : ℕ) (text : List ℕ) (line : Line) → Means text line → least ≤ line.moment
        → line_meaning least line.number text ≡ Ok line }
    ensures only { (least number : ℕ) (text : List ℕ) (line : Line) → line_meaning least number text ≡ Ok line
        → Means text line × (line.number ≡ number) × (least ≤ line.moment) }

    // What isn't read is refused for the first fault.
    ensures fault { (least number : ℕ) (text : List ℕ)
        → result_err (line_meaning least number text) ≡ first_fault least text }
{}

/// The lines of an input are lines of a trace, each number in its range.
pub fn inputs_have_lines()
    ensures { (octets : List ℕ) → All IsLine (input_of octets).lines }
{}

/// Epochs are the lines in their order, cut just behind each line that ends one.
pub fn epochs_are_runs()
    ensures { (lines : List Line) → AreEpochs lines (epochs_of lines) }
{}

/// What a line means under a least moment is what it means alone, or a moment back where its moment is
/// below: so lines can be read apart from each other, and their moments compared afterwards.
pub fn lines_mean_alone()
    ensures { (least number : ℕ) (text : List ℕ)
        → line_meaning least number text ≡ not_before least (line_meaning 0 number text) }
{}
