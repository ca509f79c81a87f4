//! What a generated trace is as a trace.
ghost use Rattle.std.specs.Prelude.{◌≡◌, ℕ, ◌+◌, ◌≤◌, length};
ghost use Rattle.trace_lines.specs.Input.{ended, input_of};
ghost use Rattle.trace_maker.specs.Generated.{made, text_of};
ghost use Rattle.trace_maker.specs.Numbering.{AreInOrder};

/// The text of a generated trace says its lines: none is refused, and the trace stops at its end.
pub fn a_made_trace_is_read()
    ensures { (seed subscribers lines : ℕ) → 1 ≤ subscribers → subscribers ≤ 65533 → lines ≤ 100000
        → input_of (text_of (made seed subscribers lines))
        ≡ record { lines = made seed subscribers lines; stop = ended } }
{}

/// There are as many lines as subscribers and drawn lines, numbered from 1, their moments in order.
pub fn made_lines_stand_in_order()
    ensures many { (seed subscribers lines : ℕ) → length (made seed subscribers lines) ≡ subscribers + lines }
    ensures in_order { (seed subscribers lines : ℕ) → 1 ≤ subscribers → subscribers ≤ 65533
        → lines ≤ 100000 → AreInOrder 1 0 (made seed subscribers lines) }
{}
