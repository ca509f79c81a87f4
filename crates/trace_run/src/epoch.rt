//! How large the open epoch is.
ghost use Rattle.std.specs.Prelude.{◌≡◌, ◌+◌, ◌<◌, ◌^◌, ◌∷◌, ◌++◌, [], List, length, if◌then◌else◌};
ghost use Rattle.trace_lines.specs.Epochs.{ends_epoch, octets_in};
ghost use Rattle.trace_lines.specs.Line.{Line};
ghost use Rattle.trace_lines.specs.Text.{line_text};
ghost use Rattle.trace_run.specs.Cut.{Counts};

use trace_lines::{TraceLine, ends_epoch};

/// The number of the open epoch's first line, and how many octets its lines have.
#[derive(Clone, Copy)]
pub struct Size {
    first: u64,
    octets: u64,
}

impl Size {
    /// An epoch before its first line, which has this number.
    pub fn at(first: u64) -> Size
        ensures { Counts result first [] }
    {
        Size { first, octets: 0 }
    }

    /// Takes the next line, with a text of this length, into the epoch: whether it is the epoch's last one. The
    /// line behind it then begins an epoch.
    pub fn take(&mut self, line: &TraceLine, len: u64) -> bool
        requires length { len ≡ length (line_text line.now) }
        requires counted { (before : List Line) × Counts self.old line.now.number before
            × (line.now.number < 2 ^ 60) × (octets_in before < 2 ^ 60) }
        requires short_line { len < 2 ^ 60 }

        ensures ends { (before : List Line) → Counts self.old line.now.number before
            → result ≡ ends_epoch before line.now }
        ensures counts { (before : List Line) → Counts self.old line.now.number before
            → Counts self.new (line.now.number + 1)
            (if ends_epoch before line.now then [] else before ++ line.now ∷ []) }
    {
        let ends = ends_epoch(line, len, line.number - self.first, self.octets);
        if ends {
            self.first = line.number + 1;
            self.octets = 0;
        } else {
            self.octets += len;
        }
        ends
    }
}
