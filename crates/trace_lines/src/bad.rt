ghost use Rattle.std.specs.Prelude.{◌≡◌, Some};
ghost use Rattle.trace_lines.specs.Word.{word_of};
ghost use Rattle.trace_lines.specs.declared.bad.LineBad.TheVariants.{NoMemory};

use std::alloc::AllocError;
use std::fmt;

/// Why a line is refused, in the order of looking; and out of memory, which comes at no fixed place. It prints as
/// its word.
#[derive(Clone, Copy, Debug, Drop, PartialEq, Eq)]
pub enum LineBad {
    /// Fewer than two fields, an empty field, or a wrong number of fields for the kind.
    Field,
    /// A moment, a number, an IMSI, an address or a TEID that is none.
    Number,
    /// A kind that isn't known.
    Kind,
    /// Octets that aren't an even number of hexadecimal digits, at least two.
    Hex,
    /// A moment below the least that is allowed.
    MomentBack,
    /// Memory ran out: the line may be good.
    NoMemory,
}

impl LineBad {
    /// The word for the refusal in a report.
    pub fn word(self) -> &'static str
        ensures { result.now ≡ word_of self }
    {
        match self {
            LineBad::Field => "field",
            LineBad::Number => "number",
            LineBad::Kind => "kind",
            LineBad::Hex => "hex",
            LineBad::MomentBack => "moment",
            LineBad::NoMemory => "memory",
        }
    }
}

impl fmt::Display for LineBad {
    ghost output = { λ bad. Some (word_of bad) };

    fn fmt<W: fmt::Write>(&self, f: &mut fmt::Formatter<W>) -> fmt::Result {
        f.write_str(self.word())
    }
}

impl From<AllocError> for LineBad {
    ghost from_gives = { λ _ why. why ≡ NoMemory };

    fn from(_failed: AllocError) -> LineBad {
        LineBad::NoMemory
    }
}
