//! Laws of the definitions, each the contract of a function that does nothing.
ghost use Rattle.std.specs.Prelude.{◌≡◌, ℕ, List, [], ◌∷◌, ◌++◌, IsSome};
ghost use Rattle.trace_lines.specs.Line.{IsLine, Line};
ghost use Rattle.gtpv2_msg.specs.HasRequired.{HasRequired};
ghost use Rattle.gtpv2_msg.specs.Message.{Message};
ghost use Rattle.demux.specs.Destinations.{bound_for};
ghost use Rattle.demux.specs.Mme.{create_asked};
ghost use Rattle.demux.specs.Ranges.{IsInRange};
ghost use Rattle.demux.specs.Requests.{bearer_answer};
ghost use Rattle.demux.specs.Resolved.{decided, book_after};
ghost use Rattle.demux.specs.Trace.{book_of, decisions, destination_after, meaning, meanings};

/// The book, the decisions and the destinations behind one line more.
pub fn line_by_line()
    ensures book { (lines : List Line) (line : Line) → book_of (lines ++ line ∷ []) ≡ book_after (book_of lines) line }
    ensures decisions { (slices : ℕ) (lines : List Line) (line : Line)
        → decisions slices (lines ++ line ∷ []) ≡ decisions slices lines ++ decided slices (book_of lines) line ∷ [] }
    ensures destination { (slices slot : ℕ) (lines : List Line) (line : Line)
        → destination_after slices slot (lines ++ line ∷ [])
        ≡ bound_for slot (destination_after slices slot lines) (decided slices (book_of lines) line) }
    ensures meanings { (slices : ℕ) (lines : List Line) (line : Line)
        → meanings slices (lines ++ line ∷ []) ≡ meanings slices lines ++ meaning slices lines line ∷ [] }
{}

/// What a line means is in its ranges, behind any lines: the slot is one of the pool, numbers of one octet and
/// addresses fit, a template is one, a packet is no longer than IPv4 allows and has the moment of its line, and a note
/// prints.
pub fn meanings_are_in_range()
    ensures { (slices : ℕ) (before : List Line) (line : Line) → IsLine line
        → IsInRange (meaning slices before line) }
{}

/// A Create Session Request and a Create Bearer Response that have what their types ask for have what
/// their commands take. So none that is read is unexpected.
pub fn read_requests_are_whole()
    ensures create { (message : Message) → HasRequired message → message.kind ≡ 32 → IsSome (create_asked message) }
    ensures answer { (message : Message) → HasRequired message → message.kind ≡ 96 → IsSome (bearer_answer message) }
{}
