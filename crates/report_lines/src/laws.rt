//! An entry has one text, and a text is one entry.
ghost use Rattle.std.specs.Prelude.{◌≡◌, Bool, false, All};
ghost use Rattle.report_lines.specs.declared.entry.Entry.{Entry};
ghost use Rattle.report_lines.specs.Ranges.{IsEntry};
ghost use Rattle.report_lines.specs.Records.{IsPrintable};
ghost use Rattle.report_lines.specs.Text.{entry_text, shown};

/// A text belongs to one entry.
pub fn one_text_of_an_entry()
    ensures { (one other : Entry) → IsEntry one → IsEntry other → entry_text one ≡ entry_text other → one ≡ other }
{}

/// An entry's text is one line of printable ASCII: it has no newline.
pub fn an_entry_is_a_line()
    ensures { (told : Entry) → IsEntry told → All IsPrintable (entry_text told) }
{}

/// What is shown of an entry is an entry: so its text too is read, as the entry without its place where
/// places aren't shown.
pub fn without_place_an_entry()
    ensures { (told : Entry) (places : Bool) → IsEntry told → IsEntry (shown places told) }
{}

/// Where places aren't shown, a text belongs to one entry but for its place.
pub fn one_text_without_places()
    ensures { (one other : Entry) → IsEntry one → IsEntry other
        → entry_text (shown false one) ≡ entry_text (shown false other) → shown false one ≡ shown false other }
{}
