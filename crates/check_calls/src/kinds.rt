//! The kinds of calls, and what else a word names.
use crate::stop::CallStop;

/// Which call a line is, by its first word.
#[derive(Clone, Copy)]
pub enum Kind {
    Gtpv2,
    First,
    Contexts,
    Ie,
    Value,
    Ies,
    Tft,
    Apply,
    Match,
    Choose,
    Gtpu,
    Send,
    Ip,
    Packet,
    Copies,
    Police,
    Conforms,
    Bucket,
    Book,
    Pieces,
    Number,
    Dotted,
    OctetsOf,
    LowerOctetsOf,
    Cut,
    Fields,
    At,
    Octets,
    Slot,
    Teid,
    Address,
    Imsi,
    Printed,
    Admit,
    Why,
    Constants,
}

const KINDS: [(&str, Kind); 36] = [
    ("gtpv2", Kind::Gtpv2),
    ("first", Kind::First),
    ("contexts", Kind::Contexts),
    ("ie", Kind::Ie),
    ("value", Kind::Value),
    ("ies", Kind::Ies),
    ("tft", Kind::Tft),
    ("apply", Kind::Apply),
    ("match", Kind::Match),
    ("choose", Kind::Choose),
    ("gtpu", Kind::Gtpu),
    ("send", Kind::Send),
    ("ip", Kind::Ip),
    ("packet", Kind::Packet),
    ("copies", Kind::Copies),
    ("police", Kind::Police),
    ("conforms", Kind::Conforms),
    ("bucket", Kind::Bucket),
    ("book", Kind::Book),
    ("pieces", Kind::Pieces),
    ("number", Kind::Number),
    ("dotted", Kind::Dotted),
    ("octets_of", Kind::OctetsOf),
    ("lower_octets_of", Kind::LowerOctetsOf),
    ("cut", Kind::Cut),
    ("fields", Kind::Fields),
    ("at", Kind::At),
    ("octets", Kind::Octets),
    ("slot", Kind::Slot),
    ("teid", Kind::Teid),
    ("address", Kind::Address),
    ("imsi", Kind::Imsi),
    ("printed", Kind::Printed),
    ("admit", Kind::Admit),
    ("why", Kind::Why),
    ("constants", Kind::Constants),
];

pub fn kind_of(word: &[u8]) -> Result<Kind, CallStop> {
    named(&KINDS, word)
}

/// What stands behind a name in a table.
pub fn named<T: Copy>(table: &[(&str, T)], word: &[u8]) -> Result<T, CallStop> {
    for (name, value) in table {
        if name.as_bytes() == word {
            return Ok(*value);
        }
    }
    Err(CallStop::Line)
}
