//! The words of a report, both ways.
ghost use Rattle.std.specs.Prelude.{◌≡◌, ◌≤◌, length};
ghost use Rattle.report_lines.specs.Reading.{outcome_of, why_of, refused_of};
ghost use Rattle.report_lines.specs.Words.{outcome_word, why_word, refused_word};

use charging_book::Why;
use pc_base::Outcome;

pub(crate) fn outcome_word(outcome: Outcome) -> &'static str
    ensures word { result.now ≡ outcome_word outcome }
    ensures len { length result.now ≤ 6 }
{
    match outcome {
        Outcome::Done => "ok",
        Outcome::No => "no",
        Outcome::Again => "again",
    }
}

pub(crate) fn read_outcome(text: &[u8]) -> Option<Outcome>
    ensures { result ≡ outcome_of text.now }
{
    if text == b"ok".as_slice() {
        Some(Outcome::Done)
    } else if text == b"no".as_slice() {
        Some(Outcome::No)
    } else if text == b"again".as_slice() {
        Some(Outcome::Again)
    } else {
        None
    }
}

pub(crate) fn why_word(why: Why) -> &'static str
    ensures word { result.now ≡ why_word why }
    ensures len { length result.now ≤ 6 }
{
    match why {
        Why::Volume => "volume",
        Why::Qos => "qos",
        Why::Gone => "gone",
    }
}

pub(crate) fn read_why(text: &[u8]) -> Option<Why>
    ensures { result ≡ why_of text.now }
{
    if text == b"volume".as_slice() {
        Some(Why::Volume)
    } else if text == b"qos".as_slice() {
        Some(Why::Qos)
    } else if text == b"gone".as_slice() {
        Some(Why::Gone)
    } else {
        None
    }
}

pub(crate) fn refused_word(packet: bool) -> &'static str
    ensures word { result.now ≡ refused_word packet }
    ensures len { length result.now ≤ 6 }
{
    if packet { "p" } else { "c" }
}

pub(crate) fn read_refused(text: &[u8]) -> Option<bool>
    ensures { result ≡ refused_of text.now }
{
    if text == b"p".as_slice() {
        Some(true)
    } else if text == b"c".as_slice() {
        Some(false)
    } else {
        None
    }
}
