//! Reads calls of the leaf libraries, a line each, and answers each with a line. Octets are hexadecimal, in either
//! case, `-` is none. A line that is no call is answered `no call`. Behind these stand what
//! rows of lines, schedules and states are, and which lines of reports are entries (`data/`).
//!
//! | Line | Answer |
//! |---|---|
//! | `gtpv2 OCTETS` | `ok` and the message written, or `err`, the fault with its element, and the refusal or `-` |
//! | `first TYPE INSTANCE OCTETS` | the value of a message's first element of a kind and instance, or `none` |
//! | `contexts OCTETS` | the EBI of each Bearer Context of instance 0 of a message, `-` where it has none |
//! | `ie TYPE INSTANCE OCTETS` | `ok` and the element written, or `none` |
//! | `value TYPE OCTETS` | the value as it prints, or `none` |
//! | `ies OCTETS` | `ok` and each element as TYPE.INSTANCE.OCTETS, or `err` and the fault |
//! | `tft OCTETS` | `ok` and the template written again, or `err` and the fault |
//! | `apply TEMPLATE,..` | for each template `ok` or its fault, `=`, and each filter that is left |
//! | `match up\|down TEMPLATE,.. PACKET` | `fits` and for each filter 1 or 0, or `err` and the packet's fault |
//! | `choose PACKET (INDEX TEMPLATE,..)..` | the bearer's index, `none`, or `err` and the fault; `.` is no filters |
//! | `police RATE (MOMENT OCTETS)..` | for each cost 1 where it passes, else 0, from a new bucket of the rate |
//! | `conforms RATE MOMENT MILLIBITS (MOMENT MILLIBITS)..` | 1 where the first cost conforms behind the others |
//! | `bucket RATE LEVEL MOMENT (MOMENT OCTETS)..` | `none`, or rate, level and moment behind the asks |
//! | `gtpu OCTETS` | `ok`, type, TEID, sequence number and body; or `err` and the fault |
//! | `send echo\|answer SEQ`, `send error SEQ TEID ADDRESS`, `send end TEID`, `send gpdu TEID OCTETS` | the octets |
//! | `ip OCTETS` | `ok`, its fields, ports, SPI and length; or `err` and the fault |
//! | `packet OCTETS` | the packet as it prints, or `err` and the fault |
//! | `why gtpu\|gtpv2\|ies\|ip\|tft OCTETS`, `why filters TEMPLATE,..` | the fault as a sentence, or `none` |
//! | `at PLACE OCTETS` | the numbers of two, three, four and five octets from a place, `-` where they pass the end |
//! | `octets NUMBER` | the lowest two, three, four and five octets of a number |
//! | `slot NUMBER` | the address of a slot and its TEIDs, the control plane's first |
//! | `teid NUMBER`, `address NUMBER` | the slot, and the use of the TEID; or `none` |
//! | `imsi TEXT` | the IMSI as it prints, or `none`; the text is in octets |
//! | `printed NUMBER` | the number as a moment, its lowest 32 bits as an address and a TEID, each as it prints |
//! | `copies OCTETS` | how many values with these octets equal their copy, and the octets as they print |
//! | `book STEP..` | rows that weren't taken, `=`, and open counters |
//! | `pieces ROW.. STEP..` | the same of a book that is made of pieces, behind steps; or `none` |
//! | `admit STEP..` | for each IMSI its slot or why it has none, and how many have one |
//! | `number LEAST LAST TEXT`, `dotted TEXT`, `octets_of TEXT`, `lower_octets_of TEXT` | the value, or `none` |
//! | `cut OCTET TEXT` | the pieces of a text; behind `space` whether a field is empty |
//! | `fields WORD NUMBER ADDRESS OCTETS` | the text of these fields, each behind a space |
//! | `constants GROUP` | the public constants of a group in `constants.rt`, each behind its name |
//!
//! Steps of `book` are `s.LIFE.EBI.QCI`, `u.LIFE.OCTETS.MOMENT` and `d` the same, `v.LIFE`, `q.LIFE` and `g.LIFE` for
//! a close by volume, quality and end, and `t`, which takes the rows out. Steps of `admit` are an IMSI, `?` before
//! one that is only looked up, and `*COUNT` for as many IMSIs as 00101 and ten digits of their number.
#![tactic(auto)]

mod constants;
mod counting;
mod entries;
mod filters;
mod kinds;
mod line;
mod lines;
mod messages;
mod numbers;
mod packets;
mod plans;
mod reasons;
mod schedule_case;
mod schedule_telling;
mod schedules;
mod shown;
mod states;
mod stop;
mod texts;

use kinds::{Kind, kind_of};
use line::Words;
use shown::AnswerLine;
use std::alloc::{AllocError, Global};
use std::io::{self, Read, Write};
use stop::CallStop;

/// The answer to a call.
fn answer(alloc: Global, call: &[u8]) -> Result<String, CallStop> {
    let mut words = Words::of(call);
    let mut line = AnswerLine::new(alloc);
    call_of(alloc, &mut words, &mut line)?;
    line.end()
}

/// Answers a call by its first word: each file has its kinds.
fn call_of(alloc: Global, words: &mut Words<'_>, line: &mut AnswerLine) -> Result<(), CallStop> {
    let kind = kind_of(words.word())?;
    match kind {
        Kind::Gtpv2 | Kind::First | Kind::Contexts | Kind::Ie | Kind::Value | Kind::Ies => {
            messages::answer(alloc, kind, words, line)
        }
        Kind::Tft | Kind::Apply | Kind::Match | Kind::Choose => filters::answer(
            alloc, kind, words, line,
        ),
        Kind::Gtpu | Kind::Send | Kind::Ip | Kind::Packet | Kind::Copies => {
            packets::answer(alloc, kind, words, line)
        }
        Kind::Police | Kind::Conforms | Kind::Bucket | Kind::Book | Kind::Pieces => {
            counting::answer(alloc, kind, words, line)
        }
        Kind::Number
        | Kind::Dotted
        | Kind::OctetsOf
        | Kind::LowerOctetsOf
        | Kind::Cut
        | Kind::Fields => { texts::answer(alloc, kind, words, line) }
        Kind::Why => reasons::answer(alloc, words, line),
        Kind::Constants => constants::constants(words, line),
        _ => numbers::answer(alloc, kind, words, line),
    }
}

/// The answers to calls, a line each.
fn answers(alloc: Global, calls: &[u8]) -> Result<Vec<u8>, AllocError> {
    let mut told = Vec::new(alloc);
    for call in calls.split(|octet| *octet == b'\n') {
        match answer(alloc, call) {
            Ok(text) => told.extend_from_slice(text.as_bytes())?,
            Err(stop) => told.extend_from_slice(stop.word().as_bytes())?,
        }
        told.push(b'\n')?;
    }
    Ok(told)
}

fn main(rt: HostRuntime) -> io::Result<()> {
    let alloc = rt.alloc();
    let mut calls = Vec::new(alloc);
    rt.reader().read_to_end(&mut calls)?;
    let lines = calls.as_slice();
    let told = answers(alloc, lines.strip_suffix(b"\n").unwrap_or(lines))?;
    io::writer(&rt).write_all(told.as_slice())?;
    lines::tell(&rt)?;
    schedules::tell(&rt)?;
    states::tell(&rt)?;
    entries::tell(&rt)
}
