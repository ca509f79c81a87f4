//! The text of a line.
ghost use Rattle.std.specs.Prelude.{◌≡◌, ◌≤◌, ◌++◌, ◌∷◌, [], Some, length, take, decimal, IfOk, OnOk, OnErr};
ghost use Rattle.std.specs.Fmt.{WritesOnOk};
ghost use Rattle.hex.specs.Hex.{encode_lower};
ghost use Rattle.text_fields.specs.Fields.{behind, joined};
ghost use Rattle.trace_lines.specs.Beside.{with_octets};
ghost use Rattle.trace_lines.specs.Text.{arguments, kind_word, line_text};

use crate::{LineKind, TraceLine};
use pc_base::{Hexadecimal, Moment, Octets};
use std::alloc::{AllocError as NoMemory, Global};
use std::fmt;
use text_fields::{Head, Text};

/// The one text of the line, without a newline.
pub fn text(alloc: Global, line: &TraceLine) -> Result<Octets, NoMemory>
    ensures { IfOk result (λ octets. octets ≡ line_text line.now) }
{
    let mut out = Text::new(alloc);
    push_text(&mut out, line)?;
    Ok(Octets::of(out.into_octets()))
}

/// Appends the text of the line. Where memory runs out, nothing is.
pub fn push_text(out: &mut Text, line: &TraceLine) -> Result<(), NoMemory>
    ensures appended { OnOk result (out.new ≡ out.old ++ line_text line.now) }
    ensures kept { OnErr result (out.new ≡ out.old) }
{
    let start = out.as_slice().len();
    match push_fields(out, line) {
        Ok(()) => Ok(()),
        Err(none) => {
            out.truncate(start);
            Err(none)
        }
    }
}

// The same, but that some of the text stands behind what was there where memory runs out.
fn push_fields(out: &mut Text, line: &TraceLine) -> Result<(), NoMemory>
    ensures appended { OnOk result (out.new ≡ out.old ++ line_text line.now) }
    ensures before { OnErr result (take (length out.old) out.new ≡ out.old) }
{
    let mut buffer = itoa::Buffer::new();
    out.extend_from_slice(buffer.format(line.moment.0).as_bytes())?;
    out.push_field(kind_word(line).as_bytes())?;
    push_arguments(out, &line.kind, line.octets.as_slice())
}

/// Appends the text of a line of this moment that says octets under this word.
pub fn push_message(
    out: &mut Text,
    moment: Moment,
    word: &[u8],
    octets: &[u8],
) -> Result<(), NoMemory>
    requires { length word.now ≤ 8 }
    ensures appended { OnOk result (out.new
        ≡ out.old ++ joined (decimal moment ∷ word.now ∷ encode_lower octets.now ∷ [])) }
    ensures kept { OnErr result (out.new ≡ out.old) }
{
    let mut head = Head::new();
    head.put(b' ');
    head.put_word(word);
    head.put_number(moment.0);
    // The first field has no space in front.
    out.push_headed(&head.as_slice()[1..], octets)
}

fn kind_word(line: &TraceLine) -> &'static str
    ensures { result.now ≡ kind_word line.now.kind }
{
    match &line.kind {
        LineKind::S11 => "S11",
        LineKind::S1u => "S1U",
        LineKind::Sgi => "SGI",
        LineKind::Attach { .. } => "ATTACH",
        LineKind::Bearer { .. } => "BEARER",
        LineKind::Filters { .. } => "FILTERS",
        LineKind::Drop { .. } => "DROP",
        LineKind::Ambr { .. } => "AMBR",
        LineKind::Move { .. } => "MOVE",
        LineKind::Fence => "FENCE",
    }
}

fn push_arguments(out: &mut Text, kind: &LineKind, octets: &[u8]) -> Result<(), NoMemory>
    ensures appended { OnOk result (out.new ≡ out.old ++ behind (arguments (with_octets kind.now octets.now))) }
    ensures before { OnErr result (take (length out.old) out.new ≡ out.old) }
{
    match kind {
        LineKind::S11 | LineKind::S1u | LineKind::Sgi => out.push_octets(octets),
        LineKind::Attach {
            imsi,
            enb,
            up,
            down,
        } => {
            out.push_field(imsi.digits())?;
            out.push_address(enb.addr.0)?;
            out.push_octets(&enb.teid.0.to_be_bytes())?;
            out.push_number(up.0)?;
            out.push_number(down.0)
        }
        LineKind::Bearer {
            imsi,
            qci,
            mbr_up,
            mbr_down,
            gbr_up,
            gbr_down,
        } => {
            out.push_field(imsi.digits())?;
            out.push_number(u64::from(*qci))?;
            out.push_number(mbr_up.0)?;
            out.push_number(mbr_down.0)?;
            out.push_number(gbr_up.0)?;
            out.push_number(gbr_down.0)?;
            out.push_octets(octets)
        }
        LineKind::Filters { imsi, ebi } => {
            out.push_field(imsi.digits())?;
            out.push_number(u64::from(*ebi))?;
            out.push_octets(octets)
        }
        LineKind::Drop { imsi, ebi } => {
            out.push_field(imsi.digits())?;
            out.push_number(u64::from(*ebi))
        }
        LineKind::Ambr { imsi, up, down } => {
            out.push_field(imsi.digits())?;
            out.push_number(up.0)?;
            out.push_number(down.0)
        }
        LineKind::Move { imsi, slice } => {
            out.push_field(imsi.digits())?;
            out.push_number(u64::from(slice.0))
        }
        LineKind::Fence => Ok(()),
    }
}

impl fmt::Display for TraceLine {
    ghost output = { λ line. Some (line_text line) };

    fn fmt<W: fmt::Write>(&self, f: &mut fmt::Formatter<W>) -> fmt::Result {
        write!(f, "{} {}", self.moment, kind_word(self))?;
        write_arguments(&self.kind, self.octets.as_slice(), f)
    }
}

fn write_arguments<W: fmt::Write>(
    kind: &LineKind,
    octets: &[u8],
    f: &mut fmt::Formatter<W>,
) -> fmt::Result
    ensures { WritesOnOk W.write_str_gives f.old result (behind (arguments (with_octets kind.now octets.now))) f.new }
{
    match kind {
        LineKind::S11 | LineKind::S1u | LineKind::Sgi => write!(f, " {}", Hexadecimal(octets)),
        LineKind::Attach {
            imsi,
            enb,
            up,
            down,
        } => write!(f, " {imsi} {} {} {} {}", enb.addr, enb.teid, up.0, down.0),
        LineKind::Bearer {
            imsi,
            qci,
            mbr_up,
            mbr_down,
            gbr_up,
            gbr_down,
        } => {
            write!(f, " {imsi} {qci} {} {}", mbr_up.0, mbr_down.0)?;
            let tft = Hexadecimal(octets);
            write!(f, " {} {} {tft}", gbr_up.0, gbr_down.0)
        }
        LineKind::Filters { imsi, ebi } => { write!(f, " {imsi} {ebi} {}", Hexadecimal(octets)) }
        LineKind::Drop { imsi, ebi } => write!(f, " {imsi} {ebi}"),
        LineKind::Ambr { imsi, up, down } => write!(f, " {imsi} {} {}", up.0, down.0),
        LineKind::Move { imsi, slice } => write!(f, " {imsi} {}", slice.0),
        LineKind::Fence => Ok(()),
    }
}
