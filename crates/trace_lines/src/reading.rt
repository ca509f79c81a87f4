ghost use Rattle.std.specs.Prelude.{◌≡◌, ◌≤◌, ◌⊎◌, ℕ, Some, Err, Ok, IfOk, OnOk, IfErr, IfSome, true, length};
ghost use Rattle.std.specs.Prelude.{if◌then◌else◌};
ghost use Rattle.text_fields.specs.Fields.{fields_of, has_empty_field};
ghost use Rattle.trace_lines.specs.Beside.{with_octets};
ghost use Rattle.trace_lines.specs.Line.{Line};
ghost use Rattle.trace_lines.specs.Text.{Means, line_text};
ghost use Rattle.trace_lines.specs.Refusal.{first_fault};
ghost use Rattle.wire_octets.specs.Memory.{OrNoMemory};
ghost use Rattle.trace_lines.specs.Memory.{wants_octets};
ghost use Rattle.trace_lines.specs.Meaning.{line_meaning, line_of_fields};
ghost use Rattle.trace_lines.specs.declared.bad.LineBad.TheVariants.{NoMemory, Field};

use crate::arguments::read_in;
use crate::kinds::read_kind;
use crate::{LineBad, LineKind, TraceLine};
use pc_base::{LAST_MOMENT, Moment};
use std::alloc::Global;
use text_fields::{Text, cut, has_empty_field};

/// What the line of this number says, where no moment below the least one may come: the text is the
/// line without its newline.
///
/// The refusals come in this order. `Field`: fewer than two fields, or an empty one. `Number`: the
/// moment is no number below 2^50. `Kind`: an unknown kind. `Field`: a wrong number of fields.
/// `Number` and `Hex`: the first argument that isn't what it should be. `MomentBack`: the moment is
/// below the least one. `NoMemory` comes where the octets of a line find no memory.
pub fn read_line(
    alloc: Global,
    text: &[u8],
    number: u64,
    least: Moment,
) -> Result<TraceLine, LineBad>
    // What is read is what the text means, and a text that means a line is read.
    ensures means { IfOk result (λ line. Means text.now line) }
    ensures numbered { IfOk result (λ line. line.number ≡ number) }
    ensures in_order { IfOk result (λ line. least ≤ line.moment) }
    ensures as_long { IfOk result (λ line. length (line_text line) ≡ length text.now) }
    ensures only { (line : Line) → Means text.now line → line.number ≡ number → least ≤ line.moment
        → OrNoMemory result (Ok line) NoMemory }

    // A refusal is the first fault, and each fault is refused.
    ensures refused { IfErr result (λ why. (why ≡ NoMemory) ⊎ (first_fault least text.now ≡ Some why)) }
    ensures fault { IfSome (first_fault least text.now) (λ why. OrNoMemory result (Err why) NoMemory) }

    // Memory is asked for only by a line of a kind with octets.
    ensures memory { result ≡ Err NoMemory → wants_octets (fields_of text.now) ≡ true }

    // The same in one word, for a reader of many lines.
    ensures line { IfOk result (λ line. line_meaning least number text.now ≡ Ok line) }
    ensures refusal { IfErr result (λ why. (why ≡ NoMemory)
        ⊎ (line_meaning least number text.now ≡ Err why)) }
{
    read_whole(alloc, text, number, least)
}

/// The same, read into a line in place of what it was: its octets go where those before them were. A line that is
/// refused leaves some line there.
#[inline(always)]
pub fn read_line_in(
    line: &mut TraceLine,
    text: &[u8],
    number: u64,
    least: Moment,
) -> Result<(), LineBad>
    ensures line { OnOk result (line_meaning least number text.now ≡ Ok line.new) }
    ensures in_order { OnOk result (least ≤ line.new.moment) }
    ensures as_long { OnOk result (length (line_text line.new) ≡ length text.now) }
    ensures refusal { IfErr result (λ why. (why ≡ NoMemory)
        ⊎ (line_meaning least number text.now ≡ Err why)) }
    ensures memory { result ≡ Err NoMemory → wants_octets (fields_of text.now) ≡ true }
{
    match read_fields(&mut line.kind, &mut line.octets, text, least) {
        Ok(moment) => {
            line.number = number;
            line.moment = moment;
            Ok(())
        }
        Err(why) => {
            // Its octets may have been lost.
            line.kind = LineKind::Fence;
            Err(refused(text, why))
        }
    }
}

// A line of its own.
fn read_whole(alloc: Global, text: &[u8], number: u64, least: Moment) -> Result<TraceLine, LineBad>
    ensures line { IfOk result (λ line. line_meaning least number text.now ≡ Ok line) }
    ensures refusal { IfErr result (λ why. (why ≡ NoMemory)
        ⊎ (line_meaning least number text.now ≡ Err why)) }
    ensures memory { result ≡ Err NoMemory → wants_octets (fields_of text.now) ≡ true }
{
    let mut line = TraceLine::new(alloc);
    match read_line_in(&mut line, text, number, least) {
        Ok(()) => Ok(line),
        Err(why) => Err(why),
    }
}

// Why a line is refused that has no fault but this, or an empty field.
#[inline(never)]
fn refused(text: &[u8], why: LineBad) -> LineBad
    ensures { result ≡ (if has_empty_field text.now then Field else why) }
{
    if has_empty_field(text) {
        LineBad::Field
    } else {
        why
    }
}

// The moment of a line, with its kind and its octets in their places, where no field is empty.
#[inline(always)]
fn read_fields(
    kind: &mut LineKind,
    octets: &mut Text,
    text: &[u8],
    least: Moment,
) -> Result<Moment, LineBad>
    ensures line { (number : ℕ) → IfOk result (λ moment. line_of_fields least number (fields_of text.now)
        ≡ Ok (record { number = number; moment = moment; kind = with_octets kind.new octets.new })) }
    ensures refusal { (number : ℕ) → IfErr result (λ why. (why ≡ NoMemory)
        ⊎ (line_of_fields least number (fields_of text.now) ≡ Err why)) }
    ensures memory { result ≡ Err NoMemory → wants_octets (fields_of text.now) ≡ true }
{
    let (moment, rest) = cut(b' ', text);
    let Some(rest) = rest else {
        return Err(LineBad::Field);
    };
    let (word, arguments) = cut(b' ', rest);
    let moment = read_in(moment, 0, LAST_MOMENT)?;
    let moment = Moment(moment);
    read_kind(kind, octets, word, arguments)?;
    if moment < least {
        return Err(LineBad::MomentBack);
    }
    Ok(moment)
}
