//! A whole trace, written.
ghost use Rattle.std.specs.Prelude.{◌≡◌, ◌++◌, ◌∷◌, ◌<◌, ◌≤◌, [], Ok, Err, true, false, length};
ghost use Rattle.std.specs.Prelude.{IfOk, IfSome, OnOk, OnErr};
ghost use Rattle.std.specs.Io.KnownBytes.{Appends};
ghost use Rattle.hex.specs.Hex.{encode_lower};
ghost use Rattle.pc_outside.specs.Faults.{Rises};
ghost use Rattle.pc_outside.specs.Prefixes.{AppendsPrefix};
ghost use Rattle.trace_lines.specs.Text.{arguments, kind_word, line_text};
ghost use Rattle.trace_maker.specs.Generated.{made, text_of};
ghost use Rattle.trace_maker.specs.Plan.{line_of};
ghost use Rattle.trace_maker.specs.Said.{IsSaid, kind_of};
ghost use Rattle.trace_maker.specs.Written.{AppendsLines, PushesLine};

use crate::maker::{LinePlan, Maker, line_of};
use crate::packets::{push_downlink, push_uplink};
use crate::said::Said;
use pc_base::NoMemory;
use pc_outside::{Sink, Unwritten, write_text};
use std::alloc::Global;
use text_fields::Text;
use trace_lines::{push_message, push_text};

// The text is written when it has so many octets.
const BLOCK: usize = 65_536;

/// Writes the trace of the seed, of so many subscribers and so many lines behind those that attach them.
pub fn make<K: Sink>(
    alloc: Global,
    seed: u64,
    subscribers: u32,
    lines: u32,
    sink: &mut K,
) -> Result<(), Unwritten>
    requires some { 1 ≤ subscribers }
    requires slots { subscribers ≤ 65533 }
    requires most { lines ≤ 100000 }

    ensures whole { OnOk result (Appends (K.written sink.old) (K.written sink.new)
        (text_of (made seed subscribers lines))) }

    // A fault leaves a prefix of the text; without memory the lines before are whole.
    ensures cut { result ≡ Err Unwritten.WriteFault
        → AppendsPrefix (K.written sink.old) (K.written sink.new) (text_of (made seed subscribers lines)) }
    ensures no_memory { result ≡ Err Unwritten.NoMemory
        → AppendsLines (K.written sink.old) (K.written sink.new) (made seed subscribers lines) }

    // A fault is the sink's.
    ensures later { K.faults sink.old ≤ K.faults sink.new }
    ensures fault { result ≡ Err Unwritten.WriteFault → Rises (K.faults sink.old) (K.faults sink.new) }
{
    let mut maker = Maker::new(seed, subscribers, lines);
    let mut text = Text::new(alloc);
    let mut octets = Vec::new(alloc);
    while push_line(alloc, &mut text, &mut octets, &mut maker)? {
        if text.as_slice().len() >= BLOCK {
            write_text(sink, &mut text)?;
        }
    }
    write_text(sink, &mut text)
}

// Appends the next line; whether there was one. The octets are used again for each packet.
fn push_line(
    alloc: Global,
    text: &mut Text,
    octets: &mut Vec<u8>,
    maker: &mut Maker,
) -> Result<bool, NoMemory>
    ensures more { result ≡ Ok true → PushesLine text.old text.new maker.old maker.new }
    ensures none { result ≡ Ok false → (maker.old ≡ []) × (text.new ≡ text.old) }
    ensures unchanged { OnErr result (maker.new ≡ maker.old) }
    ensures some { OnErr result (0 < length maker.old) }
{
    let Some((plan, behind)) = maker.next() else {
        return Ok(false);
    };
    push_plan(alloc, text, octets, plan)?;
    text.push(b'\n')?;
    *maker = behind;
    Ok(true)
}

// Appends the text of a line, without a newline.
fn push_plan(
    alloc: Global,
    text: &mut Text,
    octets: &mut Vec<u8>,
    plan: LinePlan,
) -> Result<(), NoMemory>
    requires { IsSaid plan.said }
    ensures { OnOk result (text.new ≡ text.old ++ line_text (line_of plan)) }
{
    if let Some(word) = packet_of(octets, plan.said)? {
        push_message(text, plan.moment, word, octets.as_slice())
    } else {
        let line = line_of(alloc, plan)?;
        push_text(text, &line)
    }
}

// The word and the octets of a line with a packet; None where the line has none.
fn packet_of(octets: &mut Vec<u8>, said: Said) -> Result<Option<&'static [u8]>, NoMemory>
    requires { IsSaid said }
    ensures said { IfOk result (λ word. IfSome word (λ word. (kind_word (kind_of said) ≡ word.now)
        × (arguments (kind_of said) ≡ encode_lower octets.new.items ∷ []))) }
    ensures short { IfOk result (λ word. IfSome word (λ word. length word.now ≤ 8)) }
{
    octets.clear();
    match said {
        Said::Up { slot, len } => {
            push_uplink(octets, slot, len)?;
            Ok(Some(b"S1U"))
        }
        Said::Down { slot, len } => {
            push_downlink(octets, slot, len)?;
            Ok(Some(b"SGI"))
        }
        _ => Ok(None),
    }
}
