// Octets are written whole.
ghost use Rattle.std.specs.Prelude.{◌≡◌, ◌≤◌, [], Err, OnOk, OnErr};
ghost use Rattle.std.specs.Io.KnownBytes.{Appends};
ghost use Rattle.pc_outside.specs.Faults.{Rises};
ghost use Rattle.pc_outside.specs.Prefixes.{AppendsPrefix};

use super::NoMemory;
use super::sinks::Sink;
use text_fields::Text;

/// The sink failed before all octets were written.
#[derive(Clone, Copy, Debug, PartialEq, Eq)]
pub struct WriteFault;

/// Why a text that is made in pieces isn't written whole.
#[derive(Clone, Copy, Debug, PartialEq, Eq)]
pub enum Unwritten {
    /// The sink failed.
    WriteFault,
    /// Memory ran out.
    NoMemory,
}

impl From<NoMemory> for Unwritten {
    ghost use Rattle.std.specs.Prelude.{◌≡◌};
    ghost use Rattle.pc_outside.specs.declared.writing.Unwritten.TheVariants.{NoMemory};

    ghost from_gives = { λ _ why. why ≡ NoMemory };

    fn from(_error: NoMemory) -> Unwritten {
        Unwritten::NoMemory
    }
}

/// Writes all the octets, in as many pieces as the sink wants. It takes no memory.
pub fn write_whole<K: Sink>(sink: &mut K, bytes: &[u8]) -> Result<(), WriteFault>
    ensures whole { OnOk result (Appends (K.written sink.old) (K.written sink.new) bytes.now) }
    ensures cut { OnErr result (AppendsPrefix (K.written sink.old) (K.written sink.new) bytes.now) }

    // A fault is the sink's.
    ensures later { K.faults sink.old ≤ K.faults sink.new }
    ensures fault { OnErr result (Rises (K.faults sink.old) (K.faults sink.new)) }
{
    let mut rest = bytes;
    while !rest.is_empty() {
        match sink.write(rest) {
            Ok(count) => rest = &rest[count..],
            Err(_) => return Err(WriteFault),
        }
    }
    Ok(())
}

/// Writes what stands in the text, and empties it. It takes no memory.
pub fn write_text<K: Sink>(sink: &mut K, text: &mut Text) -> Result<(), Unwritten>
    ensures whole { OnOk result (Appends (K.written sink.old) (K.written sink.new) text.old) }
    ensures emptied { OnOk result (text.new ≡ []) }
    ensures cut { OnErr result (AppendsPrefix (K.written sink.old) (K.written sink.new) text.old) }
    ensures no_other { OnErr result (result ≡ Err Unwritten.WriteFault) }

    ensures later { K.faults sink.old ≤ K.faults sink.new }
    ensures fault { OnErr result (Rises (K.faults sink.old) (K.faults sink.new)) }
{
    if write_whole(sink, text.as_slice()).is_err() {
        return Err(Unwritten::WriteFault);
    }
    text.clear();
    Ok(())
}
