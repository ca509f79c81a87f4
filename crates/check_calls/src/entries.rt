//! Reads lines of outside reports, and says of each file how many of them are entries that are written
//! again as they were; and of some lines which entry they are.

ghost use Rattle.std.specs.Prelude.{◌≡◌, ◌≢◌, true, false, IfOk};
ghost use Rattle.report_lines.specs.declared.entry.Entry.{Entry};
ghost use Rattle.report_lines.specs.Text.{entry_text};
ghost use Rattle.report_lines.specs.Ranges.{IsEntry};

use packet_steps::LentVerdict;
use pc_base::Verdict;
use report_lines::{Entry, Judgement, LineEntry, NoMemory, push_judged, push_packet, read, text};
use std::alloc::Global;
use std::{fs, io};
use text_fields::Text;

/// Whether the line is read as an entry, and is the entry's text.
fn is_entry(alloc: Global, line: &[u8]) -> Result<bool, NoMemory>
    ensures entry { IfOk result (λ is. is ≡ true → (entry : Entry) × (line.now ≡ entry_text entry)) }
    ensures none { IfOk result (λ is. is ≡ false → (entry : Entry) → IsEntry entry → line.now ≢ entry_text entry) }
{
    let Some(entry) = read(alloc, line)? else {
        return Ok(false);
    };
    let again = text(alloc, &entry, true)?;
    Ok(again.as_slice() == line)
}

/// How many of the lines are entries, and how many aren't.
fn count_entries(alloc: Global, lines: &[u8]) -> Result<(u64, u64), NoMemory> {
    let mut entries = 0u64;
    let mut others = 0u64;
    for line in lines.split(|octet| *octet == b'\n') {
        if line.is_empty() {
            continue;
        }
        if is_entry(alloc, line)? {
            entries = entries.saturating_add(1);
        } else {
            others = others.saturating_add(1);
        }
    }
    Ok((entries, others))
}

/// Says of each line of the file, and of the empty text behind the last one, what entry it is, how that entry prints,
/// and how it is written where places aren't shown and, if it is a packet's, from octets that are lent.
fn show_entries(rt: &HostRuntime, lines: &[u8]) -> io::Result<()> {
    for line in lines.split(|octet| *octet == b'\n') {
        match read(rt.alloc(), line)? {
            Some(entry) => show_entry(rt, &entry)?,
            None => println!(rt; "none")?,
        }
    }
    Ok(())
}

fn show_entry(rt: &HostRuntime, entry: &Entry) -> io::Result<()> {
    let without = text(rt.alloc(), entry, false)?;
    println!(rt; "{entry:?}")?;
    println!(rt; "{entry}")?;
    println!(rt;
        "{}",
        String::from_utf8_lossy(rt.alloc(), without.as_slice())?
    )?;
    if let Entry::Line(LineEntry::P(told)) = entry {
        let mut lent = Text::new(rt.alloc());
        push_lent(&mut lent, told)?;
        println!(rt; "lent as it is: {}", lent.as_slice() == without.as_slice())?;
    }
    Ok(())
}

/// The entry of a packet from octets that are lent; what goes down lends its payload alone, so that is written from
/// its G-PDU.
fn push_lent(out: &mut Text, told: &Judgement) -> Result<(), NoMemory> {
    let verdict = match &told.verdict {
        Verdict::Up { life, octets } => LentVerdict::Up {
            life: *life,
            octets: octets.as_slice(),
        },
        Verdict::Down { .. } => {
            return push_judged(
                out,
                told.line,
                told.slot,
                told.number,
                told.commands,
                &told.verdict,
            );
        }
        Verdict::NoBearer => LentVerdict::NoBearer,
        Verdict::Spoof => LentVerdict::Spoof,
        Verdict::Idle { life } => LentVerdict::Idle { life: *life },
        Verdict::Held { life, message } => LentVerdict::Held {
            life: *life,
            message: message.clone()?,
        },
        Verdict::Policed { life } => LentVerdict::Policed { life: *life },
    };
    push_packet(
        out,
        told.line,
        told.slot,
        told.number,
        told.commands,
        &verdict,
    )
}

/// Says of three files how many of their lines are entries, and of the lines of a fourth which.
pub(crate) fn tell(rt: &HostRuntime) -> io::Result<()> {
    for name in ["entries.txt", "ends.txt", "malformed.txt"] {
        let lines = fs::read(rt, name)?;
        let (entries, others) = count_entries(rt.alloc(), lines.as_slice())?;
        println!(rt; "{name}: {entries} entries, {others} others")?;
    }
    let lines = fs::read(rt, "shown.txt")?;
    show_entries(rt, lines.as_slice())
}
