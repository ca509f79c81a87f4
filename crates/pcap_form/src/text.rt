//! The text of a line that was imported.
ghost use Rattle.std.specs.Prelude.{◌≡◌, ◌++◌, OnOk, OnErr};
ghost use Rattle.trace_lines.specs.Text.{line_text};
ghost use Rattle.pcap_form.specs.Lent.{kind_of};
ghost use Rattle.pcap_form.specs.Trace.{stamped_text};

use crate::{LentKind, NoMemory};
use pc_base::Moment;
use pc_outside::NEWLINE;
use text_fields::Text;
use trace_lines::push_message;

/// Appends the text of a line of this moment, and its newline. Where memory runs out, nothing is.
pub fn push_line(out: &mut Text, moment: Moment, said: LentKind<'_>) -> Result<(), NoMemory>
    ensures appended { OnOk result (out.new ≡ out.old
        ++ stamped_text (record { moment = moment; kind = kind_of said.entry })) }
    ensures kept { OnErr result (out.new ≡ out.old) }
{
    let start = out.as_slice().len();
    push_said(out, moment, said)?;
    match out.push(NEWLINE) {
        Ok(()) => Ok(()),
        Err(none) => {
            out.truncate(start);
            Err(none)
        }
    }
}

fn push_said(out: &mut Text, moment: Moment, said: LentKind<'_>) -> Result<(), NoMemory>
    ensures appended { OnOk result (out.new ≡ out.old
        ++ line_text (record { number = 0; moment = moment; kind = kind_of said.entry })) }
    ensures kept { OnErr result (out.new ≡ out.old) }
{
    match said {
        LentKind::S11(message) => push_message(out, moment, b"S11", message),
        LentKind::S1u(message) => push_message(out, moment, b"S1U", message),
        LentKind::Sgi(octets) => push_message(out, moment, b"SGI", octets),
    }
}
