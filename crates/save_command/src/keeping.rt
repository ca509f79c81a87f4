//! What a trace leaves, as a state file.
ghost use Rattle.std.specs.Prelude.{◌≤◌, ◌^◌, ℕ, List, length};
ghost use Rattle.trace_lines.specs.Line.{Line};
ghost use Rattle.solo_command.specs.Left.{IsLeft};
ghost use Rattle.solo_command.specs.Report.{slices};
ghost use Rattle.save_command.specs.Left.{HasTaken};

use crate::known::{known_imsis, known_subscribers};
use crate::saver::Saver;
use record_codec::StateFile;
use solo_command::Solo;

/// The state file of the subscribers at rest behind a trace.
pub(crate) fn file_of(saver: Saver) -> StateFile
    requires { (done : List Line) × (latest : ℕ) × HasTaken saver done latest × (length done ≤ 2 ^ 39) }
    ensures { (done : List Line) (latest : ℕ) → HasTaken saver done latest → length done ≤ 2 ^ 39
        → IsLeft slices done result }
{
    let Saver {
        solo,
        lines,
        latest,
        ..
    } = saver;
    let Solo {
        book,
        subscribers,
        ..
    } = solo;
    known_imsis(book.imsis());
    known_subscribers(&subscribers);
    StateFile {
        lines,
        moment: latest,
        book,
        subscribers,
    }
}
