//! The subscribers of a trace, line by line.
ghost use Rattle.std.specs.Prelude.{◌≡◌, ℕ, ◌∷◌, ◌++◌, [], List, OnOk};
ghost use Rattle.trace_lines.specs.Line.{Line};
ghost use Rattle.trace_run.specs.Takers.{IsNextOf};
ghost use Rattle.save_command.specs.Left.{HasTaken};

use pc_base::Moment;
use pc_outside::{Sink, Unwritten};
use solo_command::Solo;
use std::alloc::{AllocError, Global};
use text_fields::Text;
use trace_lines::TraceLine;
use trace_run::LineTaker;

/// The sequential gateway behind some lines, how many they are, the moment of the last one, and the room for what is
/// told of a line, which isn't kept.
#[derive(Drop)]
pub(crate) struct Saver {
    pub(crate) solo: Solo,
    pub(crate) lines: u64,
    pub(crate) latest: Moment,
    pub(crate) told: Text,
}

impl Saver {
    /// Before the first line.
    pub(crate) fn new(alloc: Global) -> Saver
        ensures taken { HasTaken result [] 0 }
        ensures emptied { result.told ≡ [] }
    {
        Saver {
            solo: Solo::new(alloc),
            lines: 0,
            latest: Moment(0),
            told: Text::new(alloc),
        }
    }

    /// Answers a line, which is an epoch of its own. Nothing of what is told of it is kept, so that a long trace takes
    /// no more room than its subscribers.
    pub(crate) fn enter(&mut self, line: &TraceLine) -> Result<(), AllocError>
        requires { (done : List Line) × (latest : ℕ) × HasTaken self.old done latest × IsNextOf done latest line.now }
        ensures taken { (done : List Line) (latest : ℕ) → HasTaken self.old done latest → IsNextOf done latest line.now
            → OnOk result (HasTaken self.new (done ++ line.now ∷ []) line.now.moment) }
        ensures emptied { OnOk result (self.new.told ≡ []) }
    {
        self.lines = line.number;
        self.latest = line.moment;
        self.solo.enter(line, &mut self.told)?;
        self.solo.end_epoch(&mut self.told)?;
        self.told.clear();
        Ok(())
    }
}

impl LineTaker for Saver {
    ghost use Rattle.std.specs.Prelude.{◌≡◌, []};
    ghost use Rattle.save_command.specs.Left.{HasTaken};

    ghost represents = { λ first now done latest old new. HasTaken now done latest × (now.told ≡ []) × (new ≡ old) };

    ghost begins = { λ first. 1 };

    ghost breaks = { λ first done old new. ⊥ };

    fn take<K: Sink>(
        &mut self,
        line: &mut TraceLine,
        len: usize,
        sink: &mut K,
    ) -> Result<(), Unwritten> {
        self.enter(line)?;
        Ok(())
    }
}
