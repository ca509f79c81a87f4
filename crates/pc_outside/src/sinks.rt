// Where octets go.
ghost use Rattle.std.specs.Prelude.{ℕ, ◌<◌, ◌≤◌, List, Option, length, IfOk, OnErr};
ghost use Rattle.std.specs.Io.KnownBytes.{WriteAppends};
ghost use Rattle.pc_outside.specs.Faults.{Rises};

use super::sources::Failed;

/// A stream of octets that is written in pieces.
pub trait Sink {
    /// The octets that were written, where the sink tells them.
    ghost written: { Self → Option (List ℕ) };

    /// How often a write has failed. At 2^64 − 1 it stays.
    ghost faults: { Self → ℕ };

    /// Writes some octets from the start of `from`, and answers how many they are: at least one,
    /// where `from` isn't empty. After `Failed` nothing was written.
    fn write(&mut self, from: &[u8]) -> Result<usize, Failed>
        ensures count { IfOk result (λ n. n ≤ length from.now) }
        ensures some { 0 < length from.now → IfOk result (λ n. 1 ≤ n) }
        ensures octets { WriteAppends (written self.old) (written self.new) result from.now }

        // A failure is counted, and no count falls.
        ensures later { faults self.old ≤ faults self.new }
        ensures cause { OnErr result (Rises (faults self.old) (faults self.new)) };
}
