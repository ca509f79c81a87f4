// Where octets come from.
ghost use Rattle.std.specs.Prelude.{◌≡◌, ℕ, ◌≤◌, List, Option, length, IfOk, OnOk, OnErr};
ghost use Rattle.std.specs.Io.KnownBytes.{ReadConsumes};
ghost use Rattle.pc_outside.specs.Faults.{Rises};

/// A read or a write that failed. The count of faults of its source or sink rose.
#[derive(Clone, Copy, Debug, PartialEq, Eq)]
pub struct Failed;

/// A stream of octets that is read in pieces.
pub trait Source {
    /// The octets that are left to be read, where the source tells them.
    ghost left: { Self → Option (List ℕ) };

    /// How often a read has failed. At 2^64 − 1 it stays.
    ghost faults: { Self → ℕ };

    /// Reads the next octets to the start of `into`, and answers how many they are.
    /// `Ok(0)` on a slice that isn't empty is the end. After `Failed` nothing is lost.
    fn read(&mut self, into: &mut [u8]) -> Result<usize, Failed>
        ensures count { IfOk result (λ n. n ≤ length into.old) }
        ensures octets { ReadConsumes (left self.old) (left self.new) result into.new }

        // A failure is counted, and nothing else is.
        ensures later { faults self.old ≤ faults self.new }
        ensures cause { OnErr result (Rises (faults self.old) (faults self.new)) }
        ensures no_fault { OnOk result (faults self.new ≡ faults self.old) };
}
