//! What a worker asks of a half.
ghost use Rattle.std.specs.Prelude.{◌≡◌, ◌≤◌, ◌^◌, ℕ, List};
ghost use Rattle.std.specs.Prelude.{IfOk};
ghost use Rattle.lane_core.specs.declared.did.Did.{Did};
ghost use Rattle.lane_core.specs.Ends.{raised};
ghost use Rattle.worker_core.specs.Turns.{works_after};

use lane_core::{Carried, Did, NoMemory};
use pc_base::{SliceNo, Slot};
use std::sync::Wait;

/// A half of a subscriber. Its name stays, whoever holds it, and tells its slot.
pub trait Traveller: Carried {
    type Name;

    ghost name: { Self → Self.Name };

    ghost slot_of: { Self.Name → ℕ };

    /// How much it has done so far: an order to leave says how much that is to be.
    ghost done_of: { Self → ℕ };

    /// How often its subscriber had moved when it was last sent to a slice.
    ghost hop_of: { Self → ℕ };

    /// How many turns it had, and in how many of them it worked.
    ghost turns: { Self → ℕ };

    ghost works: { Self → ℕ };

    /// Why a turn of at most so many items came to its answer.
    ghost came_to: { ℕ → Did → Self → Self → Type 0 };

    /// What a half knows of the slice at which it had its last turn; most know nothing of it.
    ghost turned_at: { Self → ℕ → Type 0 } = { λ half place. Unit {0} };

    fn slot(&self) -> Slot
        ensures { result ≡ slot_of (name self.now) };

    fn done(&self) -> u64
        ensures { result ≡ done_of self.now };

    /// Told before it is sent to a slice.
    fn arrive(&mut self, hop: u64)
        requires { hop ≤ 2 ^ 61 }
        ensures name { name self.new ≡ name self.old }
        ensures hop { hop_of self.new ≡ hop }
        ensures done { done_of self.new ≡ done_of self.old }
        ensures counts { (turns self.new ≡ turns self.old) × (works self.new ≡ works self.old) };

    /// Does a part of its work, at most `grain` items. After running out of memory what was done stays done.
    fn turn<R: Wait>(&mut self, rt: &R, place: SliceNo, grain: u32) -> Result<Did, NoMemory>
        requires { 1 ≤ grain }
        ensures name { name self.new ≡ name self.old }
        ensures hop { hop_of self.new ≡ hop_of self.old }
        ensures turns { turns self.new ≡ raised (turns self.old) }
        ensures works { works self.new ≡ works_after result (works self.old) }
        ensures place { turned_at self.new place }
        ensures came { IfOk result (λ did. came_to grain did self.old self.new) };

    /// Any half may be sent after any others.
    ghost free: { (before : List Self) (half : Self) → Self.follows before half };
}
