//! What stands on a slice's lane, and what a worker asks of a half there.
ghost use Rattle.std.specs.Prelude.{◌≡◌, ◌≤◌, ◌<◌, ◌+◌, [], ◌∷◌, ◌++◌, ℕ, Bool, true, false};
ghost use Rattle.std.specs.Prelude.{List, length, Ok, IfOk, OnOk, OnErr};
ghost use Rattle.pc_base.specs.declared.packet.Place.{Place};
ghost use Rattle.pc_base.specs.declared.packet.Place.TheVariants.{At};
ghost use Rattle.lane_core.specs.Ends.{raised};
ghost use Rattle.worker_core.specs.DataCounts.{learns_after, LearnStops};

use lane_core::{Carried, NoMemory};
use pc_base::{SliceNo, Slot};
use std::sync::Wait;

/// What a slice's lane carries: halves, and items for them. Each tells its slot.
pub trait DataKind: Carried {
    type Item: Carried;

    ghost slot_of_half: { Self → ℕ };

    ghost slot_of_item: { Self.Item → ℕ };

    fn slot(&self) -> Slot
        ensures { result ≡ slot_of_half self.now };

    fn slot_of(item: &Self::Item) -> Slot
        ensures { result ≡ slot_of_item item.now };
}

/// A half of a subscriber to which items come. Its name stays, whoever holds it, and tells its slot.
pub trait DataTraveller: DataKind {
    type Name;

    ghost name: { Self → Self.Name };

    ghost slot_at: { Self.Name → ℕ };

    ghost item_slot: { Self.Item → ℕ };

    /// The items that it handled, in order.
    ghost handled: { Self → List Self.Item };

    /// Where it handled each of them.
    ghost places: { Self → List Place };

    /// Whether it may handle an item now.
    ghost takes: { Self → Self.Item → Bool };

    /// How often it was asked to learn, and how often it learnt something.
    ghost asks: { Self → ℕ };

    ghost learns: { Self → ℕ };

    /// How many batches it has learnt whole, and how often it found none.
    ghost batches: { Self → ℕ };

    ghost empties: { Self → ℕ };

    /// The floor of the batch that it has to learn next isn't met.
    ghost awaits: { Self → Type 0 };

    /// Learns at most so many batches of what its items wait for, as long as they come and their floors
    /// are met. Tells whether it learnt any.
    fn learn<R: Wait>(&mut self, rt: &R, most: u32) -> Result<bool, NoMemory>
        requires { 1 ≤ most }
        ensures name { name self.new ≡ name self.old }
        ensures handled { handled self.new ≡ handled self.old }
        ensures places { places self.new ≡ places self.old }
        ensures asks { asks self.new ≡ raised (asks self.old) }
        ensures learns { learns self.new ≡ learns_after result (learns self.old) }
        ensures most { OnOk result (batches self.new ≤ batches self.old + most) }
        ensures more { IfOk result (λ learnt. learnt ≡ true → batches self.old < batches self.new) }
        ensures none { IfOk result (λ learnt. learnt ≡ false → batches self.new ≡ batches self.old) }
        ensures stopped { OnOk result (LearnStops most (batches self.old) (batches self.new)
            (empties self.old) (empties self.new) (awaits self.new)) }
        ensures takes { result ≡ Ok false → (item : Self.Item) → takes self.new item ≡ takes self.old item };

    /// Whether it may handle an item.
    fn may(&self, item: &Self::Item) -> bool
        ensures { result ≡ takes self.now item.now };

    /// Handles an item at a slice. Where memory runs out the item isn't handled.
    fn item(&mut self, place: SliceNo, item: &Self::Item) -> Result<(), NoMemory>
        requires { takes self.old item.now ≡ true }
        ensures name { name self.new ≡ name self.old }
        ensures ok { OnOk result (handled self.new ≡ handled self.old ++ item.now ∷ []) }
        ensures place { OnOk result (places self.new ≡ places self.old ++ At place ∷ []) }
        ensures err { OnErr result (handled self.new ≡ handled self.old) }
        ensures no_place { OnErr result (places self.new ≡ places self.old) }
        ensures counts { (asks self.new ≡ asks self.old) × (learns self.new ≡ learns self.old) }
        ensures batches { OnOk result (batches self.new ≡ batches self.old) };

    /// Each item was handled at one place. The name's slot is the half's, an item has one slot, and any half may go
    /// home after any others.
    ghost each_placed: { (half : Self) → length (places half) ≡ length (handled half) };

    ghost half_slots: { (half : Self) → slot_at (name half) ≡ Self.slot_of_half half };

    ghost item_slots: { (item : Self.Item) → item_slot item ≡ Self.slot_of_item item };

    ghost free: { (before : List Self) (half : Self) → Self.follows before half };
}
