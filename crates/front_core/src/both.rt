//! Both sides of a front.
ghost use Rattle.std.specs.Prelude.{◌≡◌, ◌<◌, ℕ, [], ◌∷◌, ◌++◌, true, not, cond, filter, OnOk, IfOk, IfErr};
ghost use Rattle.std.specs.Prelude.{vec_len, vec_capacity};
ghost use Rattle.migration.specs.Places.{place_at, is_placed_at};
ghost use Rattle.migration.specs.Words.{roll_of, places_of};
ghost use Rattle.front_core.specs.Listing.{ListsMoving};
ghost use Rattle.front_core.specs.Placing.{ControlsPump};

use crate::NoMemory;
use migration::{DataNo, DataSide, Side};
use pc_base::{SliceNo, Slot};
use std::alloc::Global;
use std::sync::Wait;
use worker_core::{DataTraveller, Traveller, widen};

/// The side of the halves that commands meet, and the side of those that packets meet.
#[derive(Drop)]
pub struct BothSides<H: Traveller, F: DataTraveller> {
    pub controls: Side<H>,
    pub datas: DataSide<F>,
    /// Slots whose control half may be on its way, each once. All others' were sent, and nothing is asked of them.
    pub moving: Vec<Slot>,
    pub ghost listed: { ListsMoving (places_of controls) moving.items (vec_capacity moving) },
}

impl<H: Traveller, F: DataTraveller> BothSides<H, F> {
    ghost use Rattle.migration.specs.DataSteps.{no_item, is_full, refused_after};
    ghost use Rattle.migration.specs.DataWords.{refused_of};
    ghost use Rattle.front_core.specs.Placing.{DatasPump};
    ghost use Rattle.front_core.specs.Sides.{both_of, view_of};
    ghost use Rattle.front_core.specs.SidesSteps.{Settles, MayMove, SlotMoves, MayAdmit, SlotAdmits, MayGive, Received};
    ghost use Rattle.front_core.specs.SidesSteps.{AreLanes, WasFull};

    /// Both sides, without a slot.
    pub fn new(alloc: Global, controls: Side<H>, datas: DataSide<F>) -> BothSides<H, F>
        requires { places_of controls ≡ [] }
        ensures { (result.controls ≡ controls) × (result.datas ≡ datas) }
    {
        BothSides {
            controls,
            datas,
            moving: Vec::new(alloc),
        }
    }

    /// Pumps both, the control halves' side first; this one only while a control half may be on its way.
    pub fn pump<R: Wait>(&mut self, rt: &R)
        ensures settles { Settles H.name F.name (both_of self.old.controls self.old.datas)
            (both_of self.new.controls self.new.datas) }

        // What waits was offered, and waits on only where that lane was full; what could come home came.
        ensures controls { ControlsPump H.name H.hop_of self.old.controls self.new.controls }
        ensures datas { DatasPump self.old.datas self.new.datas }
        ensures count { refused_of self.new.datas ≡ refused_of self.old.datas }
    {
        pump_controls(rt, &mut self.controls, &mut self.moving);
        self.datas.pump(rt);
    }

    /// Moves an admitted slot to a slice. A control half that is at another one leaves it at this count.
    pub fn go<R: Wait>(&mut self, rt: &R, slot: Slot, slice: SliceNo, until: u64)
        requires { MayMove H.name F.name slot slice (both_of self.old.controls self.old.datas) }
        ensures { SlotMoves H.name F.name slot slice until (both_of self.old.controls self.old.datas)
            (both_of self.new.controls self.new.datas) }
    {
        let placed = self.controls.settled(slot);
        list(&mut self.moving, slot, placed);
        self.controls.go(rt, slot, slice, until);
        self.datas.go(rt, slot, slice);
    }

    /// Admits the two halves of a slot, the control half first, which are bound for a slice. Out of memory,
    /// they are dropped, and the sides may only be dropped.
    pub fn admit<R: Wait>(
        &mut self,
        rt: &R,
        control: H,
        data_half: F,
        slice: SliceNo,
        moved: bool,
    ) -> Result<(), NoMemory>
        requires may { MayAdmit H.name F.name (F.slot_at (F.name data_half)) slice
            (both_of self.old.controls self.old.datas) }
        requires one { H.slot_of (H.name control) ≡ F.slot_at (F.name data_half) }
        requires unhandled { F.handled data_half ≡ [] }
        ensures { OnOk result
            (SlotAdmits H.name F.name H.hop_of (F.slot_at (F.name data_half)) slice moved control data_half
            (both_of self.old.controls self.old.datas) (both_of self.new.controls self.new.datas)) }
    {
        let slot = control.slot();
        widen(&mut self.moving, slot.0 as usize + 1)?;
        let Ok(()) = self.controls.admit(rt, control, slice, 0) else {
            return Err(NoMemory);
        };
        let placed = self.controls.settled(slot);
        list(&mut self.moving, slot, !placed);
        let Ok(()) = self.datas.admit(rt, data_half, slice, moved) else {
            return Err(NoMemory);
        };
        Ok(())
    }

    /// Gives an item to the data half of its slot: into its slice's lane, or into its queue where it is parked, and
    /// says which. Refused, it comes back, and all else is as it was but that its half may have been sent.
    pub fn give<R: Wait>(&mut self, rt: &R, item: F::Item) -> Result<bool, DataNo<F::Item>>
        requires { MayGive H.name F.name (F.item_slot item) (both_of self.old.controls self.old.datas) }
        ensures given { OnOk result (Received H.name F.name (F.item_slot item) item
            (both_of self.old.controls self.old.datas) (both_of self.new.controls self.new.datas)) }
        ensures told { IfOk result (λ parked. parked
            ≡ (view_of H.name F.name (both_of self.old.controls self.old.datas) (F.item_slot item)).parks) }
        ensures refused { IfErr result (λ refusal. (no_item refusal ≡ item)
            × Settles H.name F.name (both_of self.old.controls self.old.datas)
            (both_of self.new.controls self.new.datas)) }

        // It is full only where the lane of a slice was, or the queue of the slot.
        ensures full { (lane : ℕ) → AreLanes lane (both_of self.old.controls self.old.datas)
            → IfErr result (λ refusal. is_full refusal ≡ true → WasFull H.name F.name (F.item_slot item) lane
            (both_of self.old.controls self.old.datas) (both_of self.new.controls self.new.datas)) }
        ensures count { refused_of self.new.datas ≡ refused_after result (refused_of self.old.datas) }
    {
        self.datas.give(rt, item)
    }
}

// Pumps the side of control halves, if one of them may be on its way. Where no order was offered none is elsewhere.
fn pump_controls<H: Traveller, R: Wait>(rt: &R, controls: &mut Side<H>, moving: &mut Vec<Slot>)
    requires listed { ListsMoving (places_of controls.old) moving.old.items (vec_capacity moving.old) }
    ensures roll { roll_of H.name controls.new ≡ roll_of H.name controls.old }
    ensures pumps { ControlsPump H.name H.hop_of controls.old controls.new }
    ensures listed { ListsMoving (places_of controls.new) moving.new.items (vec_capacity moving.new) }
{
    if moving.is_empty() {
        return;
    }
    if !controls.pump(rt) {
        return;
    }
    settle(controls, moving);
}

// Forgets those whose halves were sent.
fn settle<H: Traveller>(controls: &Side<H>, moving: &mut Vec<Slot>)
    ensures kept { moving.new.items ≡ filter (λ slot. not (is_placed_at (place_at (places_of controls.now) slot)))
        moving.old.items }
    ensures room { vec_capacity moving.new ≡ vec_capacity moving.old }
{
    moving.retain(|slot| !controls.settled(*slot));
}

// A slot joins those whose halves may be on their way.
fn list(moving: &mut Vec<Slot>, slot: Slot, joins: bool)
    requires { joins ≡ true → vec_len moving.old < vec_capacity moving.old }
    ensures items { moving.new.items ≡ moving.old.items ++ cond joins (slot ∷ []) [] }
    ensures room { vec_capacity moving.new ≡ vec_capacity moving.old }
{
    if joins {
        moving.push_reserved(slot);
    }
}
