//! The half as one that stands on a slice's lane.
ghost use Rattle.std.specs.Prelude.{refl};
ghost use Rattle.std.proofs.Common.{◌∙◌, ap, sym};
ghost use Rattle.std.proofs.lemmas.List.{length-map};
ghost use Rattle.counter_half.specs.Named.{slot_of};

use crate::half::DataHalf;
use crate::{DataItem, DataName};
use lane_core::{Carried, NoMemory};
use pc_base::{SliceNo, Slot};
use std::sync::Wait;
use worker_core::{DataKind, DataTraveller};

impl<'p> Carried for DataHalf<'p> {}

impl<'p> DataKind for DataHalf<'p> {
    type Item = DataItem<'p>;

    ghost slot_of_half = { λ half. half.inner.value.state.started.session.slot };

    ghost slot_of_item = { λ item. item.slot };

    fn slot(&self) -> Slot {
        self.slot
    }

    fn slot_of(item: &DataItem<'p>) -> Slot {
        item.slot
    }
}

impl<'p> DataTraveller for DataHalf<'p> {
    ghost use Rattle.std.specs.Prelude.{length};
    ghost use Rattle.counter_half.specs.declared.items.PacketDone.{PacketDone};
    ghost use Rattle.counter_half.specs.Handled.{Handled, note_of, noted};
    ghost use Rattle.counter_half.specs.Half.{name_of, handled_by, places_of, may_take};
    ghost use Rattle.counter_half.specs.Half.{asks_of, learns_of, batches_of, empties_of, Awaits};

    type Name = DataName;

    ghost name = { name_of };

    ghost slot_at = { slot_of };

    ghost item_slot = { λ item. item.slot };

    ghost handled = { handled_by };

    ghost places = { places_of };

    ghost takes = { may_take };

    ghost asks = { asks_of };

    ghost learns = { learns_of };

    ghost batches = { batches_of };

    ghost empties = { empties_of };

    ghost awaits = { Awaits };

    fn learn<R: Wait>(&mut self, rt: &R, most: u32) -> Result<bool, NoMemory> {
        self.learn_at_most(rt, most)
    }

    fn may(&self, item: &DataItem<'p>) -> bool {
        self.may_handle(item)
    }

    fn item(&mut self, place: SliceNo, item: &DataItem<'p>) -> Result<(), NoMemory> {
        self.handle(place, item)
    }

    ghost each_placed = { λ half. length-map half.inner.value.state.notes.items (λ (done : PacketDone). done.place)
        ∙ sym (length-map half.inner.value.state.notes.items noted) ∙ ap length half.inner.value.state.handles.notes_are
        ∙ length-map half.inner.value.state.handled.items note_of
        ∙ sym (length-map half.inner.value.state.handled.items (λ (h : Handled). h.0)) };

    ghost half_slots = { λ half. refl };

    ghost item_slots = { λ item. refl };

    ghost free = { λ before half. tt };
}
