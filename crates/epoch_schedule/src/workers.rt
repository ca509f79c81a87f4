//! The numbers of the workers of a slice.
ghost use Rattle.std.specs.Prelude.{◌≡◌, ◌<◌, ◌++◌, ◌∷◌, [], ◌&&◌, None, Some, OnOk, IfNone, IfSome};
ghost use Rattle.std.specs.Prelude.{length, drop, map, replicate, nat_lt, get_or};
ghost use Rattle.epoch_schedule.specs.World as world;
ghost use Rattle.epoch_schedule.specs.ControlTurns as control;
ghost use Rattle.epoch_schedule.specs.DataTurns as data_half;
ghost use Rattle.epoch_schedule.specs.WorldNumbers.{control_order, data_order};
ghost use Rattle.epoch_schedule.specs.Lanes.{Takes};
ghost use Rattle.epoch_schedule.specs.Rounds as rounds;

use crate::roster::Roster;
use crate::slot::SlotNumbers;
use crate::standing::{ControlOrder, HeldControl, OrderNumbers};
use std::alloc::{AllocError, Global};
use std::collections::VecDeque;
use std::marker::Model;

/// The control worker of a slice: its orders, the halves that it holds, and those that it sent home.
#[derive(Drop)]
pub struct ControlNumbers {
    orders: VecDeque<ControlOrder>,
    roster: Roster,
    home: Vec<usize>,
}

impl Model for ControlNumbers {
    ghost use Rattle.std.specs.Prelude.{map};
    ghost use Rattle.epoch_schedule.specs.World.{ControlNow};
    ghost use Rattle.epoch_schedule.specs.WorldNumbers.{control_order};

    ghost Value = { ControlNow };

    ghost view = { λ worker. record {
      orders = map control_order worker.orders.items;
      held = worker.roster.held;
      home = worker.home.items;
      cursor = worker.roster.cursor;
    } };
}

impl ControlNumbers {
    pub fn new(alloc: Global) -> ControlNumbers
        ensures { result ≡ world.fresh_control }
    {
        ControlNumbers {
            orders: VecDeque::new(alloc),
            roster: Roster::new(alloc),
            home: Vec::new(alloc),
        }
    }

    /// The halves that it holds.
    pub fn roster(&self) -> &Roster
        ensures { result.now ≡ record { held = self.now.held; cursor = self.now.cursor } }
    {
        &self.roster
    }

    /// How many orders wait.
    pub fn waiting(&self) -> usize
        ensures { result ≡ length self.now.orders }
    {
        self.orders.len()
    }

    pub fn order(&mut self, order: ControlOrder) -> Result<(), AllocError>
        ensures { OnOk result (self.new ≡ record self.old { orders = self.old.orders ++ control_order order ∷ [] }) }
    {
        self.orders.push_back(order)?;
        Ok(())
    }

    /// Takes the first order.
    pub fn take(&mut self) -> Option<ControlOrder>
        ensures none { IfNone result ((self.old.orders ≡ []) × (self.new ≡ self.old)) }
        ensures first { IfSome result (λ order. self.old.orders ≡ control_order order ∷ drop 1 self.old.orders) }
        ensures rest { IfSome result (λ order. self.new ≡ record self.old { orders = drop 1 self.old.orders }) }
    {
        self.orders.pop_front()
    }

    /// The halves that it sent home.
    pub fn home(&self) -> &[usize]
        ensures { result.now ≡ self.now.home }
    {
        self.home.as_slice()
    }

    pub fn clear_home(&mut self)
        ensures { self.new ≡ record self.old { home = [] } }
    {
        self.home.clear();
    }

    /// The turn of the half behind that of a place.
    pub fn set_behind_place(&mut self, place: usize)
        ensures { self.new ≡ record self.old { cursor = world.cursor_next place (length self.old.held) } }
    {
        self.roster.set_behind_place(place);
    }

    /// The turn of the half behind that of a slot.
    pub fn set_behind(&mut self, slot: usize)
        ensures { self.new ≡ record self.old {
          cursor = world.cursor_next (rounds.place_held slot self.old.held) (length self.old.held);
        } }
    {
        self.roster.set_behind(slot);
    }

    /// A half comes, of one of so many slots.
    pub fn hold(&mut self, alloc: Global, slots: usize, slot: usize) -> Result<(), AllocError>
        ensures { OnOk result (self.new ≡ control.behind_order self.old (world.come slot)) }
    {
        self.roster.tidy(alloc)?;
        self.roster.make_room(slots)?;
        self.roster.push(HeldControl { slot, until: None })
    }

    /// A half is marked: it goes home once so many commands are done.
    pub fn mark(&mut self, alloc: Global, slot: usize, until: usize) -> Result<(), AllocError>
        ensures { OnOk result (self.new ≡ control.behind_order self.old (world.go slot until)) }
    {
        self.roster.mark(alloc, slot, until)
    }

    /// Whether a half is done, and there is room to send it home.
    pub fn may_send(&self, slots: &[SlotNumbers<'_>]) -> bool
        ensures { result ≡ (nat_lt (length self.now.home) 64 && nat_lt
            (control.place_done (record { slots = slots.now; controls = []; datas = [] }) self.now.held)
            (length self.now.held)) }
    {
        self.home.len() < 64 && self.roster.has_done(slots)
    }

    /// The first half that is done goes home.
    pub fn send_done(&mut self, slots: &[SlotNumbers<'_>]) -> Result<(), AllocError>
        requires { control.place_done (record { slots = slots.now; controls = []; datas = [] }) self.old.held
            < length self.old.held }
        ensures { OnOk result (self.new ≡ control.sent_home self.old
            (control.place_done (record { slots = slots.now; controls = []; datas = [] }) self.old.held)) }
    {
        let slot = self.roster.take_done(slots);
        self.home.push(slot)?;
        Ok(())
    }
}

/// The data worker of a slice: also a half that waits to go home, and a kept packet.
#[derive(Drop)]
pub struct DataNumbers {
    orders: VecDeque<OrderNumbers>,
    roster: Roster,
    home: Vec<usize>,
    waiting: Option<usize>,
    kept: Option<usize>,
}

impl Model for DataNumbers {
    ghost use Rattle.std.specs.Prelude.{map};
    ghost use Rattle.epoch_schedule.specs.World.{DataNow};
    ghost use Rattle.epoch_schedule.specs.WorldNumbers.{data_order};
    ghost use Rattle.epoch_schedule.specs.Rounds.{slots_held};

    ghost Value = { DataNow };

    ghost view = { λ worker. record {
      orders = map data_order worker.orders.items;
      held = slots_held worker.roster.held;
      home = worker.home.items;
      cursor = worker.roster.cursor;
      waiting = worker.waiting;
      kept = worker.kept;
    } };
}

impl DataNumbers {
    pub fn new(alloc: Global) -> DataNumbers
        ensures { result ≡ world.fresh_data }
    {
        DataNumbers {
            orders: VecDeque::new(alloc),
            roster: Roster::new(alloc),
            home: Vec::new(alloc),
            waiting: None,
            kept: None,
        }
    }

    /// How many orders wait.
    pub fn lane_len(&self) -> usize
        ensures { result ≡ length self.now.orders }
    {
        self.orders.len()
    }

    pub fn order(&mut self, order: OrderNumbers) -> Result<(), AllocError>
        ensures { OnOk result (self.new ≡ record self.old { orders = self.old.orders ++ data_order order ∷ [] }) }
    {
        self.orders.push_back(order)?;
        Ok(())
    }

    /// So many packets of a slot.
    pub fn order_items(&mut self, slot: usize, count: usize) -> Result<(), AllocError>
        ensures { OnOk result
            (self.new ≡ record self.old { orders = self.old.orders ++ replicate count (world.item slot) }) }
    {
        for _ in 0..count {
            self.order(OrderNumbers::Item(slot))?;
        }
        Ok(())
    }

    /// The halves that it sent home.
    pub fn home(&self) -> &[usize]
        ensures { result.now ≡ self.now.home }
    {
        self.home.as_slice()
    }

    pub fn clear_home(&mut self)
        ensures { self.new ≡ record self.old { home = [] } }
    {
        self.home.clear();
    }

    /// The slot of the half whose turn is next, if there is one; then that of the one behind it.
    #[tactic(auto, using(crate::proofs::Order::slots_count, crate::proofs::Order::slots_at))]
    pub fn go_round(&mut self) -> Option<usize>
        ensures none { IfNone result ((self.old.held ≡ []) × (self.new ≡ self.old)) }
        ensures some { IfSome result (λ slot. 0 < length self.old.held) }
        ensures slot { IfSome result (λ slot. slot ≡ get_or self.old.held self.old.cursor 0) }
        ensures round { IfSome result (λ slot. self.new
            ≡ record self.old { cursor = world.cursor_next self.old.cursor (length self.old.held) }) }
    {
        if self.roster.len() == 0 {
            return None;
        }
        Some(self.roster.go_round())
    }

    pub fn waiting(&self) -> Option<usize>
        ensures { result ≡ self.now.waiting }
    {
        self.waiting
    }

    /// Takes the lane's first order.
    fn take(&mut self) -> Option<OrderNumbers>
        ensures none { IfNone result ((self.old.orders ≡ []) × (self.new ≡ self.old)) }
        ensures first { IfSome result (λ order. self.old.orders ≡ data_order order ∷ drop 1 self.old.orders) }
        ensures rest { IfSome result (λ order. self.new ≡ record self.old { orders = drop 1 self.old.orders }) }
    {
        self.orders.pop_front()
    }

    /// Takes the next order: a kept packet comes first.
    pub fn take_next(&mut self) -> Option<OrderNumbers>
        ensures none { IfNone result ((self.old.kept ≡ None) × (self.old.orders ≡ []) × (self.new ≡ self.old)) }
        ensures order { IfSome result (λ order.
            Takes self.old.kept self.old.orders self.old self.new (data_order order)) }
    {
        match self.kept {
            Some(slot) => {
                self.kept = None;
                Some(OrderNumbers::Item(slot))
            }
            None => self.take(),
        }
    }

    /// Keeps the packet of a slot.
    pub fn keep(&mut self, slot: usize)
        ensures { self.new ≡ record self.old { kept = Some slot } }
    {
        self.kept = Some(slot);
    }

    /// A half arrives, of one of so many slots.
    #[tactic(auto, using(crate::proofs::Order::slots_pushed))]
    pub fn hold(&mut self, alloc: Global, slots: usize, slot: usize) -> Result<(), AllocError>
        ensures { OnOk result (self.new ≡ record self.old { held = self.old.held ++ slot ∷ [] }) }
    {
        self.roster.tidy(alloc)?;
        self.roster.make_room(slots)?;
        self.roster.push(HeldControl { slot, until: None })
    }

    /// A half leaves, and waits.
    pub fn let_go(&mut self, slot: usize)
        ensures { self.new ≡ data_half.left self.old slot }
    {
        self.roster.take(slot);
        self.waiting = Some(slot);
    }

    /// The half that waits goes home.
    pub fn go_home(&mut self, slot: usize) -> Result<(), AllocError>
        ensures { OnOk result (self.new ≡ record self.old { home = self.old.home ++ slot ∷ []; waiting = None }) }
    {
        self.home.push(slot)?;
        self.waiting = None;
        Ok(())
    }
}
