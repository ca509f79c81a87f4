//! What a schedule says.
ghost use Rattle.std.specs.Prelude.{◌≡◌, ◌<◌, [], ◌∷◌, ◌++◌, OnOk, length, get_or};
ghost use Rattle.std.specs.Bool.{OnTrue};

use bumpalo::Bump;
use pc_base::Place;
use std::alloc::AllocError;
use std::marker::Model;

/// What becomes of a line: whether it is taken or refused, and whether its packet is parked.
#[derive(Clone, Copy)]
pub struct LineOutcome {
    pub taken: bool,
    pub parked: bool,
}

impl Model for LineOutcome {
    ghost use Rattle.epoch_schedule.specs.Front as front;

    ghost Value = { front.Outcome };

    ghost view = { λ outcome. record { taken = outcome.taken; parked = outcome.parked } };

    ghost inverse = { λ outcome. record { taken = outcome.taken; parked = outcome.parked } };
}

/// How many commands of the epoch a packet meets, and where it is handled.
#[derive(Clone, Copy)]
pub struct Met {
    pub commands: usize,
    pub place: Place,
}

impl Model for Met {
    ghost use Rattle.epoch_schedule.specs.Slots as slots;

    ghost Value = { slots.Met };

    ghost view = { λ met. record { commands = met.commands; place = met.place } };

    ghost inverse = { λ met. record { commands = met.commands; place = met.place } };
}

/// Whether two packets meet the same.
fn is_same(one: &Met, other: &Met) -> bool
    ensures { OnTrue result (one.now ≡ other.now) }
{
    one.commands == other.commands && one.place == other.place
}

/// What the packets of a slot meet, in their order. Those at the front that meet the same are counted alone, but for
/// many packets, which are listed at once.
#[derive(Drop)]
pub struct SlotMets<'b> {
    first: Met,
    same: u32,
    listed: bool,
    others: Vec<Met, &'b Bump>,
}

impl<'b> Model for SlotMets<'b> {
    ghost use Rattle.std.specs.Prelude.{List, ◌++◌, replicate};
    ghost use Rattle.epoch_schedule.specs.Slots as slots;

    ghost Value = { List slots.Met };

    ghost view = { λ met. replicate met.same met.first ++ met.others.items };
}

impl<'b> SlotMets<'b> {
    pub fn new(arena: &'b Bump) -> SlotMets<'b>
        ensures { result ≡ [] }
    {
        SlotMets {
            first: Met {
                commands: 0,
                place: Place::Closing,
            },
            same: 0,
            listed: false,
            others: Vec::new(arena),
        }
    }

    /// How many packets there are.
    pub fn len(&self) -> usize
        ensures { result ≡ length self.now }
    {
        self.same as usize + self.others.len()
    }

    /// What the packet of this number meets.
    pub fn at(&self, number: usize) -> Met
        requires { number < length self.now }
        ensures { result ≡ get_or self.now number result }
    {
        let same = self.same as usize;
        if number < same {
            return self.first;
        }
        self.others[number - same]
    }

    /// Makes room for so many packets more, but for few.
    pub fn make_room(&mut self, packets: usize) -> Result<(), AllocError>
        ensures { OnOk result (self.new ≡ self.old) }
    {
        if packets > 4 {
            self.listed = true;
            return self.others.reserve_exact(packets);
        }
        Ok(())
    }

    /// One more packet.
    #[inline(always)]
    pub fn push(&mut self, met: Met) -> Result<(), AllocError>
        ensures { OnOk result (self.new ≡ self.old ++ met ∷ []) }
    {
        if self.listed {
            self.others.push(met)?;
            return Ok(());
        }
        self.push_counted(met)
    }

    /// The same, counted where it meets what those before it met.
    fn push_counted(&mut self, met: Met) -> Result<(), AllocError>
        ensures { OnOk result (self.new ≡ self.old ++ met ∷ []) }
    {
        if self.others.is_empty() && self.same < u32::MAX {
            if self.same == 0 {
                self.first = met;
                self.same = 1;
                return Ok(());
            }
            if is_same(&self.first, &met) {
                self.same += 1;
                return Ok(());
            }
        }
        self.others.push(met)?;
        Ok(())
    }
}
