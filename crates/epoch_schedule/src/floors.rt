//! How many commands the accepted packets of a slot wait for.
ghost use Rattle.std.specs.Prelude.{◌≡◌, ◌++◌, ◌∷◌, [], OnOk, length, get_or};

use bumpalo::Bump;
use std::alloc::AllocError;
use std::marker::Model;

/// In the order of the packets. Those before the first one that waits for a command are counted alone.
#[derive(Drop)]
pub struct Floors<'b> {
    free: u32,
    others: Vec<usize, &'b Bump>,
}

impl<'b> Model for Floors<'b> {
    ghost use Rattle.std.specs.Prelude.{ℕ, List, ◌++◌, replicate};

    ghost Value = { List ℕ };

    ghost view = { λ floors. replicate floors.free 0 ++ floors.others.items };
}

impl<'b> Floors<'b> {
    pub fn new(arena: &'b Bump) -> Floors<'b>
        ensures { result ≡ [] }
    {
        Floors {
            free: 0,
            others: Vec::new(arena),
        }
    }

    /// How many packets there are.
    pub fn len(&self) -> usize
        ensures { result ≡ length self.now }
    {
        self.free as usize + self.others.len()
    }

    /// Makes room for so many packets more, but for few.
    pub fn make_room(&mut self, packets: usize) -> Result<(), AllocError>
        ensures { OnOk result (self.new ≡ self.old) }
    {
        if packets > 4 {
            return self.others.reserve_exact(packets);
        }
        Ok(())
    }

    /// One more packet, which waits for so many commands.
    pub fn push(&mut self, floor: usize) -> Result<(), AllocError>
        ensures { OnOk result (self.new ≡ self.old ++ floor ∷ []) }
    {
        if floor == 0 && self.others.is_empty() && self.free < u32::MAX {
            self.free += 1;
            return Ok(());
        }
        self.others.push(floor)?;
        Ok(())
    }

    /// How many commands the packet of this number waits for, none where there is no such packet.
    pub fn at(&self, number: usize) -> usize
        ensures { result ≡ get_or self.now number 0 }
    {
        let free = self.free as usize;
        if number < free {
            return 0;
        }
        let place = number - free;
        if place < self.others.len() {
            self.others[place]
        } else {
            0
        }
    }
}
