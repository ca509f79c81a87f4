//! How many slots are leaving each slice.
ghost use Rattle.std.specs.Prelude.{◌≡◌, ◌≤◌, ◌<◌, ◌+◌, ℕ, None, length, nat_lt, slice_index_or};
ghost use Rattle.migration.specs.DataLeavers.{Fewer, More, Shifts};

use pc_base::SliceNo;

/// How many slices there are at most.
const SLICES: usize = 64;

/// How many slots are leaving each slice, and any.
#[derive(Clone, Copy)]
pub struct Leavers {
    pub at: [u32; SLICES],
    pub all: u32,
}

impl Leavers {
    // None is leaving.
    pub fn none() -> Leavers
        ensures each { (slice : ℕ) → slice_index_or result.at slice 0 ≡ 0 }
        ensures all { result.all ≡ 0 }
    {
        Leavers {
            at: [0; SLICES],
            all: 0,
        }
    }

    // Whether one is leaving a slice.
    pub fn has(&self, slice: usize) -> bool
        ensures { result ≡ nat_lt 0 (slice_index_or self.now.at slice 0) }
    {
        match self.at.get(slice) {
            Some(many) => *many > 0,
            None => false,
        }
    }

    // A slot that was leaving one slice, or none, is leaving another one, or none.
    pub fn shift(&mut self, was: Option<SliceNo>, is: Option<SliceNo>)
        requires few { (self.old.all ≤ 65533) × ((slice : ℕ) → slice_index_or self.old.at slice 0 ≤ 65533) }
        requires there { (slice : ℕ) → was ≡ Some slice
            → (0 < self.old.all) × (0 < slice_index_or self.old.at slice 0) }
        ensures { Shifts was is self.old self.new }
    {
        self.take(was);
        self.add(is);
    }

    // It isn't leaving what it left.
    fn take(&mut self, was: Option<SliceNo>)
        requires { (slice : ℕ) → was ≡ Some slice
            → (0 < self.old.all) × (0 < slice_index_or self.old.at slice 0) }
        ensures { Shifts was None self.old self.new }
    {
        match was {
            Some(slice) => {
                self.all -= 1;
                fewer(&mut self.at, slice);
            }
            None => {}
        }
    }

    // It is leaving this.
    fn add(&mut self, is: Option<SliceNo>)
        requires { (self.old.all ≤ 65533) × ((slice : ℕ) → slice_index_or self.old.at slice 0 ≤ 65533) }
        ensures { Shifts None is self.old self.new }
    {
        match is {
            Some(slice) => {
                self.all += 1;
                more(&mut self.at, slice);
            }
            None => {}
        }
    }
}

fn fewer(at: &mut [u32], slice: SliceNo)
    requires long { length at.old ≡ 64 }
    requires there { 0 < slice_index_or at.old slice 0 }
    ensures { Fewer slice at.old at.new }
{
    at[slice.0 as usize] -= 1;
}

fn more(at: &mut [u32], slice: SliceNo)
    requires long { length at.old ≡ 64 }
    requires few { slice_index_or at.old slice 0 ≤ 65533 }
    ensures { More slice at.old at.new }
{
    at[slice.0 as usize] += 1;
}
