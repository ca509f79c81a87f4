//! Traffic flow templates.

ghost use Rattle.std.specs.Prelude.{◌≡◌, IfOk};
ghost use Rattle.tft_codec.specs.Tft.{IsTft};

use crate::NoMemory;
use crate::filter::{Filters, Ids, PacketFilters};

/// Operation code: create a new template (TS 24.008, table 10.5.162, as those below).
pub const CREATE_TFT: u8 = 1;

/// Operation code: delete the template.
pub const DELETE_TFT: u8 = 2;

/// Operation code: add packet filters.
pub const ADD_FILTERS: u8 = 3;

/// Operation code: replace packet filters.
pub const REPLACE_FILTERS: u8 = 4;

/// Operation code: delete packet filters.
pub const DELETE_FILTERS: u8 = 5;

/// Operation code: nothing is done.
pub const NO_OPERATION: u8 = 6;

/// A traffic flow template: an operation on the filters of a bearer.
#[derive(Debug, Drop, PartialEq, Eq)]
pub enum Tft {
    /// These are the filters.
    Create(PacketFilters),
    /// There are no filters any more.
    Delete,
    /// These come behind the others.
    Add(PacketFilters),
    /// Each stands in the place of the one of its identifier.
    Replace(PacketFilters),
    /// Those of these identifiers go.
    Remove(Ids),
    /// The filters stay.
    Nothing,
}

impl Tft {
    /// Each list is in the range that its type keeps.
    pub fn known(&self)
        ensures { IsTft self.now }
    {
        match self {
            Tft::Create(filters) | Tft::Add(filters) | Tft::Replace(filters) => {
                let _filters = filters.as_slice();
            }
            Tft::Remove(ids) => {
                let _ids = ids.as_slice();
            }
            Tft::Delete | Tft::Nothing => {}
        }
    }

    /// A copy of the template.
    pub fn try_clone(&self) -> Result<Tft, NoMemory>
        ensures { IfOk result (λ copy. copy ≡ self.now) }
    {
        match self {
            Tft::Create(filters) => Ok(Tft::Create(filters.try_clone()?)),
            Tft::Delete => Ok(Tft::Delete),
            Tft::Add(filters) => Ok(Tft::Add(filters.try_clone()?)),
            Tft::Replace(filters) => Ok(Tft::Replace(filters.try_clone()?)),
            Tft::Remove(ids) => Ok(Tft::Remove(ids.try_clone()?)),
            Tft::Nothing => Ok(Tft::Nothing),
        }
    }
}

impl Clone for Tft {
    ghost is_clone = { λ it copy. copy ≡ it };

    fn clone(&self) -> Result<Self, NoMemory> {
        self.try_clone()
    }
}

/// The filters of the bearer of that index.
#[derive(Debug, Drop, PartialEq, Eq)]
pub struct BearerFilters {
    pub index: u8,
    pub filters: Filters,
}

impl BearerFilters {
    /// A copy of the row.
    pub fn try_clone(&self) -> Result<BearerFilters, NoMemory>
        ensures { IfOk result (λ copy. copy ≡ self.now) }
    {
        Ok(BearerFilters {
            index: self.index,
            filters: self.filters.try_clone()?,
        })
    }
}
