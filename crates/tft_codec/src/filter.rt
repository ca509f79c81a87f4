//! Packet filters, and lists of them.

ghost use Rattle.std.specs.Prelude.{◌≡◌, ◌↔◌, IsTrue, ◌≤◌, IfSome, IfNone, IfOk, [], length, nat_eq};
ghost use Rattle.std.specs.List.{list_any};
ghost use Rattle.std.specs.Cmp.Rules.{comparing};
ghost use Rattle.std.specs.Cmp.Lexicographic.{pointwise, lists_per, lists_equiv};
ghost use Rattle.std.proofs.Common.{rules};
ghost use Rattle.tft_codec.specs.Component.{has};
ghost use Rattle.tft_codec.specs.Filter.{ids, IsFilter, AreFilters, ArePacketFilters, AreIds};

use crate::NoMemory;
use crate::component::Components;
use std::alloc::Global;
use std::marker::Model;

/// Direction of a filter from before Release 7, which counts as downlink (TS 24.008, 10.5.6.12, as
/// those below).
pub const BEFORE_RELEASE_7: u8 = 0;

/// Direction of a filter for packets to the user.
pub const DOWNLINK_ONLY: u8 = 1;

/// Direction of a filter for packets from the user.
pub const UPLINK_ONLY: u8 = 2;

/// Direction of a filter for packets both ways.
pub const BIDIRECTIONAL: u8 = 3;

/// A packet filter: a packet fits it where it fits each component.
#[derive(Debug, Drop, PartialEq, Eq)]
pub struct Filter {
    /// The packet filter identifier, below 16.
    pub id: u8,
    /// `BEFORE_RELEASE_7`, `DOWNLINK_ONLY`, `UPLINK_ONLY` or `BIDIRECTIONAL`.
    pub direction: u8,
    /// The evaluation precedence: the lowest is looked at first.
    pub precedence: u8,
    pub components: Components,
}

impl Filter {
    /// A copy of the filter.
    pub fn try_clone(&self) -> Result<Filter, NoMemory>
        ensures { IfOk result (λ copy. copy ≡ self.now) }
    {
        Ok(Filter {
            id: self.id,
            direction: self.direction,
            precedence: self.precedence,
            components: self.components.try_clone()?,
        })
    }
}

/// Whether the numbers of a filter fit their bits.
fn is_filter(filter: &Filter) -> bool
    ensures { IsTrue result ↔ IsFilter filter.now }
{
    let _components = filter.components.as_slice();
    let _precedence = filter.precedence;
    filter.id < 16 && filter.direction < 4
}

/// Whether one of the filters has that identifier.
pub(crate) fn has_id(filters: &[Filter], id: u8) -> bool
    ensures { result ≡ list_any (λ f. nat_eq id f.id) filters.now }
{
    filters.iter().any(|filter| id == filter.id)
}

/// Whether a list of filters may be a bearer's.
fn are_filters(items: &[Filter]) -> bool
    ensures { IsTrue result ↔ AreFilters items.now }
{
    for (i, item) in items.iter().enumerate() {
        if !is_filter(item) || has_id(&items[..i], item.id) {
            return false;
        }
    }
    true
}

/// The copies of some filters.
pub(crate) fn copies(alloc: Global, items: &[Filter]) -> Result<Vec<Filter>, NoMemory>
    ensures { IfOk result (λ copy. copy.items ≡ items.now) }
{
    let mut copy = Vec::new(alloc);
    for item in items {
        copy.push(item.try_clone()?)?;
    }
    Ok(copy)
}

/// The filters of a bearer: none to 16, with different identifiers.
#[derive(Debug, Drop)]
pub struct Filters {
    pub(crate) items: Vec<Filter>,
}

impl Model for Filters {
    ghost use Rattle.std.specs.Prelude.{List};
    ghost use Rattle.tft_codec.specs.declared.filter.Filter.{Filter};
    ghost use Rattle.tft_codec.specs.Filter.{AreFilters};

    ghost Value = { List Filter };

    ghost view = { λ fs. fs.items.items };

    ghost invariant = { λ fs. AreFilters fs.items.items };
}

impl Filters {
    /// No filters.
    pub fn new(alloc: Global) -> Filters
        ensures { result ≡ [] }
    {
        Filters {
            items: Vec::new(alloc),
        }
    }

    /// The filters of a list; `None` where a number is out of its range, or two have one identifier.
    pub fn of(items: Vec<Filter>) -> Option<Filters>
        ensures made { IfSome result (λ fs. (fs ≡ items.items) × AreFilters items.items) }
        ensures none { IfNone result (AreFilters items.items → ⊥) }
    {
        if are_filters(&items) {
            Some(Filters { items })
        } else {
            None
        }
    }

    pub fn as_slice(&self) -> &[Filter]
        ensures value { result.now ≡ self.now }
        ensures valid { AreFilters self.now }
        ensures few { length self.now ≤ 16 }
    {
        &self.items
    }

    /// A copy of the list.
    pub fn try_clone(&self) -> Result<Filters, NoMemory>
        ensures { IfOk result (λ copy. copy ≡ self.now) }
    {
        let items = copies(*self.items.allocator(), &self.items)?;
        Ok(Filters { items })
    }
}

/// The packet filter list of a template: 1 to 15 filters, with different identifiers.
#[derive(Debug, Drop)]
pub struct PacketFilters {
    pub(crate) items: Vec<Filter>,
}

impl Model for PacketFilters {
    ghost use Rattle.std.specs.Prelude.{List};
    ghost use Rattle.tft_codec.specs.declared.filter.Filter.{Filter};
    ghost use Rattle.tft_codec.specs.Filter.{ArePacketFilters};

    ghost Value = { List Filter };

    ghost view = { λ fs. fs.items.items };

    ghost invariant = { λ fs. ArePacketFilters fs.items.items };
}

impl PacketFilters {
    /// The filters of a list; `None` where they are no 1 to 15, a number is out of its range, or two have one
    /// identifier.
    pub fn of(items: Vec<Filter>) -> Option<PacketFilters>
        ensures made { IfSome result (λ fs. (fs ≡ items.items) × ArePacketFilters items.items) }
        ensures none { IfNone result (ArePacketFilters items.items → ⊥) }
    {
        if !items.is_empty() && items.len() <= 15 && are_filters(&items) {
            Some(PacketFilters { items })
        } else {
            None
        }
    }

    pub fn as_slice(&self) -> &[Filter]
        ensures value { result.now ≡ self.now }
        ensures valid { ArePacketFilters self.now }
    {
        &self.items
    }

    /// A copy of the list.
    pub fn try_clone(&self) -> Result<PacketFilters, NoMemory>
        ensures { IfOk result (λ copy. copy ≡ self.now) }
    {
        let items = copies(*self.items.allocator(), &self.items)?;
        Ok(PacketFilters { items })
    }
}

/// Whether a number is in a list.
pub(crate) fn contains_id(ids: &[u8], id: u8) -> bool
    ensures { result ≡ has ids.now id }
{
    ids.iter().any(|other| id == *other)
}

/// The identifiers that a template removes: 1 to 15 different ones. They are made by reading.
#[derive(Debug, Drop)]
pub struct Ids {
    pub(crate) items: Vec<u8>,
}

impl Model for Ids {
    ghost use Rattle.std.specs.Prelude.{List, ℕ};
    ghost use Rattle.tft_codec.specs.Filter.{AreIds};

    ghost Value = { List ℕ };

    ghost view = { λ xs. xs.items.items };

    ghost invariant = { λ xs. AreIds xs.items.items };
}

impl Ids {
    pub fn as_slice(&self) -> &[u8]
        ensures value { result.now ≡ self.now }
        ensures valid { AreIds self.now }
    {
        &self.items
    }

    /// A copy of the list.
    pub fn try_clone(&self) -> Result<Ids, NoMemory>
        ensures { IfOk result (λ copy. copy ≡ self.now) }
    {
        Ok(Ids {
            items: self.items.clone()?,
        })
    }
}

impl PartialEq for Filters {
    ghost use Rattle.tft_codec.specs.contracts.filter.FilterPartialEq.TheImpl as filter;
    ghost use Rattle.tft_codec.specs.contracts.filter.FilterPartialEq.TheImpl.Laws.{laws-law};

    ghost eq = { pointwise filter.ghosts.eq };

    ghost laws = { lists_per laws-law };

    fn eq(&self, other: &Filters) -> bool {
        self.items == other.items
    }
}

impl Eq for Filters {
    ghost use Rattle.tft_codec.specs.contracts.filter.FilterEq.TheImpl.Laws.{laws-law};

    ghost laws = { lists_equiv laws-law };
}

impl PartialEq for PacketFilters {
    ghost use Rattle.tft_codec.specs.contracts.filter.FilterPartialEq.TheImpl as filter;
    ghost use Rattle.tft_codec.specs.contracts.filter.FilterPartialEq.TheImpl.Laws.{laws-law};

    ghost eq = { pointwise filter.ghosts.eq };

    ghost laws = { lists_per laws-law };

    fn eq(&self, other: &PacketFilters) -> bool {
        self.items == other.items
    }
}

impl Eq for PacketFilters {
    ghost use Rattle.tft_codec.specs.contracts.filter.FilterEq.TheImpl.Laws.{laws-law};

    ghost laws = { lists_equiv laws-law };
}

impl PartialEq for Ids {
    ghost eq = { pointwise nat_eq };

    ghost laws = { Prim.search (comparing, rules) };

    fn eq(&self, other: &Ids) -> bool {
        self.items == other.items
    }
}

impl Eq for Ids {
    ghost laws = { Prim.search (comparing, rules) };
}
