//! A template on the filters of a bearer.

ghost use Rattle.std.specs.Prelude.{◌≡◌, ◌++◌, IfOk, IfErr, map, not};
ghost use Rattle.std.specs.List.{list_any, list_all};
ghost use Rattle.wire_octets.specs.Memory.{OrNoMemory};
ghost use Rattle.tft_codec.specs.Component.{has};
ghost use Rattle.tft_codec.specs.Apply.{applied, has_id, has_any, has_each, replaced, without};

use crate::NoMemory;
use crate::fault::TftNo;
use crate::filter::{Filter, Filters, contains_id, copies, has_id};
use crate::tft::Tft;
use std::alloc::Global;

/// Whether one of the filters has an identifier of the others.
fn any_taken(filters: &[Filter], others: &[Filter]) -> bool
    ensures { result ≡ has_any filters.now others.now }
{
    others.iter().any(|other| has_id(filters, other.id))
}

/// Whether the identifiers of all the others are there.
fn all_there(filters: &[Filter], others: &[Filter]) -> bool
    ensures { result ≡ has_each filters.now others.now }
{
    others.iter().all(|other| has_id(filters, other.id))
}

/// Whether all the identifiers are there.
fn ids_there(filters: &[Filter], ids: &[u8]) -> bool
    ensures { result ≡ list_all (has_id filters.now) ids.now }
{
    ids.iter().all(|id| has_id(filters, *id))
}

/// Whether a filter has another identifier than all these.
fn any_left(filters: &[Filter], gone: &[u8]) -> bool
    ensures { result ≡ list_any (λ f. not (has gone.now f.id)) filters.now }
{
    filters.iter().any(|filter| !contains_id(gone, filter.id))
}

/// The new filter of the same identifier, or else this one.
fn replacement<'a>(new: &'a [Filter], filter: &'a Filter) -> &'a Filter
    ensures { result.now ≡ replaced new.now filter.now }
{
    for other in new {
        if filter.id == other.id {
            return other;
        }
    }
    filter
}

fn add(alloc: Global, filters: &[Filter], new: &[Filter]) -> Result<Vec<Filter>, NoMemory>
    ensures { IfOk result (λ v. v.items ≡ filters.now ++ new.now) }
{
    let mut items = copies(alloc, filters)?;
    for filter in new {
        items.push(filter.try_clone()?)?;
    }
    Ok(items)
}

fn replace(alloc: Global, filters: &[Filter], new: &[Filter]) -> Result<Vec<Filter>, NoMemory>
    ensures { IfOk result (λ v. v.items ≡ map (replaced new.now) filters.now) }
{
    let mut items = Vec::new(alloc);
    for filter in filters {
        items.push(replacement(new, filter).try_clone()?)?;
    }
    Ok(items)
}

fn remove(alloc: Global, filters: &[Filter], gone: &[u8]) -> Result<Vec<Filter>, NoMemory>
    ensures { IfOk result (λ v. v.items ≡ without filters.now gone.now) }
{
    let mut items = Vec::new(alloc);
    for filter in filters {
        if !contains_id(gone, filter.id) {
            items.push(filter.try_clone()?)?;
        }
    }
    Ok(items)
}

/// The filters that the template makes of a bearer's. The list that is given stays as it is.
pub fn apply(alloc: Global, list: &Filters, tft: &Tft) -> Result<Filters, TftNo>
    ensures made { OrNoMemory result (applied list.now tft.now) TftNo.NoMemory }

    // A refusal needs no memory, nor does a deletion.
    ensures refused { IfErr (applied list.now tft.now) (λ no. result ≡ Err no) }
    ensures deleted { tft.now ≡ Tft.Delete → result ≡ applied list.now tft.now }
{
    let filters = list.as_slice();
    match tft {
        Tft::Create(new) => {
            let items = copies(alloc, new.as_slice())?;
            Ok(Filters { items })
        }
        Tft::Delete => {
            if filters.is_empty() {
                return Err(TftNo::Empty);
            }
            Ok(Filters::new(alloc))
        }
        Tft::Add(new) => {
            let new = new.as_slice();
            if any_taken(filters, new) {
                return Err(TftNo::IdTaken);
            }
            let items = add(alloc, filters, new)?;
            Ok(Filters { items })
        }
        Tft::Replace(new) => {
            let new = new.as_slice();
            if !all_there(filters, new) {
                return Err(TftNo::NoSuchId);
            }
            let items = replace(alloc, filters, new)?;
            Ok(Filters { items })
        }
        Tft::Remove(ids) => {
            let ids = ids.as_slice();
            if !ids_there(filters, ids) {
                return Err(TftNo::NoSuchId);
            }
            if !any_left(filters, ids) {
                return Err(TftNo::Empty);
            }
            let items = remove(alloc, filters, ids)?;
            Ok(Filters { items })
        }
        Tft::Nothing => Ok(list.try_clone()?),
    }
}
