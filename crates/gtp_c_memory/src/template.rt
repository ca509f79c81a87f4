//! A whole traffic flow template (TS 24.008, 10.5.6.12).
ghost use Rattle.std.specs.Prelude.{
  ◌≡◌,
  ◌≢◌,
  ◌≤◌,
  ◌⊎◌,
  length,
  map,
  take,
  IfSome,
  Some,
  None,
  IsTrue,
};
ghost use Rattle.tft_codec.specs.Refusal.{first_fault, first_octet_fault};
ghost use Rattle.gtp_c_base.specs.Filter.{filter_said, ids_said, tft_said};
ghost use Rattle.gtp_c_memory.specs.Template.{template_code, entry_count, operation_of, Tells, IsTooMany};

use gtp_c_base::code::{
    COMPONENT, NO_MEMORY, NO_ROOM, OPERATION, PARAMETERS, REPEATED_ID, SHORT, TRAILING,
};
use gtp_c_base::{TftComponent, TftFilter, struct_of};
use std::alloc::Global;
use tft_codec::{
    ADD_FILTERS, CREATE_TFT, DELETE_FILTERS, DELETE_TFT, Filter, NO_OPERATION, REPLACE_FILTERS,
    TBad, Tft, read,
};

fn template_code(bad: TBad) -> u32
    ensures { result ≡ template_code bad }
{
    match bad {
        TBad::Short => SHORT,
        TBad::Parameters => PARAMETERS,
        TBad::Operation => OPERATION,
        TBad::Component => COMPONENT,
        TBad::RepeatedId => REPEATED_ID,
        TBad::Trailing => TRAILING,
        TBad::NoMemory => NO_MEMORY,
    }
}

/// How many entries a template has.
fn entry_count(tft: &Tft) -> usize
    ensures { result ≡ entry_count tft.now }
{
    match tft {
        Tft::Create(filters) | Tft::Add(filters) | Tft::Replace(filters) => filters
            .as_slice()
            .len(),
        Tft::Remove(ids) => ids.as_slice().len(),
        Tft::Delete | Tft::Nothing => 0,
    }
}

/// Writes the structs of a bearer's filters to the start of others; false only where one has more than nine
/// components.
fn put_filters(filters: &[Filter], bearer: u8, entries: &mut [TftFilter]) -> bool
    requires { length filters.now ≤ length entries.old }
    ensures len { length entries.new ≡ length entries.old }
    ensures prefix { IsTrue result → map filter_said (take (length filters.now) entries.new) ≡ filters.now }
{
    if let [one, rest @ ..] = filters
        && let Some((first, others)) = entries.split_first_mut()
    {
        let Some(said) = struct_of(one, bearer) else {
            return false;
        };
        *first = said;
        return put_filters(rest, bearer, others);
    }
    true
}

/// The struct of an identifier that is removed.
fn entry_of(id: u8, bearer: u8) -> TftFilter
    ensures { result.id ≡ id }
{
    TftFilter {
        components: [TftComponent {
            first: 0,
            second: 0,
            kind: 0,
        }; 9],
        bearer,
        id,
        direction: 0,
        precedence: 0,
        count: 0,
    }
}

/// Writes the structs of identifiers to the start of others.
fn put_ids(ids: &[u8], bearer: u8, entries: &mut [TftFilter])
    requires { length ids.now ≤ length entries.old }
    ensures len { length entries.new ≡ length entries.old }
    ensures prefix { ids_said (take (length ids.now) entries.new) ≡ ids.now }
{
    if let [one, rest @ ..] = ids
        && let Some((first, others)) = entries.split_first_mut()
    {
        *first = entry_of(*one, bearer);
        put_ids(rest, bearer, others);
    }
}

/// The operation of a template.
fn operation_of(tft: &Tft) -> u8
    ensures { result ≡ operation_of tft.now }
{
    match tft {
        Tft::Create(_) => CREATE_TFT,
        Tft::Delete => DELETE_TFT,
        Tft::Add(_) => ADD_FILTERS,
        Tft::Replace(_) => REPLACE_FILTERS,
        Tft::Remove(_) => DELETE_FILTERS,
        Tft::Nothing => NO_OPERATION,
    }
}

/// Writes a template's entries to the start of a buffer.
fn put_entries(tft: &Tft, bearer: u8, entries: &mut [TftFilter]) -> bool
    requires { entry_count tft.now ≤ length entries.old }
    ensures { IsTrue result
        → tft_said (operation_of tft.now) (take (entry_count tft.now) entries.new) ≡ Some tft.now }
{
    match tft {
        Tft::Create(filters) | Tft::Add(filters) | Tft::Replace(filters) => {
            put_filters(filters.as_slice(), bearer, entries)
        }
        Tft::Remove(ids) => {
            put_ids(ids.as_slice(), bearer, entries);
            true
        }
        Tft::Delete | Tft::Nothing => true,
    }
}

/// Reads a whole template: its operation's code (table 10.5.162), and its filters as filters of a bearer, or, of a
/// removal, structs of the identifiers alone. `needed` is how many entries it has, also where the buffer is too short.
#[unsafe(no_mangle)]
pub extern "C" fn gtp_c_tft_read(
    alloc: Global,
    octets: &[u8],
    bearer: u8,
    operation: &mut u8,
    entries: &mut [TftFilter],
    needed: &mut usize,
) -> u32
    ensures read { result ≡ 0 → Tells octets.now operation.new (take needed.new entries.new) }
    ensures fault { IfSome (first_fault octets.now) (λ bad. (result ≡ 20) ⊎ (result ≡ template_code bad)) }
    ensures right { first_fault octets.now ≡ None → (result ≡ 0) ⊎ (result ≡ 20) ⊎ (result ≡ 21) ⊎ (result ≡ 14) }
    ensures room { result ≡ 21 → IsTooMany octets.now (length entries.old) needed.new }

    // What is wrong with the first octet is told without memory.
    ensures first_octet { IfSome (first_octet_fault octets.now) (λ bad. result ≡ template_code bad) }
    ensures refused { result ≢ 0 → operation.new ≡ operation.old }
{
    *needed = 0;
    let tft = match read(alloc, octets) {
        Err(bad) => return template_code(bad),
        Ok(tft) => tft,
    };
    let count = entry_count(&tft);
    *needed = count;
    if entries.len() < count {
        return NO_ROOM;
    }
    if !put_entries(&tft, bearer, entries) {
        return COMPONENT;
    }
    *operation = operation_of(&tft);
    0
}
