//! A template's operation on filters in the caller's memory (TS 24.008, 10.5.6.12).
ghost use Rattle.std.specs.Prelude.{
  ◌≡◌,
  ◌≢◌,
  ◌≤◌,
  ◌<◌,
  ◌+◌,
  ◌++◌,
  ◌==◌,
  length,
  map,
  take,
  Ok,
  Some,
  MatchOption,
  IfSome,
};
ghost use Rattle.std.specs.List.{list_all};
ghost use Rattle.tft_codec.specs.Apply.{applied, has_id, has_any, has_each, replaced, without};
ghost use Rattle.tft_codec.specs.Component.{has};
ghost use Rattle.gtp_c_base.specs.Filter.{filter_said, ids_said, tft_said};
ghost use Rattle.gtp_c.specs.Apply.{filters_said, apply_code, no_code, room_for};

use gtp_c_base::TftFilter;
use gtp_c_base::code::{EMPTY, ID_TAKEN, NO_ROOM, NO_SUCH_ID, OPERATION, TOO_MANY};
use tft_codec::{
    ADD_FILTERS, CREATE_TFT, DELETE_FILTERS, DELETE_TFT, NO_OPERATION, REPLACE_FILTERS,
};

/// As many filters as a bearer has, and entries as a template has.
const MOST_FILTERS: usize = 16;

const MOST_ENTRIES: usize = 15;

/// Whether a filter has this identifier.
fn has_id(filters: &[TftFilter], id: u8) -> bool
    ensures { result ≡ has_id (filters_said filters.now) id }
{
    match filters {
        [] => false,
        [one, rest @ ..] => id == one.id || has_id(rest, id),
    }
}

/// Whether a filter has the identifier of an entry.
fn any_taken(filters: &[TftFilter], entries: &[TftFilter]) -> bool
    ensures { result ≡ has_any (filters_said filters.now) (filters_said entries.now) }
{
    match entries {
        [] => false,
        [one, rest @ ..] => has_id(filters, one.id) || any_taken(filters, rest),
    }
}

/// Whether the identifiers of all entries are there.
fn all_there(filters: &[TftFilter], entries: &[TftFilter]) -> bool
    ensures each { result ≡ has_each (filters_said filters.now) (filters_said entries.now) }
    ensures ids { result ≡ list_all (has_id (filters_said filters.now)) (ids_said entries.now) }
{
    match entries {
        [] => true,
        [one, rest @ ..] => has_id(filters, one.id) && all_there(filters, rest),
    }
}

/// Whether this identifier is one of the entries'.
fn is_gone(entries: &[TftFilter], id: u8) -> bool
    ensures { result ≡ has (ids_said entries.now) id }
{
    match entries {
        [] => false,
        [one, rest @ ..] => id == one.id || is_gone(rest, id),
    }
}

/// Whether no filter is left without those of the entries' identifiers.
fn none_left(filters: &[TftFilter], entries: &[TftFilter]) -> bool
    ensures { result ≡ (length (without (filters_said filters.now) (ids_said entries.now)) == 0) }
{
    match filters {
        [] => true,
        [one, rest @ ..] => is_gone(entries, one.id) && none_left(rest, entries),
    }
}

/// The entry of the same identifier, or else the filter.
fn replacement(entries: &[TftFilter], filter: &TftFilter) -> TftFilter
    ensures { filter_said result ≡ replaced (filters_said entries.now) (filter_said filter.now) }
{
    match entries {
        [] => *filter,
        [one, rest @ ..] => {
            if filter.id == one.id {
                *one
            } else {
                replacement(rest, filter)
            }
        }
    }
}

/// Writes filters to the start of a buffer.
fn put_filters(filters: &[TftFilter], out: &mut [TftFilter])
    requires { length filters.now ≤ length out.old }
    ensures len { length out.new ≡ length out.old }
    ensures prefix { take (length filters.now) out.new ≡ filters.now }
{
    let (prefix, _) = out.split_at_mut(filters.len());
    prefix.copy_from_slice(filters);
}

/// Writes filters, and behind them entries, to the start of a buffer.
fn put_both(filters: &[TftFilter], entries: &[TftFilter], out: &mut [TftFilter])
    requires { length filters.now + length entries.now ≤ length out.old }
    ensures len { length out.new ≡ length out.old }
    ensures prefix { take (length filters.now + length entries.now) out.new ≡ filters.now ++ entries.now }
{
    let (prefix, rest) = out.split_at_mut(filters.len());
    prefix.copy_from_slice(filters);
    put_filters(entries, rest);
}

/// Writes filters, each replaced by the entry of its identifier, to the start of a buffer.
fn put_replaced(filters: &[TftFilter], entries: &[TftFilter], out: &mut [TftFilter])
    requires { length filters.now ≤ length out.old }
    ensures len { length out.new ≡ length out.old }
    ensures prefix { filters_said (take (length filters.now) out.new)
        ≡ map (replaced (filters_said entries.now)) (filters_said filters.now) }
{
    if let [one, rest @ ..] = filters
        && let Some((first, others)) = out.split_first_mut()
    {
        *first = replacement(entries, one);
        put_replaced(rest, entries, others);
    }
}

/// Writes the filters without those of the entries' identifiers to the start of a buffer, and says how many.
fn put_left(filters: &[TftFilter], entries: &[TftFilter], out: &mut [TftFilter]) -> usize
    requires { length filters.now ≤ length out.old }
    ensures len { length out.new ≡ length out.old }
    ensures few { result ≤ length filters.now }
    ensures prefix { filters_said (take result out.new)
        ≡ without (filters_said filters.now) (ids_said entries.now) }
{
    let [one, rest @ ..] = filters else {
        return 0;
    };
    if is_gone(entries, one.id) {
        return put_left(rest, entries, out);
    }
    let Some((first, others)) = out.split_first_mut() else {
        return 0;
    };
    *first = *one;
    1 + put_left(rest, entries, others)
}

/// Why an operation isn't applied; 0 where it is.
fn refusal_of(filters: &[TftFilter], operation: u8, entries: &[TftFilter]) -> u32
    ensures { MatchOption (tft_said operation entries.now) (result ≡ 13)
        (λ tft. result ≡ no_code (applied (filters_said filters.now) tft)) }
{
    match operation {
        CREATE_TFT | NO_OPERATION => 0,
        DELETE_TFT => if filters.is_empty() { EMPTY } else { 0 },
        ADD_FILTERS => if any_taken(filters, entries) {
            ID_TAKEN
        } else {
            0
        },
        REPLACE_FILTERS => if all_there(filters, entries) {
            0
        } else {
            NO_SUCH_ID
        },
        DELETE_FILTERS => {
            if !all_there(filters, entries) {
                NO_SUCH_ID
            } else if none_left(filters, entries) {
                EMPTY
            } else {
                0
            }
        }
        _ => OPERATION,
    }
}

/// How many structs an operation writes at most.
fn room_for(operation: u8, filters: usize, entries: usize) -> usize
    requires { filters + entries ≤ 31 }
    ensures { result ≡ room_for operation filters entries }
{
    match operation {
        CREATE_TFT => entries,
        DELETE_TFT => 0,
        ADD_FILTERS => filters + entries,
        _ => filters,
    }
}

/// Writes what an operation makes of filters, and says how many they are.
fn put_applied(
    filters: &[TftFilter],
    operation: u8,
    entries: &[TftFilter],
    out: &mut [TftFilter],
) -> usize
    requires few { length filters.now + length entries.now ≤ 31 }
    requires room { room_for operation (length filters.now) (length entries.now) ≤ length out.old }
    ensures { IfSome (tft_said operation entries.now)
        (λ tft. no_code (applied (filters_said filters.now) tft) ≡ 0
        → applied (filters_said filters.now) tft ≡ Ok (filters_said (take result out.new))) }
{
    match operation {
        CREATE_TFT => {
            put_filters(entries, out);
            entries.len()
        }
        ADD_FILTERS => {
            put_both(filters, entries, out);
            filters.len() + entries.len()
        }
        REPLACE_FILTERS => {
            put_replaced(filters, entries, out);
            filters.len()
        }
        DELETE_FILTERS => put_left(filters, entries, out),
        NO_OPERATION => {
            put_filters(filters, out);
            filters.len()
        }
        _ => 0,
    }
}

/// Writes the filters that a template's operation makes of others: `operation` is its code (table 10.5.162),
/// and `entries` are its filters, of a removal those whose identifiers go. `needed` is how many are written, or,
/// where the buffer is too short, how many it must have.
#[unsafe(no_mangle)]
pub extern "C" fn gtp_c_tft_apply(
    filters: &[TftFilter],
    operation: u8,
    entries: &[TftFilter],
    out: &mut [TftFilter],
    needed: &mut usize,
) -> u32
    ensures code { result ≡ apply_code filters.now operation entries.now (length out.old) }
    ensures made { result ≡ 0 → IfSome (tft_said operation entries.now)
        (λ tft. applied (filters_said filters.now) tft ≡ Ok (filters_said (take needed.new out.new))) }
    ensures room { result ≡ 21 → needed.new ≡ room_for operation (length filters.now) (length entries.now) }
    ensures refused { result ≢ 0 → out.new ≡ out.old }
{
    *needed = 0;
    if filters.len() > MOST_FILTERS || entries.len() > MOST_ENTRIES {
        return TOO_MANY;
    }
    let refused = refusal_of(filters, operation, entries);
    if refused != 0 {
        return refused;
    }
    let room = room_for(operation, filters.len(), entries.len());
    if out.len() < room {
        *needed = room;
        return NO_ROOM;
    }
    *needed = put_applied(filters, operation, entries, out);
    0
}
