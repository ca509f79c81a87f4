//! The fifth sentence: the first effect, charging record or open counter that differs from what the lines lead to.

ghost use Rattle.std.specs.Prelude.{◌≡◌, ℕ, ◌<◌, ◌↔◌, All, drop, find, filter_map, option_map};
ghost use Rattle.std.specs.Prelude.{◌+◌, ◌++◌, ◌∷◌, [], Contains, IfNone, IfOk, IfSome, IsTrue, None, OnOk, Some, map};
ghost use Rattle.report_lines.specs.declared.entry.ChargeEntry.{ChargeEntry};
ghost use Rattle.report_lines.specs.declared.entry.Entry.{Entry};
ghost use Rattle.audit_core.specs.Agreeing.{AgreeBySlot, AreBySlot, AreTold, each_slot, lent, of_slot};
ghost use Rattle.audit_core.specs.Agreeing.{slot_effected};
ghost use Rattle.audit_core.specs.Belonging.{effect_of, row_of};
ghost use Rattle.audit_core.specs.Charges.{AreOfSlots, IsFirstBeyond, IsTooMany, ItemBreak, ItemDiffers};
ghost use Rattle.audit_core.specs.Charges.{OpenBreakOf, OpenMissing, Surplus, same_life};
ghost use Rattle.audit_core.specs.Dues.{effects_lent};
ghost use Rattle.audit_core.specs.Entries.{opens_told, slot_charged};
ghost use Rattle.audit_core.specs.Matched.{entries_stood};
ghost use Rattle.audit_core.specs.Places.{first_of};
ghost use Rattle.audit_core.specs.Same.{SameUpTo, said_at};
ghost use Rattle.audit_core.specs.Sharing.{arranged, under};
ghost use Rattle.audit_core.specs.Telling.{said_of, tells};

use crate::NoMemory;
use crate::due_entries::{EffectDue, effect_due_said, told_effect, told_said};
use crate::report::Stood;
use crate::sharing::{Keyed, arranged, put, shares_of};
use crate::telling::{Break, SaidEntry, charge_said, tells};
use pc_base::Slot;
use report_lines::{ChargeEntry, EffectEntry, Entry};
use std::alloc::Global;

/// The effects among entries.
pub(crate) fn effects_told(alloc: Global, entries: &[Stood]) -> Result<Vec<&EffectEntry>, NoMemory>
    ensures { IfOk result (λ all. lent all.items ≡ filter_map effect_of (entries_stood entries.now)) }
{
    let mut all = Vec::new(alloc);
    for stood in entries {
        push_effect(&mut all, &stood.entry)?;
    }
    Ok(all)
}

fn push_effect<'a>(all: &mut Vec<&'a EffectEntry>, entry: &'a Entry) -> Result<(), NoMemory>
    ensures { OnOk result (lent all.new.items ≡ lent all.old.items ++ filter_map effect_of (entry.now ∷ [])) }
{
    match entry {
        Entry::Effect(effect) => Ok(all.push(effect)?),
        Entry::Line(_) => Ok(()),
        Entry::Charge(_) => Ok(()),
    }
}

/// The charging records among them.
pub(crate) fn rows_told(alloc: Global, entries: &[Stood]) -> Result<Vec<&ChargeEntry>, NoMemory>
    ensures { IfOk result (λ all. lent all.items ≡ filter_map row_of (entries_stood entries.now)) }
{
    let mut all = Vec::new(alloc);
    for stood in entries {
        push_row(&mut all, &stood.entry)?;
    }
    Ok(all)
}

fn push_row<'a>(all: &mut Vec<&'a ChargeEntry>, entry: &'a Entry) -> Result<(), NoMemory>
    ensures { OnOk result (lent all.new.items ≡ lent all.old.items ++ filter_map row_of (entry.now ∷ [])) }
{
    match entry {
        Entry::Charge(charge) => match charge {
            ChargeEntry::R { .. } => Ok(all.push(charge)?),
            ChargeEntry::O { .. } => Ok(()),
        },
        Entry::Line(_) => Ok(()),
        Entry::Effect(_) => Ok(()),
    }
}

/// The open counters among them.
pub(crate) fn opens_told(alloc: Global, entries: &[Stood]) -> Result<Vec<&ChargeEntry>, NoMemory>
    ensures { IfOk result (λ all. lent all.items ≡ opens_told (entries_stood entries.now)) }
{
    let mut all = Vec::new(alloc);
    for stood in entries {
        push_open(&mut all, &stood.entry)?;
    }
    Ok(all)
}

fn push_open<'a>(all: &mut Vec<&'a ChargeEntry>, entry: &'a Entry) -> Result<(), NoMemory>
    ensures { OnOk result (lent all.new.items ≡ lent all.old.items ++ opens_told (entry.now ∷ [])) }
{
    match entry {
        Entry::Charge(charge) => match charge {
            ChargeEntry::R { .. } => Ok(()),
            ChargeEntry::O { .. } => Ok(all.push(charge)?),
        },
        Entry::Line(_) => Ok(()),
        Entry::Effect(_) => Ok(()),
    }
}

// Whose effect it is.
fn slot_of_effect(effect: &EffectEntry) -> Slot
    ensures { result ≡ slot_effected effect.now }
{
    effect.slot
}

// Whose charge it is.
fn slot_of(charge: &ChargeEntry) -> Slot
    ensures { result ≡ slot_charged charge.now }
{
    match charge {
        ChargeEntry::R { slot, .. } => *slot,
        ChargeEntry::O { slot, .. } => *slot,
    }
}

// Items in order of their keys, which are below a count; those of one key as they stand. Mostly all do already.
fn in_slot_order<T: Copy + Drop>(
    alloc: Global,
    slots: usize,
    keyed: &[Keyed<T>],
) -> Result<Vec<T>, NoMemory>
    requires { (later : ℕ) → under (slots + later) keyed.now ≡ [] }
    ensures { IfOk result (λ all. all.items ≡ arranged slots keyed.now) }
{
    if are_in_order(keyed) {
        let mut all = Vec::with_capacity(alloc, keyed.len())?;
        for one in keyed {
            all.push(one.item)?;
        }
        return Ok(all);
    }
    arranged(alloc, slots, keyed)
}

fn are_in_order<T: Copy + Drop>(keyed: &[Keyed<T>]) -> bool
    ensures { (slots : ℕ) → ((later : ℕ) → under (slots + later) keyed.now ≡ []) → IsTrue result
        → map (λ one. one.item) keyed.now ≡ arranged slots keyed.now }
{
    let mut last = 0u64;
    for one in keyed {
        if one.key < last {
            return false;
        }
        last = one.key;
    }
    true
}

// The first effect of a slot that there isn't, and the first charge.
fn effect_of_none<'a>(told: &[&'a EffectEntry], slots: usize) -> Option<&'a EffectEntry>
    ensures some { IfSome result (λ one. IsFirstBeyond slot_effected slots (lent told.now) one.now) }
    ensures none { IfNone result (AreOfSlots slot_effected slots (lent told.now)) }
{
    for one in told {
        if slot_of_effect(one).0 as usize >= slots {
            return Some(*one);
        }
    }
    None
}

fn charge_of_none<'a>(told: &[&'a ChargeEntry], slots: usize) -> Option<&'a ChargeEntry>
    ensures some { IfSome result (λ one. IsFirstBeyond slot_charged slots (lent told.now) one.now) }
    ensures none { IfNone result (AreOfSlots slot_charged slots (lent told.now)) }
{
    for one in told {
        if slot_of(one).0 as usize >= slots {
            return Some(*one);
        }
    }
    None
}

// Entries that nothing was due for.
pub(crate) fn effect_beyond(alloc: Global, told: &EffectEntry) -> Result<Break, NoMemory>
    ensures { IfOk result (λ found. found ≡ tells (Some (Entry.Effect told.now)) None) }
{
    let said = told_said(alloc, told)?;
    tells(alloc, Some(said), None)
}

pub(crate) fn charge_beyond(alloc: Global, told: &ChargeEntry) -> Result<Break, NoMemory>
    ensures { IfOk result (λ found. found ≡ tells (Some (Entry.Charge told.now)) None) }
{
    let said = charge_said(alloc, told)?;
    tells(alloc, Some(said), None)
}

fn effects_by_slot<'a>(
    alloc: Global,
    effects: &[&'a EffectEntry],
) -> Result<Vec<Keyed<&'a EffectEntry>>, NoMemory>
    ensures { IfOk result (λ all. (slot : ℕ) → lent (under slot all.items)
        ≡ of_slot slot_effected slot (lent effects.now)) }
{
    let mut all = Vec::new(alloc);
    for effect in effects {
        all.push(Keyed {
            key: u64::from(effect.slot.0),
            item: *effect,
        })?;
    }
    Ok(all)
}

fn charges_by_slot<'a>(
    alloc: Global,
    charges: &[&'a ChargeEntry],
) -> Result<Vec<Keyed<&'a ChargeEntry>>, NoMemory>
    ensures { IfOk result (λ all. (slot : ℕ) → lent (under slot all.items)
        ≡ of_slot slot_charged slot (lent charges.now)) }
{
    let mut all = Vec::new(alloc);
    for charge in charges {
        all.push(Keyed {
            key: u64::from(slot_of(charge).0),
            item: *charge,
        })?;
    }
    Ok(all)
}

fn effect_at(alloc: Global, told: &[&EffectEntry], at: usize) -> Result<Option<SaidEntry>, NoMemory>
    ensures { IfOk result (λ said. said ≡ said_at Entry.Effect (lent told.now) at) }
{
    if at >= told.len() {
        return Ok(None);
    }
    Ok(Some(told_said(alloc, told[at])?))
}

fn effect_due(
    alloc: Global,
    due: &[EffectDue<'_>],
    at: usize,
) -> Result<Option<SaidEntry>, NoMemory>
    ensures { IfOk result (λ said. said ≡ said_at Entry.Effect (effects_lent due.now) at) }
{
    if at >= due.len() {
        return Ok(None);
    }
    Ok(Some(effect_due_said(alloc, &due[at])?))
}

fn charge_at(alloc: Global, told: &[&ChargeEntry], at: usize) -> Result<Option<SaidEntry>, NoMemory>
    ensures { IfOk result (λ said. said ≡ said_at Entry.Charge (lent told.now) at) }
{
    if at >= told.len() {
        return Ok(None);
    }
    Ok(Some(charge_said(alloc, told[at])?))
}

fn charge_due(alloc: Global, due: &[ChargeEntry], at: usize) -> Result<Option<SaidEntry>, NoMemory>
    ensures { IfOk result (λ said. said ≡ said_at Entry.Charge due.now at) }
{
    if at >= due.len() {
        return Ok(None);
    }
    Ok(Some(charge_said(alloc, &due[at])?))
}

// How many effects are the same before the first that differs.
fn same_effects(due: &[EffectDue<'_>], told: &[&EffectEntry]) -> usize
    ensures { SameUpTo (lent told.now) (effects_lent due.now) result }
{
    for at in 0..due.len() {
        if at >= told.len() {
            return at;
        }
        if !told_effect(&due[at], told[at]) {
            return at;
        }
    }
    due.len()
}

fn same_charges(due: &[ChargeEntry], told: &[&ChargeEntry]) -> usize
    ensures { SameUpTo (lent told.now) due.now result }
{
    for at in 0..due.len() {
        if at >= told.len() {
            return at;
        }
        if !same_charge(&due[at], told[at]) {
            return at;
        }
    }
    due.len()
}

// The first effect that differs, in order of slots.
fn effect_differs(
    alloc: Global,
    due: &[EffectDue<'_>],
    told: &[&EffectEntry],
) -> Result<Option<Break>, NoMemory>
    ensures some { IfOk result (λ found. IfSome found
        (ItemDiffers Entry.Effect (lent told.now) (effects_lent due.now))) }
    ensures none { IfOk result (λ found. IfNone found (lent told.now ≡ effects_lent due.now)) }
{
    let at = same_effects(due, told);
    if at >= due.len() && at >= told.len() {
        return Ok(None);
    }
    let stands = effect_at(alloc, told, at)?;
    let asked = effect_due(alloc, due, at)?;
    Ok(Some(tells(alloc, stands, asked)?))
}

fn row_differs(
    alloc: Global,
    due: &[ChargeEntry],
    told: &[&ChargeEntry],
) -> Result<Option<Break>, NoMemory>
    ensures some { IfOk result (λ found. IfSome found (ItemDiffers Entry.Charge (lent told.now) due.now)) }
    ensures none { IfOk result (λ found. IfNone found (lent told.now ≡ due.now)) }
{
    let at = same_charges(due, told);
    if at >= due.len() && at >= told.len() {
        return Ok(None);
    }
    let stands = charge_at(alloc, told, at)?;
    let asked = charge_due(alloc, due, at)?;
    Ok(Some(tells(alloc, stands, asked)?))
}

/// The first effect of an epoch of a slot that there isn't, or else that differs; None where each slot has those due.
pub(crate) fn effect_broken(
    alloc: Global,
    slots: usize,
    due: &[EffectDue<'_>],
    told: &[&EffectEntry],
) -> Result<Option<Break>, NoMemory>
    requires { AreBySlot slot_effected slots (effects_lent due.now) }
    ensures some { IfOk result (λ found. IfSome found
        (ItemBreak slot_effected Entry.Effect slots (lent told.now) (effects_lent due.now))) }
    ensures none { IfOk result (λ found. IfNone found
        (AgreeBySlot slot_effected (lent told.now) (effects_lent due.now))) }
{
    if let Some(beyond) = effect_of_none(told, slots) {
        return Ok(Some(effect_beyond(alloc, beyond)?));
    }
    let keyed = effects_by_slot(alloc, told)?;
    let told = in_slot_order(alloc, slots, keyed.as_slice())?;
    effect_differs(alloc, due, told.as_slice())
}

/// The same of charging records.
pub(crate) fn row_broken(
    alloc: Global,
    slots: usize,
    due: &[ChargeEntry],
    told: &[&ChargeEntry],
) -> Result<Option<Break>, NoMemory>
    requires { AreBySlot slot_charged slots due.now }
    ensures some { IfOk result (λ found. IfSome found
        (ItemBreak slot_charged Entry.Charge slots (lent told.now) due.now)) }
    ensures none { IfOk result (λ found. IfNone found (AgreeBySlot slot_charged (lent told.now) due.now)) }
{
    if let Some(beyond) = charge_of_none(told, slots) {
        return Ok(Some(charge_beyond(alloc, beyond)?));
    }
    let keyed = charges_by_slot(alloc, told)?;
    let told = in_slot_order(alloc, slots, keyed.as_slice())?;
    row_differs(alloc, due, told.as_slice())
}

// Whether two open counters are of one bearer's life.
fn same_life(one: &ChargeEntry, other: &ChargeEntry) -> bool
    ensures { result ≡ same_life one.now other.now }
{
    match (one, other) {
        (
            ChargeEntry::O { slot, counters },
            ChargeEntry::O {
                slot: own,
                counters: told,
            },
        ) => slot == own && counters.life == told.life,
        _ => false,
    }
}

// The open counters that are told of a bearer's life.
fn told_of_life(
    alloc: Global,
    due: &ChargeEntry,
    told: &[&ChargeEntry],
) -> Result<Option<SaidEntry>, NoMemory>
    ensures { IfOk result (λ said. said
        ≡ option_map said_of (option_map Entry.Charge (find (same_life due.now) (lent told.now)))) }
{
    for one in told {
        if same_life(due, one) {
            return Ok(Some(charge_said(alloc, one)?));
        }
    }
    Ok(None)
}

// Whether two charges are the same.
fn same_charge(one: &ChargeEntry, other: &ChargeEntry) -> bool
    ensures { IsTrue result ↔ (other.now ≡ one.now) }
{
    other == one
}

// Whether a charge is among some.
fn is_among(charge: &ChargeEntry, some: &[&ChargeEntry]) -> bool
    ensures { IsTrue result ↔ Contains (lent some.now) charge.now }
{
    for one in some {
        if same_charge(charge, one) {
            return true;
        }
    }
    false
}

// For each slot below a count its own of some charges.
fn dues_of(
    alloc: Global,
    slots: usize,
    due: &[ChargeEntry],
) -> Result<Vec<Vec<ChargeEntry>>, NoMemory>
    ensures { IfOk result (λ all. map (λ v. v.items) all.items ≡ each_slot slot_charged slots due.now) }
{
    let mut keyed = Vec::with_capacity(alloc, due.len())?;
    for charge in due {
        keyed.push(Keyed {
            key: u64::from(slot_of(charge).0),
            item: *charge,
        })?;
    }
    shares_of(alloc, slots, keyed.as_slice())
}

// Whether a charge is one of some.
fn is_one(charge: &ChargeEntry, some: &[ChargeEntry]) -> bool
    ensures { IsTrue result ↔ Contains some.now charge.now }
{
    for one in some {
        if same_charge(charge, one) {
            return true;
        }
    }
    false
}

// Whether open counters are told again, behind these, or are none of those due.
fn is_too_many(charge: &ChargeEntry, before: &[ChargeEntry], due: &[ChargeEntry]) -> bool
    ensures { IsTrue result ↔ IsTooMany due.now before.now charge.now }
{
    let again = is_one(charge, before);
    let known = is_one(charge, due);
    again || !known
}

// The place of the first open counters that are told again, or are of no bearer; or the end. Before them no more of a
// slot are told than are due, so its own are few.
fn surplus_at(
    alloc: Global,
    slots: usize,
    due: &[ChargeEntry],
    told: &[&ChargeEntry],
) -> Result<usize, NoMemory>
    requires { All (λ charge. slot_charged charge < slots) due.now }
    ensures { IfOk result (λ at. Surplus due.now (lent told.now) (first_of (drop at (lent told.now)))) }
{
    let known = dues_of(alloc, slots, due)?;
    let mut before = dues_of(alloc, slots, &[])?;
    for at in 0..told.len() {
        let charge = told[at];
        let slot = slot_of(charge).0 as usize;
        if slot >= slots {
            return Ok(at);
        }
        if is_too_many(charge, before[slot].as_slice(), known[slot].as_slice()) {
            return Ok(at);
        }
        put(
            &mut before,
            &Keyed {
                key: slot as u64,
                item: *charge,
            },
        )?;
    }
    Ok(told.len())
}

// The first open counters that are missing.
fn open_missing(
    alloc: Global,
    slots: usize,
    due: &[ChargeEntry],
    told: &[&ChargeEntry],
) -> Result<Option<Break>, NoMemory>
    requires { All (λ charge. slot_charged charge < slots) due.now }
    ensures some { IfOk result (λ found. IfSome found (OpenMissing (lent told.now) due.now)) }
    ensures none { IfOk result (λ found. IfNone found (All (Contains (lent told.now)) due.now)) }
{
    let keyed = charges_by_slot(alloc, told)?;
    let shares = shares_of(alloc, slots, keyed.as_slice())?;
    for charge in due {
        if !is_among(charge, shares[slot_of(charge).0 as usize].as_slice()) {
            let stands = told_of_life(alloc, charge, told)?;
            let asked = charge_said(alloc, charge)?;
            return Ok(Some(tells(alloc, stands, Some(asked))?));
        }
    }
    Ok(None)
}

/// The first open counters that are missing, or else too many; None where each of those due has its entry, of as many.
pub(crate) fn open_broken(
    alloc: Global,
    slots: usize,
    due: &[ChargeEntry],
    told: &[&ChargeEntry],
) -> Result<Option<Break>, NoMemory>
    requires { All (λ charge. slot_charged charge < slots) due.now }
    ensures some { IfOk result (λ found. IfSome found (OpenBreakOf (lent told.now) due.now)) }
    ensures none { IfOk result (λ found. IfNone found (AreTold (lent told.now) due.now)) }
{
    if let Some(found) = open_missing(alloc, slots, due, told)? {
        return Ok(Some(found));
    }
    if told.len() == due.len() {
        return Ok(None);
    }
    let at = surplus_at(alloc, slots, due, told)?;
    let surplus = charge_at(alloc, told, at)?;
    Ok(Some(tells(alloc, surplus, None)?))
}
