//! The halves that a worker holds: which are told to leave, which is due, and a turn of each.
ghost use Rattle.std.specs.Prelude.{◌≡◌, ◌≢◌, ◌≤◌, ◌<◌, ◌+◌, ◌==◌, ◌++◌, ◌∷◌, [], ℕ, not, All, List, length, map};
ghost use Rattle.std.specs.Prelude.{true, false, vec_len, vec_capacity, slice_index_or, Some, IsNone, IfSome, IfOk};
ghost use Rattle.std.specs.List.{insert, position, filter};
ghost use Rattle.worker_core.specs.declared.order.Order.{Order};
ghost use Rattle.worker_core.specs.Leaves.{IsOrdered, IsTold, IsNoted, is_held, is_due, is_met};
ghost use Rattle.worker_core.specs.declared.order.Order.TheVariants.{Leave};
ghost use Rattle.worker_core.specs.Seeing.{AllSeen, SeenBehind, earlier, noted_at};
ghost use Rattle.worker_core.specs.Turns.{AreTurned, AllTurned, NoneWorked, WorkedAlone, WorkedRound};
ghost use Rattle.worker_core.specs.Turns.{count_at, works_after};
ghost use Rattle.worker_core.specs.Answered.{AnswersAt, AllRest, AnswersRound};
ghost use Rattle.lane_core.specs.declared.did.Did.TheVariants as answers;

use crate::worker::Leaving;
use crate::{Seen, Traveller};
use lane_core::{Did, NoMemory};
use pc_base::{SliceNo, Slot};
use std::sync::Wait;

/// How many items a half handles in a turn, at most.
const GRAIN: u32 = 8;

// The half of this slot, if it is held, is to leave at this count. What was noted of it before counts no more.
pub fn mark<H: Traveller>(
    seen: &Seen,
    held: &[H],
    leaving: &mut Vec<Leaving>,
    slot: Slot,
    until: u64,
)
    requires { vec_len leaving.old < vec_capacity leaving.old }
    ensures told { (came : List (Order H)) → All (IsTold came) leaving.old.items → IsOrdered came slot until
        → All (IsTold came) leaving.new.items }
    ensures noted { IsNoted (λ half. H.slot_of (H.name half)) held.now
        (Leave slot until) leaving.old.items leaving.new.items }
{
    let Some(_at) = find(seen, held, slot) else {
        return;
    };
    forget(leaving, slot);
    leaving.push_reserved(Leaving { slot, until });
}

// What is noted of the half of this slot goes.
pub fn forget(leaving: &mut Vec<Leaving>, slot: Slot)
    ensures kept { leaving.new.items ≡ filter (λ leaving. not (leaving.slot == slot)) leaving.old.items }
    ensures fewer { vec_len leaving.new ≤ vec_len leaving.old }
    ensures room { vec_capacity leaving.new ≡ vec_capacity leaving.old }
{
    leaving.retain(|leaving| leaving.slot != slot)
}

// The first half that is due home. Where it is known where each half stands, those that are noted are looked at alone.
pub fn find_due<H: Traveller>(
    seen: &Seen,
    known: bool,
    held: &[H],
    leaving: &[Leaving],
) -> Option<usize>
    requires { known ≡ true → AllSeen (λ half. H.slot_of (H.name half)) held.now seen.now }
    ensures { result ≡ position (λ half. is_due leaving.now (H.slot_of (H.name half)) (H.done_of half)) held.now }
{
    if known {
        due_of_notes(seen, held, leaving)
    } else {
        due_of_halves(held, leaving)
    }
}

// The same, by the notes.
fn due_of_notes<H: Traveller>(seen: &Seen, held: &[H], leaving: &[Leaving]) -> Option<usize>
    requires { AllSeen (λ half. H.slot_of (H.name half)) held.now seen.now }
    ensures { result ≡ position (λ half. is_due leaving.now (H.slot_of (H.name half)) (H.done_of half)) held.now }
{
    let mut first = None;
    for note in leaving {
        first = earlier(first, due_at(seen, held, note));
    }
    first
}

// Where the half that is noted stands, if it is due.
fn due_at<H: Traveller>(seen: &Seen, held: &[H], note: &Leaving) -> Option<usize>
    requires { AllSeen (λ half. H.slot_of (H.name half)) held.now seen.now }
    ensures { result ≡ position (λ half. is_met (H.slot_of (H.name half)) (H.done_of half) note.now) held.now }
{
    let Some(at) = guess(seen, held, note.slot) else {
        return None;
    };
    if note.until <= held[at].done() {
        Some(at)
    } else {
        None
    }
}

// The lower of two indices, where there are two.
fn earlier(one: Option<usize>, other: Option<usize>) -> Option<usize>
    ensures { result ≡ earlier one other }
{
    let Some(k) = one else {
        return other;
    };
    let Some(j) = other else {
        return one;
    };
    Some(if j < k { j } else { k })
}

// The same, by the halves.
fn due_of_halves<H: Traveller>(held: &[H], leaving: &[Leaving]) -> Option<usize>
    ensures { result ≡ position (λ half. is_due leaving.now (H.slot_of (H.name half)) (H.done_of half)) held.now }
{
    held.iter()
        .position(|half| is_due_home(leaving, half.slot(), half.done()))
}

// Whether a half of this slot, which has done so much, is due.
fn is_due_home(leaving: &[Leaving], slot: Slot, done: u64) -> bool
    ensures { result ≡ is_due leaving.now slot done }
{
    leaving
        .iter()
        .any(|leaving| leaving.slot == slot && leaving.until <= done)
}

// Notes where the half of a slot stands that comes behind these, and tells whether it is known then where each stands.
pub fn came<H: Traveller>(seen: &mut Seen, known: bool, held: &[H], slot: Slot) -> bool
    requires { known ≡ true → AllSeen (λ half. H.slot_of (H.name half)) held.now seen.old }
    ensures { result ≡ true → (half : H) → H.slot_of (H.name half) ≡ slot
        → AllSeen (λ half. H.slot_of (H.name half)) (held.now ++ half ∷ []) seen.new }
{
    let None = guess(seen, held, slot) else {
        seen.note(slot, held.len());
        return false;
    };
    seen.note(slot, held.len());
    let Some(at) = seen.noted(slot) else {
        return false;
    };
    if !known {
        return false;
    }
    at == held.len()
}

// Where the half of a slot stands: where it was seen last, or else the first of that slot.
pub fn find<H: Traveller>(seen: &Seen, held: &[H], slot: Slot) -> Option<usize>
    ensures found { IfSome result (λ k. (k < length held.now)
        × ((none : H) → H.slot_of (H.name (slice_index_or held.now k none)) ≡ slot)) }
    ensures none { IsNone result → is_held (λ half. H.slot_of (H.name half)) slot held.now ≡ false }
{
    match guess(seen, held, slot) {
        Some(at) => Some(at),
        None => first(held, slot),
    }
}

// Where the half of a slot was seen last, if it stands there.
fn guess<H: Traveller>(seen: &Seen, held: &[H], slot: Slot) -> Option<usize>
    ensures found { IfSome result (λ k. (k < length held.now)
        × ((none : H) → H.slot_of (H.name (slice_index_or held.now k none)) ≡ slot)) }
    ensures none { IsNone result → (k : ℕ) (none : H) → noted_at seen.now slot ≡ Some k → k < length held.now
        → H.slot_of (H.name (slice_index_or held.now k none)) ≢ slot }
{
    let at = seen.noted(slot)?;
    if at < held.len() && held[at].slot() == slot {
        Some(at)
    } else {
        None
    }
}

// The first half of a slot.
fn first<H: Traveller>(held: &[H], slot: Slot) -> Option<usize>
    ensures { result ≡ position (λ half. H.slot_of (H.name half) == slot) held.now }
{
    held.iter().position(|half| half.slot() == slot)
}

// A half that stood at an index left: those behind it stand one further to the front.
pub fn moved_up<H: Traveller>(seen: &mut Seen, held: &[H], from: usize)
    ensures { SeenBehind (λ half. H.slot_of (H.name half)) from held.now seen.old
        → AllSeen (λ half. H.slot_of (H.name half)) held.now seen.new }
{
    for index in from..held.len() {
        seen.note(held[index].slot(), index);
    }
}

// A half that was taken out of the list stands again where it stood.
pub fn put_back<H: Traveller>(held: &mut Vec<H>, at: usize, half: H)
    requires at { at ≤ vec_len held.old }
    requires room { vec_len held.old < vec_capacity held.old }
    ensures items { held.new.items ≡ insert held.old.items at half }
    ensures len { vec_len held.new ≡ vec_len held.old + 1 }
{
    let Ok(()) = held.insert(at, half) else {
        unreachable!()
    };
}

// Turns the half at an index.
pub fn turn_at<H: Traveller, R: Wait>(
    rt: &R,
    held: &mut Vec<H>,
    at: usize,
    place: SliceNo,
) -> Result<Did, NoMemory>
    requires { at < vec_len held.old }
    ensures names { map H.name held.new.items ≡ map H.name held.old.items }
    ensures len { vec_len held.new ≡ vec_len held.old }
    ensures turned { AreTurned H.turns H.turned_at place at (at + 1) held.old.items held.new.items }
    ensures works { count_at H.works held.new.items at ≡ works_after result (count_at H.works held.old.items at) }
    ensures answered { IfOk result (λ did. AnswersAt (H.came_to 8) did at held.old.items held.new.items) }
{
    held[at].turn(rt, place, GRAIN)
}

// Turns the halves from the cursor to the last, and then from the first to the cursor, until one has
// worked, and tells which.
pub fn turn_round<H: Traveller, R: Wait>(
    rt: &R,
    held: &mut Vec<H>,
    place: SliceNo,
    cursor: usize,
) -> Result<Option<usize>, NoMemory>
    requires { cursor ≤ vec_len held.old }
    ensures names { map H.name held.new.items ≡ map H.name held.old.items }
    ensures len { vec_len held.new ≡ vec_len held.old }
    ensures idle { IfOk result (λ at. IsNone at → AllTurned H.turns H.works H.turned_at place held.old.items
        held.new.items) }
    ensures worked { IfOk result (λ at. IfSome at (λ k.
        WorkedRound H.turns H.works H.turned_at place cursor k held.old.items held.new.items)) }
    ensures rests { IfOk result (λ at. IsNone at
        → AllRest (H.came_to 8) 0 (length held.old.items) held.old.items held.new.items) }
    ensures answers { IfOk result (λ at. IfSome at (λ k.
        AnswersRound (H.came_to 8) cursor k held.old.items held.new.items)) }
{
    let end = held.len();
    match turn_some(rt, held, place, cursor, end)? {
        Some(at) => Ok(Some(at)),
        None => turn_some(rt, held, place, 0, cursor),
    }
}

// Turns the halves from one index up to another, until one has worked, and tells which.
fn turn_some<H: Traveller, R: Wait>(
    rt: &R,
    held: &mut Vec<H>,
    place: SliceNo,
    from: usize,
    to: usize,
) -> Result<Option<usize>, NoMemory>
    requires { (from ≤ to) × (to ≤ vec_len held.old) }
    ensures names { map H.name held.new.items ≡ map H.name held.old.items }
    ensures len { vec_len held.new ≡ vec_len held.old }
    ensures idle { IfOk result (λ at. IsNone at
        → AreTurned H.turns H.turned_at place from to held.old.items held.new.items
        × NoneWorked H.works held.old.items held.new.items) }
    ensures worked { IfOk result (λ at. IfSome at (λ k. (from ≤ k) × (k < to)
        × AreTurned H.turns H.turned_at place from (k + 1) held.old.items held.new.items
        × WorkedAlone H.works k held.old.items held.new.items)) }
    ensures rests { IfOk result (λ at. IsNone at → AllRest (H.came_to 8) from to held.old.items held.new.items) }
    ensures answers { IfOk result (λ at. IfSome at (λ k. AllRest (H.came_to 8) from k held.old.items held.new.items
        × AnswersAt (H.came_to 8) answers.Worked k held.old.items held.new.items)) }
{
    for i in from..to {
        if let Did::Worked = held[i].turn(rt, place, GRAIN)? {
            return Ok(Some(i));
        }
    }
    Ok(None)
}
