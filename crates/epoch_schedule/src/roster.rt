//! The halves that a worker holds.
ghost use Rattle.std.specs.Prelude.{◌≡◌, ℕ, ◌+◌, ◌<◌, ◌≤◌, ◌==◌, ◌^◌, List, ◌++◌, ◌∷◌, [], Option, Some, None};
ghost use Rattle.std.specs.Prelude.{true, false, map};
ghost use Rattle.std.specs.Prelude.{OnOk, IfOk, IfNone, IfSome, length, nat_lt, set, get_or, is_some};
ghost use Rattle.std.specs.Bool.{OnTrue, OnFalse};
ghost use Rattle.epoch_schedule.specs.World as world;
ghost use Rattle.epoch_schedule.specs.ControlTurns as control;
ghost use Rattle.epoch_schedule.specs.DataTurns as data_half;
ghost use Rattle.epoch_schedule.specs.Waiting.{is_in};
ghost use Rattle.epoch_schedule.specs.Rosters as roster;
ghost use Rattle.epoch_schedule.specs.Rounds as rounds;

use crate::copying::copy_part;
use crate::slot::SlotNumbers;
use crate::standing::HeldControl;
use crate::world::applied_of;
use std::alloc::{AllocError, Global};
use std::marker::Model;

/// What stands at an index.
pub fn half_at(halves: &[Option<HeldControl>], index: usize) -> Option<HeldControl>
    ensures { result ≡ roster.entry halves.now index }
{
    if index < halves.len() {
        halves[index]
    } else {
        None
    }
}

/// Whether a half stands at an index.
fn is_half(halves: &[Option<HeldControl>], index: usize) -> bool
    ensures there { OnTrue result (is_some (roster.entry halves.now index) ≡ true) }
    ensures hole { OnFalse result (roster.entry halves.now index ≡ None) }
{
    match half_at(halves, index) {
        Some(_) => true,
        None => false,
    }
}

/// Whether a half of a slot stands at an index.
fn is_there(halves: &[Option<HeldControl>], index: usize, slot: usize) -> bool
    ensures there { OnTrue result (roster.IsHalfOf halves.now slot index) }
    ensures other { OnFalse result ((half : world.HeldControl) → roster.entry halves.now index ≡ Some half
        → (half.slot == slot) ≡ false) }
{
    match half_at(halves, index) {
        Some(half) => half.slot == slot,
        None => false,
    }
}

/// The index of the first half of a slot.
fn search(halves: &[Option<HeldControl>], slot: usize) -> Option<usize>
    ensures found { IfSome result (λ index. roster.StandsAt halves.now slot index) }
    ensures none { IfNone result (roster.Lacks halves.now slot) }
{
    for index in 0..halves.len() {
        if is_there(halves, index, slot) {
            return Some(index);
        }
    }
    None
}

/// The index of the half of a slot, where each half is of a slot of its own.
fn by_slot(halves: &[Option<HeldControl>], index: &[u32], slot: usize) -> Option<usize>
    requires { roster.Indexed halves.now index.now }
    ensures found { IfSome result (λ index. roster.StandsAt halves.now slot index) }
    ensures none { IfNone result (roster.Lacks halves.now slot) }
{
    if slot >= index.len() {
        return None;
    }
    let own = index[slot] as usize;
    if is_there(halves, own, slot) {
        Some(own)
    } else {
        None
    }
}

/// The index of the first half of a slot, by its slot while each half is of a slot of its own.
fn index_of(halves: &[Option<HeldControl>], index: &[u32], once: bool, slot: usize) -> Option<usize>
    requires { once ≡ true → roster.Indexed halves.now index.now }
    ensures found { IfSome result (λ index. roster.StandsAt halves.now slot index) }
    ensures none { IfNone result (roster.Lacks halves.now slot) }
{
    if !once {
        return search(halves, slot);
    }
    by_slot(halves, index, slot)
}

/// The first index from one on where a half stands, or how many there are.
fn first_from(halves: &[Option<HeldControl>], from: usize) -> usize
    requires { from ≤ length halves.now }
    ensures place { roster.place_at halves.now result ≡ roster.place_at halves.now from }
    ensures here { result < length halves.now → is_some (roster.entry halves.now result) ≡ true }
    ensures few { result ≤ length halves.now }
{
    let mut at = from;
    while at < halves.len() {
        if is_half(halves, at) {
            return at;
        }
        at += 1;
    }
    at
}

/// Where the cursor stands that shall stand at the first half from an index on: there, or else at the first of all.
fn settle(halves: &[Option<HeldControl>], from: usize) -> usize
    requires { from ≤ length halves.now }
    ensures place { roster.place_at halves.now result
        ≡ world.cursor_within (roster.place_at halves.now from) (length (roster.present halves.now)) }
    ensures few { result ≤ length halves.now }
{
    let at = first_from(halves, from);
    if at < halves.len() { at } else { 0 }
}

/// Where the cursor stands behind the turn of the half at an index; at the first of all, if none stands there.
fn settle_behind(halves: &[Option<HeldControl>], at: usize) -> usize
    requires { at < length halves.now → is_some (roster.entry halves.now at) ≡ true }
    ensures place { (place : ℕ) → (at < length halves.now → place ≡ roster.place_at halves.now at)
        → (length halves.now ≤ at → length (roster.present halves.now) ≤ place)
        → roster.place_at halves.now result ≡ world.cursor_next place (length (roster.present halves.now)) }
    ensures few { result ≤ length halves.now }
{
    if at < halves.len() {
        settle(halves, at + 1)
    } else {
        0
    }
}

/// The index of the half of a place, or how many indices there are.
fn index_at(halves: &[Option<HeldControl>], place: usize) -> usize
    ensures place { result < length halves.now → roster.place_at halves.now result ≡ place }
    ensures here { result < length halves.now → is_some (roster.entry halves.now result) ≡ true }
    ensures none { length halves.now ≤ result → length (roster.present halves.now) ≤ place }
{
    let mut left = place;
    for index in 0..halves.len() {
        if is_half(halves, index) {
            if left == 0 {
                return index;
            }
            left -= 1;
        }
    }
    halves.len()
}

/// Whether the half of a slot stands before that of another; both are there.
fn is_first(
    halves: &[Option<HeldControl>],
    index: &[u32],
    once: bool,
    one: usize,
    other: usize,
) -> bool
    requires indexed { once ≡ true → roster.Indexed halves.now index.now }
    requires one { rounds.place_held one (roster.present halves.now) < length (roster.present halves.now) }
    requires other { rounds.place_held other (roster.present halves.now) < length (roster.present halves.now) }
    ensures { result ≡ nat_lt (rounds.place_held one (roster.present halves.now))
        (rounds.place_held other (roster.present halves.now)) }
{
    match index_of(halves, index, once, one) {
        None => false,
        Some(own) => match index_of(halves, index, once, other) {
            None => false,
            Some(another) => own < another,
        },
    }
}

/// Whether the half of a slot stands before an index; it is there.
fn stands_before(
    halves: &[Option<HeldControl>],
    index: &[u32],
    once: bool,
    next: usize,
    slot: usize,
) -> bool
    requires indexed { once ≡ true → roster.Indexed halves.now index.now }
    requires there { rounds.place_held slot (roster.present halves.now) < length (roster.present halves.now) }
    ensures { result ≡ nat_lt (rounds.place_held slot (roster.present halves.now)) (roster.place_at halves.now next) }
{
    match index_of(halves, index, once, slot) {
        None => false,
        Some(own) => own < next,
    }
}

/// Whether a half of a slot is there.
fn has_half(halves: &[Option<HeldControl>], index: &[u32], once: bool, slot: usize) -> bool
    requires { once ≡ true → roster.Indexed halves.now index.now }
    ensures { result ≡ nat_lt (rounds.place_held slot (roster.present halves.now))
        (length (roster.present halves.now)) }
{
    match index_of(halves, index, once, slot) {
        None => false,
        Some(_) => true,
    }
}

/// The slot of the half at an index.
#[tactic(auto, using(crate::proofs::Places::held_some))]
fn slot_in(halves: &[Option<HeldControl>], index: usize) -> usize
    ensures half { index < length halves.now → is_some (roster.entry halves.now index) ≡ true
        → result ≡ (control.held_at (roster.present halves.now) (roster.place_at halves.now index)).slot }
    ensures none { length halves.now ≤ index → result ≡ 0 }
{
    match half_at(halves, index) {
        Some(half) => half.slot,
        None => 0,
    }
}

/// The slot of the half of a place.
#[tactic(auto, using(crate::proofs::Places::held_none, crate::proofs::Places::place_all))]
fn slot_of_place(halves: &[Option<HeldControl>], place: usize) -> usize
    ensures { result ≡ (control.held_at (roster.present halves.now) place).slot }
{
    slot_in(halves, index_at(halves, place))
}

/// Where the cursor stands behind the turn of the half of a place.
fn behind_place(halves: &[Option<HeldControl>], place: usize) -> usize
    ensures place { roster.place_at halves.now result
        ≡ world.cursor_next place (length (roster.present halves.now)) }
    ensures few { result ≤ length halves.now }
{
    settle_behind(halves, index_at(halves, place))
}

/// Where the cursor stands behind the turn of the half of a slot.
fn behind_slot(halves: &[Option<HeldControl>], index: &[u32], once: bool, slot: usize) -> usize
    requires { once ≡ true → roster.Indexed halves.now index.now }
    ensures place { roster.place_at halves.now result ≡ world.cursor_next
        (rounds.place_held slot (roster.present halves.now)) (length (roster.present halves.now)) }
    ensures few { result ≤ length halves.now }
{
    match index_of(halves, index, once, slot) {
        None => 0,
        Some(at) => settle_behind(halves, at),
    }
}

/// Whether halves stand at an index and at the next one.
fn are_next(halves: &[Option<HeldControl>], index: usize) -> bool
    ensures here { OnTrue result (is_some (roster.entry halves.now index) ≡ true) }
    ensures next { OnTrue result (is_some (roster.entry halves.now (index + 1)) ≡ true) }
    ensures within { OnTrue result (index + 1 < length halves.now) }
{
    index < halves.len()
        && index + 1 < halves.len()
        && is_half(halves, index)
        && is_half(halves, index + 1)
}

/// The slot of the first half from an index on, and where the cursor stands behind its turn.
#[tactic(auto, using(crate::proofs::Places::held_none, crate::proofs::Places::place_all))]
fn round_from(halves: &[Option<HeldControl>], from: usize) -> (usize, usize)
    requires { from ≤ length halves.now }
    ensures slot { result.0 ≡ (control.held_at (roster.present halves.now) (roster.place_at halves.now from)).slot }
    ensures place { roster.place_at halves.now result.1 ≡ world.cursor_next (roster.place_at halves.now from)
        (length (roster.present halves.now)) }
    ensures few { result.1 ≤ length halves.now }
{
    if are_next(halves, from) {
        return (slot_in(halves, from), from + 1);
    }
    let at = first_from(halves, from);
    (slot_in(halves, at), settle_behind(halves, at))
}

/// Makes a hole at an index.
fn leave_hole(halves: &mut Vec<Option<HeldControl>>, next: usize, index: usize) -> usize
    requires here { is_some (roster.entry halves.old.items index) ≡ true }
    requires within { index < length halves.old.items }
    requires next { next ≤ length halves.old.items }
    ensures items { halves.new.items ≡ set halves.old.items index None }
    ensures held { roster.present halves.new.items
        ≡ control.without (roster.place_at halves.old.items index) (roster.present halves.old.items) }
    ensures cursor { roster.place_at halves.new.items result
        ≡ world.cursor_behind (roster.place_at halves.old.items index) (roster.place_at halves.old.items next)
        (length (control.without (roster.place_at halves.old.items index) (roster.present halves.old.items))) }
    ensures few { result ≤ length halves.new.items }
    ensures less { length (roster.present halves.new.items) + 1 ≡ length (roster.present halves.old.items) }
{
    halves[index] = None;
    settle(halves.as_slice(), next)
}

/// How many halves stand before an index.
fn count_before(halves: &[Option<HeldControl>], index: usize) -> usize
    requires { index ≤ length halves.now }
    ensures { result ≡ roster.place_at halves.now index }
{
    let mut count: usize = 0;
    for at in 0..index {
        if is_half(halves, at) {
            count += 1;
        }
    }
    count
}

/// Makes the list long enough for a slot.
pub fn reach(index: &mut Vec<u32>, slot: usize) -> Result<(), AllocError>
    ensures same { (s : ℕ) → get_or index.new.items s 0 ≡ get_or index.old.items s 0 }
    ensures more { length index.old.items ≤ length index.new.items }
    ensures within { OnOk result (slot < length index.new.items) }
    ensures least { (slots : ℕ) → slot < slots → length index.old.items ≤ slots → length index.new.items ≤ slots }
{
    if slot < index.len() {
        return Ok(());
    }
    grow_index(index, slot)
}

/// The same of one that is too short.
#[inline(never)]
fn grow_index(index: &mut Vec<u32>, slot: usize) -> Result<(), AllocError>
    requires { length index.old.items ≤ slot }
    ensures same { (s : ℕ) → get_or index.new.items s 0 ≡ get_or index.old.items s 0 }
    ensures more { length index.old.items ≤ length index.new.items }
    ensures within { OnOk result (slot < length index.new.items) }
    ensures least { (slots : ℕ) → slot < slots → length index.old.items ≤ slots → length index.new.items ≤ slots }
{
    if slot == usize::MAX {
        return Err(AllocError);
    }
    index.resize(slot + 1, 0)
}

/// Marks the half at an index, if it is of a slot.
fn mark_at(halves: &mut Vec<Option<HeldControl>>, index: usize, slot: usize, until: usize)
    ensures { halves.new.items
        ≡ set halves.old.items index (roster.mark_entry slot until (roster.entry halves.old.items index)) }
{
    if is_there(halves.as_slice(), index, slot) {
        halves[index] = Some(HeldControl {
            slot,
            until: Some(until),
        });
    }
}

/// Marks each half of a slot.
fn mark_each(halves: &mut Vec<Option<HeldControl>>, slot: usize, until: usize)
    ensures { halves.new.items ≡ map (roster.mark_entry slot until) halves.old.items }
{
    for index in 0..halves.len() {
        mark_at(halves, index, slot, until);
    }
}

/// All indices below a number.
fn all_indices(alloc: Global, count: usize) -> Result<Vec<usize>, AllocError>
    ensures { IfOk result (λ all. (i : ℕ) → i < count → is_in all.items i ≡ true) }
{
    let mut all = Vec::new(alloc);
    for index in 0..count {
        all.push(index)?;
    }
    Ok(all)
}

/// Takes up the index of a half, if it is marked.
fn note_called(called: &mut Vec<usize>, half: &HeldControl, index: usize) -> Result<(), AllocError>
    ensures kept { (halves : List (Option world.HeldControl)) → roster.OnlyCalled halves called.old.items
        → roster.OnlyCalled halves called.new.items }
    ensures own { OnOk result (is_in called.new.items index ≡ false → half.now.until ≡ None) }
{
    if half.until.is_some() {
        called.push(index)?;
    }
    Ok(())
}

/// An index as a roster keeps it: the same below 2^32.
fn kept_index(index: usize) -> u32
    ensures { index < 2 ^ 32 → result ≡ index }
{
    if index > u32::MAX as usize {
        return 0;
    }
    index as u32
}

/// Whether each half surely is of a slot of its own, also where that of this slot comes, at an index below 2^32.
fn still_once(halves: &[Option<HeldControl>], index: &[u32], once: bool, slot: usize) -> bool
    requires { once ≡ true → roster.Indexed halves.now index.now }
    ensures once { result ≡ true → (once ≡ true) × roster.Lacks halves.now slot }
    ensures few { result ≡ true → length halves.now < 2 ^ 32 }
{
    if !once {
        return false;
    }
    if halves.len() > u32::MAX as usize {
        return false;
    }
    match index_of(halves, index, once, slot) {
        None => true,
        Some(_) => false,
    }
}

/// Whether a control half stays on its slice.
pub fn stays(slots: &[SlotNumbers<'_>], half: &HeldControl) -> bool
    ensures { result ≡ control.stays (record { slots = slots.now; controls = []; datas = [] }) half.now }
{
    match half.until {
        None => true,
        Some(until) => applied_of(slots, half.slot) < until,
    }
}

/// The lower one of the index of a half that is done and another index.
fn earlier_done(
    slots: &[SlotNumbers<'_>],
    halves: &[Option<HeldControl>],
    first: usize,
    index: usize,
) -> usize
    requires { roster.FirstDone (record { slots = slots.now; controls = []; datas = [] }) halves.now first }
    ensures first { roster.FirstDone (record { slots = slots.now; controls = []; datas = [] }) halves.now result }
    ensures few { result ≤ first }
    ensures stays { roster.Stays (record { slots = slots.now; controls = []; datas = [] }) halves.now result index }
{
    if index >= first {
        return first;
    }
    match half_at(halves, index) {
        None => first,
        Some(half) => { if stays(slots, &half) { first } else { index } }
    }
}

/// The index of the first half that goes home, or how many indices there are.
fn first_done(slots: &[SlotNumbers<'_>], halves: &[Option<HeldControl>], called: &[usize]) -> usize
    requires { roster.OnlyCalled halves.now called.now }
    ensures first { roster.FirstDone (record { slots = slots.now; controls = []; datas = [] }) halves.now result }
    ensures place { control.place_done (record { slots = slots.now; controls = []; datas = [] })
        (roster.present halves.now) ≡ roster.place_at halves.now result }
{
    let mut first = halves.len();
    for index in called {
        first = earlier_done(slots, halves, first, *index);
    }
    first
}

/// Whether a half is done.
fn is_any_done(slots: &[SlotNumbers<'_>], halves: &[Option<HeldControl>], called: &[usize]) -> bool
    requires { roster.OnlyCalled halves.now called.now }
    ensures { result ≡ nat_lt (control.place_done (record { slots = slots.now; controls = []; datas = [] })
        (roster.present halves.now)) (length (roster.present halves.now)) }
{
    first_done(slots, halves, called) < halves.len()
}

/// The place of a number in a list, or its length.
fn place_of(number: usize, list: &[usize]) -> usize
    ensures { result ≡ data_half.place_of number list.now }
{
    let mut place: usize = 0;
    for other in list {
        if *other == number {
            return place;
        }
        place += 1;
    }
    place
}

/// Leaves out an index.
#[tactic(auto, using(crate::proofs::Edited::remove_is, crate::proofs::Edited::without_past))]
fn leave_out(called: &mut Vec<usize>, index: usize)
    ensures { called.new.items ≡ control.without (data_half.place_of index called.old.items) called.old.items }
{
    let place = place_of(index, called.as_slice());
    if place < called.len() {
        called.remove(place);
    }
}

/// The halves in the order in which they came, with holes where some left, the index of each by its slot, those of the
/// ones that may be marked, and where the half stands whose turn is next. While `once` stands each half is of a slot of
/// its own.
#[derive(Drop)]
pub struct Roster {
    halves: Vec<Option<HeldControl>>,
    index: Vec<u32>,
    once: bool,
    holes: usize,
    next: usize,
    called: Vec<usize>,
}

impl Model for Roster {
    ghost use Rattle.epoch_schedule.specs.Rosters.{RosterNow, present, place_at, IsRoster};

    ghost Value = { RosterNow };

    ghost view = { λ roster. record {
      held = present roster.halves.items;
      cursor = place_at roster.halves.items roster.next;
    } };

    ghost invariant = { λ roster. IsRoster roster.halves.items roster.index.items roster.once roster.holes roster.next
        roster.called.items };
}

impl Roster {
    pub fn new(alloc: Global) -> Roster
        ensures { result ≡ record { held = []; cursor = 0 } }
    {
        Roster {
            halves: Vec::new(alloc),
            index: Vec::new(alloc),
            once: true,
            holes: 0,
            next: 0,
            called: Vec::new(alloc),
        }
    }

    /// How many halves there are.
    pub fn len(&self) -> usize
        ensures { result ≡ length self.now.held }
    {
        self.halves.len() - self.holes
    }

    /// The place of the half whose turn is next.
    pub fn cursor(&self) -> usize
        ensures { result ≡ self.now.cursor }
    {
        count_before(self.halves.as_slice(), self.next)
    }

    /// Whether a half has its turn next, and each surely is of a slot of its own, below this number.
    pub fn is_orderly(&self, slots: usize) -> bool
        ensures { OnTrue result (rounds.IsOrderly slots self.now) }
    {
        let halves = self.halves.as_slice();
        self.once && self.index.len() <= slots && first_from(halves, self.next) < halves.len()
    }

    /// Whether a half of a slot is there.
    pub fn has(&self, slot: usize) -> bool
        ensures { result ≡ nat_lt (rounds.place_held slot self.now.held) (length self.now.held) }
    {
        has_half(
            self.halves.as_slice(),
            self.index.as_slice(),
            self.once,
            slot,
        )
    }

    /// Whether the half of a slot came before that of another.
    pub fn is_before(&self, one: usize, other: usize) -> bool
        requires one { rounds.place_held one self.now.held < length self.now.held }
        requires other { rounds.place_held other self.now.held < length self.now.held }
        ensures { result ≡ nat_lt (rounds.place_held one self.now.held) (rounds.place_held other self.now.held) }
    {
        is_first(
            self.halves.as_slice(),
            self.index.as_slice(),
            self.once,
            one,
            other,
        )
    }

    /// Whether the half of a slot stands before the cursor.
    pub fn is_past(&self, slot: usize) -> bool
        requires { rounds.place_held slot self.now.held < length self.now.held }
        ensures { result ≡ nat_lt (rounds.place_held slot self.now.held) self.now.cursor }
    {
        stands_before(
            self.halves.as_slice(),
            self.index.as_slice(),
            self.once,
            self.next,
            slot,
        )
    }

    /// The slot of the half of a place.
    pub fn slot_at(&self, place: usize) -> usize
        ensures { result ≡ (control.held_at self.now.held place).slot }
    {
        slot_of_place(self.halves.as_slice(), place)
    }

    /// The turn of the half behind that of a place.
    pub fn set_behind_place(&mut self, place: usize)
        ensures { self.new ≡ record self.old { cursor = world.cursor_next place (length self.old.held) } }
    {
        self.next = behind_place(self.halves.as_slice(), place);
    }

    /// The turn of the half behind that of a slot.
    pub fn set_behind(&mut self, slot: usize)
        ensures { self.new ≡ record self.old {
          cursor = world.cursor_next (rounds.place_held slot self.old.held) (length self.old.held);
        } }
    {
        self.next = behind_slot(
            self.halves.as_slice(),
            self.index.as_slice(),
            self.once,
            slot,
        );
    }

    /// The slot of the half whose turn is next; then that of the one behind it.
    pub fn go_round(&mut self) -> usize
        ensures slot { result ≡ (control.held_at self.old.held self.old.cursor).slot }
        ensures round { self.new ≡ record self.old {
          cursor = world.cursor_next self.old.cursor (length self.old.held);
        } }
    {
        let (slot, next) = round_from(self.halves.as_slice(), self.next);
        self.next = next;
        slot
    }

    /// Makes room for the halves of so many slots, before the first one comes: for a part of them, and an index of all.
    #[inline(always)]
    pub fn make_room(&mut self, slots: usize) -> Result<(), AllocError>
        ensures { OnOk result (self.new ≡ self.old) }
    {
        if self.halves.is_empty() {
            return self.reserve(slots);
        }
        Ok(())
    }

    #[inline(never)]
    fn reserve(&mut self, slots: usize) -> Result<(), AllocError>
        ensures { OnOk result (self.new ≡ self.old) }
    {
        self.halves.reserve_exact(slots / 4)?;
        self.index.reserve_exact(slots)
    }

    /// A half comes.
    #[inline(always)]
    pub fn push(&mut self, half: HeldControl) -> Result<(), AllocError>
        ensures { OnOk result (self.new ≡ record self.old { held = self.old.held ++ half ∷ [] }) }
    {
        let index = self.halves.len();
        let still = still_once(
            self.halves.as_slice(),
            self.index.as_slice(),
            self.once,
            half.slot,
        );
        reach(&mut self.index, half.slot)?;
        note_called(&mut self.called, &half, index)?;
        self.halves.push(Some(half))?;
        self.index[half.slot] = kept_index(index);
        self.once = still;
        Ok(())
    }

    /// Each half of a slot is marked: it goes home once so many commands are done.
    pub fn mark(&mut self, alloc: Global, slot: usize, until: usize) -> Result<(), AllocError>
        ensures { OnOk result (self.new ≡ record self.old { held = map (control.marked slot until) self.old.held }) }
    {
        if !self.once {
            let all = all_indices(alloc, self.halves.len())?;
            mark_each(&mut self.halves, slot, until);
            self.called = all;
            return Ok(());
        }
        let at = index_of(
            self.halves.as_slice(),
            self.index.as_slice(),
            self.once,
            slot,
        );
        match at {
            None => Ok(()),
            Some(index) => {
                self.called.push(index)?;
                mark_at(&mut self.halves, index, slot, until);
                Ok(())
            }
        }
    }

    /// Whether a half is done.
    pub fn has_done(&self, slots: &[SlotNumbers<'_>]) -> bool
        ensures { result ≡ nat_lt
            (control.place_done (record { slots = slots.now; controls = []; datas = [] }) self.now.held)
            (length self.now.held) }
    {
        is_any_done(slots, self.halves.as_slice(), self.called.as_slice())
    }

    /// The slot of the first half that is done.
    pub fn done_slot(&self, slots: &[SlotNumbers<'_>]) -> usize
        ensures { result ≡ (control.held_at self.now.held
            (control.place_done (record { slots = slots.now; controls = []; datas = [] }) self.now.held)).slot }
    {
        let index = first_done(slots, self.halves.as_slice(), self.called.as_slice());
        slot_in(self.halves.as_slice(), index)
    }

    /// The first half that is done leaves.
    pub fn take_done(&mut self, slots: &[SlotNumbers<'_>]) -> usize
        requires { control.place_done (record { slots = slots.now; controls = []; datas = [] }) self.old.held
            < length self.old.held }
        ensures slot { result ≡ (control.held_at self.old.held
            (control.place_done (record { slots = slots.now; controls = []; datas = [] }) self.old.held)).slot }
        ensures left { self.new ≡ roster.left self.old
            (control.place_done (record { slots = slots.now; controls = []; datas = [] }) self.old.held) }
    {
        let index = first_done(slots, self.halves.as_slice(), self.called.as_slice());
        let slot = slot_in(self.halves.as_slice(), index);
        self.next = leave_hole(&mut self.halves, self.next, index);
        self.holes += 1;
        leave_out(&mut self.called, index);
        slot
    }

    /// The half of a slot leaves, if it is there.
    pub fn take(&mut self, slot: usize)
        ensures { self.new ≡ roster.left self.old (rounds.place_held slot self.old.held) }
    {
        let at = index_of(
            self.halves.as_slice(),
            self.index.as_slice(),
            self.once,
            slot,
        );
        match at {
            Some(index) => {
                self.next = leave_hole(&mut self.halves, self.next, index);
                self.holes += 1;
            }
            None => self.next = settle(self.halves.as_slice(), self.next),
        }
    }

    /// Whether more than half of the indices are holes.
    fn is_sparse(&self) -> bool {
        self.holes > self.halves.len() / 2 + 8
    }

    fn end_cursor(&mut self)
        ensures { self.new ≡ record self.old { cursor = length self.old.held } }
    {
        self.next = self.halves.len();
    }

    /// The same halves, without holes.
    fn packed(&self, alloc: Global) -> Result<Roster, AllocError>
        ensures { IfOk result (λ fresh. fresh ≡ self.now) }
    {
        let halves = self.halves.as_slice();
        let mut fresh = Roster::new(alloc);
        copy_part(halves, 0, self.next, &mut fresh)?;
        fresh.end_cursor();
        copy_part(halves, self.next, halves.len(), &mut fresh)?;
        Ok(fresh)
    }

    /// Leaves out the holes, where they are many: mostly they are few.
    #[inline(always)]
    pub fn tidy(&mut self, alloc: Global) -> Result<(), AllocError>
        ensures { OnOk result (self.new ≡ self.old) }
    {
        if self.is_sparse() {
            return self.pack(alloc);
        }
        Ok(())
    }

    #[inline(never)]
    fn pack(&mut self, alloc: Global) -> Result<(), AllocError>
        ensures { OnOk result (self.new ≡ self.old) }
    {
        *self = self.packed(alloc)?;
        Ok(())
    }
}
