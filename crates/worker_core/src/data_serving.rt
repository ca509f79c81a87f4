//! What a worker does with one half, and what the steps of its turn come to.
ghost use Rattle.std.specs.Prelude.{◌≡◌, ◌≢◌, ◌<◌, ◌⊎◌};
ghost use Rattle.std.specs.Prelude.{true, false, Ok, OnErr, IfOk, vec_len};
ghost use Rattle.worker_core.specs.DataPlaces.{before_here};
ghost use Rattle.worker_core.specs.DataTurns.{wrapped, cursor_without};
ghost use Rattle.worker_core.specs.DataSteps.{ChangedAt, Asks, Handed};
ghost use Rattle.worker_core.specs.DataHanding.{LearnsAs, HandsAs};
ghost use Rattle.worker_core.specs.DataDoing.{did_of};

use crate::DataTraveller;
use lane_core::{Did, NoMemory};
use pc_base::SliceNo;
use std::sync::Wait;

/// How many batches a half learns at once, at most.
const BATCHES: u32 = 16;

/// What a look at the half that waits came to.
#[derive(Clone, Copy)]
pub enum Sent {
    /// None waits.
    Absent,
    /// It went home.
    Home,
    /// The lane home was full.
    Refused,
}

/// What taking an order came to.
#[derive(Clone, Copy)]
pub enum OrderTaken {
    /// The lane was empty.
    Nothing,
    /// A half came, and is held.
    Arrived,
    /// A half is held no more, and waits to go home.
    Left,
    /// An item came, and is kept.
    Kept,
}

/// What became of an item that was handed to its half.
#[derive(Clone, Copy)]
pub enum TriedItem {
    Handled,
    /// It waits for more to be learnt, and whether anything was.
    Waits { learnt: bool },
}

/// What doing one order came to.
#[derive(Clone, Copy)]
pub enum Step {
    /// A half came, or an item was handled.
    Done,
    /// A half is held no more.
    LeftNow,
    /// None is left, or an item waits, and whether its half learnt something.
    Stopped { learnt: bool },
}

/// What doing orders came to.
#[derive(Clone, Copy)]
pub enum Served {
    /// A half is held no more, and the turn ends.
    Left,
    /// No more are done in this turn, and whether anything was.
    Stopped { worked: bool },
}

/// What a turn answers.
pub fn answer(sent: Sent, worked: bool, learnt: bool) -> Did
    ensures worked { result ≡ Did.Worked → (sent ≡ Sent.Home) ⊎ (worked ≡ true) ⊎ (learnt ≡ true) }
    ensures idle { result ≡ Did.Idle → (sent ≢ Sent.Home) × (worked ≡ false) × (learnt ≡ false) }
    ensures held_never { result ≡ Did.Held → ⊥ }
    ensures is { result ≡ did_of sent worked learnt }
{
    if let Sent::Home = sent {
        return Did::Worked;
    }
    if worked || learnt {
        Did::Worked
    } else {
        Did::Idle
    }
}

/// The half at an index learns, and handles an item if it may then.
pub fn hand_at<H: DataTraveller, R: Wait>(
    rt: &R,
    held: &mut Vec<H>,
    at: usize,
    place: SliceNo,
    item: &H::Item,
) -> Result<TriedItem, NoMemory>
    requires { at < vec_len held.old }
    ensures len { vec_len held.new ≡ vec_len held.old }
    ensures changed { IfOk result (λ tried. (before : H) × (after : H)
        × ChangedAt H.name at before after held.old.items held.new.items
        × Handed H.handled H.takes H.asks H.learns tried item.now before after
        × (before_here place (H.places after) ≡ before_here place (H.places before))
        × HandsAs H.handled H.places H.takes H.asks H.learns H.batches H.empties H.awaits
        place tried item.now before after) }
    ensures err { OnErr result ((before : H) × (after : H)
        × ChangedAt H.name at before after held.old.items held.new.items
        × (H.handled after ≡ H.handled before)
        × (before_here place (H.places after) ≡ before_here place (H.places before))) }
{
    hand(rt, &mut held[at], place, item)
}

// A half learns, and handles an item if it may then.
fn hand<H: DataTraveller, R: Wait>(
    rt: &R,
    half: &mut H,
    place: SliceNo,
    item: &H::Item,
) -> Result<TriedItem, NoMemory>
    ensures name { H.name half.new ≡ H.name half.old }
    ensures handed { IfOk result (λ tried. Handed H.handled H.takes H.asks H.learns tried item.now half.old half.new
        × HandsAs H.handled H.places H.takes H.asks H.learns H.batches H.empties H.awaits
        place tried item.now half.old half.new) }
    ensures err { OnErr result (H.handled half.new ≡ H.handled half.old) }
    ensures here { before_here place (H.places half.new) ≡ before_here place (H.places half.old) }
{
    let learnt = half.learn(rt, BATCHES)?;
    if !half.may(item) {
        return Ok(TriedItem::Waits { learnt });
    }
    half.item(place, item)?;
    Ok(TriedItem::Handled)
}

/// The half at an index learns.
pub fn learn_at<H: DataTraveller, R: Wait>(
    rt: &R,
    held: &mut Vec<H>,
    at: usize,
) -> Result<bool, NoMemory>
    requires { at < vec_len held.old }
    ensures len { vec_len held.new ≡ vec_len held.old }
    ensures changed { (before : H) × (after : H) × ChangedAt H.name at before after held.old.items held.new.items
        × Asks H.handled H.takes H.asks H.learns result before after
        × (H.places after ≡ H.places before)
        × IfOk result (λ learnt. LearnsAs H.handled H.places H.takes H.asks H.learns H.batches H.empties H.awaits
        16 learnt before after) }
{
    held[at].learn(rt, BATCHES)
}

/// The cursor in a list of this length: past its end it is at its front.
pub fn wrap(cursor: usize, held: usize) -> usize
    ensures { result ≡ wrapped cursor held }
{
    if cursor < held { cursor } else { 0 }
}

/// Where the cursor stands once the half at an index left, and so many are held.
pub fn cursor_left(cursor: usize, at: usize, held: usize) -> usize
    ensures { result ≡ cursor_without cursor at held }
{
    wrap(if at < cursor { cursor - 1 } else { cursor }, held)
}
