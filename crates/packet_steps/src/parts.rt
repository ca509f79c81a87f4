//! The parts of counters, and counters of parts.
ghost use Rattle.std.specs.Prelude.{◌≡◌, ◌++◌, drop, get_or};
ghost use Rattle.std.specs.Prelude.{IfOk, IfSome, OnOk, IsTrue};
ghost use Rattle.std.specs.Option.{is_some};
ghost use Rattle.rate_policer.specs.Buckets.{full_bucket};
ghost use Rattle.charging_book.specs.Parts.{are_parts};
ghost use Rattle.packet_steps.specs.Meters.{in_use, no_meters};
ghost use Rattle.packet_steps.specs.Parts.{ArePartsOf, IsMadeOf, buckets_in, own_buckets};
ghost use Rattle.packet_steps.specs.Parts.{fit, may_fit, first_fit, own_fit, buckets_fit, were_asked};
ghost use Rattle.packet_steps.specs.Parts.{is_piece_of, has_bearer, all_have_bearers, pieces_fit};
ghost use Rattle.packet_steps.specs.Rows.{in_order, held_in_order};
ghost use Rattle.packet_steps.specs.Parts.{may_wait, all_may_wait, waiting_fit, held_fit};
ghost use Rattle.packet_steps.specs.Parts.{first_meter, own_with, PartsRepresentTheSame};

use crate::advancing::last_moment;
use crate::counters::Counters;
use crate::held::copies_of;
use crate::judging::MOST_HELD;
use crate::meters::{Meter, Meters};
use crate::releasing::waits;
use crate::{HeldPacket, NoMemory};
use bearer_state::{ActiveBearer, Version, is_guaranteed};
use charging_book::{Book, Piece};
use pc_base::{Kbps, Moment, Way};
use rate_policer::Bucket;
use std::alloc::Global;
use std::marker::Model;

/// The parts of a subscriber's counters under a version, as they are kept and made again: the moment of
/// its last packet; the buckets, up before down, first those of the AMBR, then those of each active bearer
/// with a guaranteed rate, by index; the last pieces of its active bearers, in the order in which these
/// began; the packets that are held. Seen with their lists as lists.
#[derive(Debug, Drop)]
pub struct CountersParts {
    pub last: Option<Moment>,
    pub buckets: Vec<Bucket>,
    pub pieces: Vec<Piece>,
    pub held: Vec<HeldPacket>,
}

impl Model for CountersParts {
    ghost use Rattle.packet_steps.specs.Parts.{PartsState};

    ghost Value = { PartsState };

    ghost view = { λ parts. record {
      last = parts.last;
      buckets = parts.buckets.items;
      pieces = parts.pieces.items;
      held = parts.held.items;
    } };
}

impl Counters {
    /// The parts under the version that the counters represent.
    pub fn parts(&self, version: &Version) -> Result<CountersParts, NoMemory>
        ensures parts { IfOk result (λ parts. ArePartsOf version.now self.now parts) }
        ensures counting { IfOk result (λ parts. IsTrue (are_parts parts.pieces)) }
        ensures ordered { IfOk result (λ parts. IsTrue (held_in_order parts.last parts.held)) }
    {
        let alloc = *self.held.allocator();
        Ok(CountersParts {
            last: self.last,
            buckets: self.meters.buckets(alloc, version.bearers())?,
            pieces: self.book.pieces()?,
            held: copies_of(alloc, &self.held)?,
        })
    }

    /// The packets that are held are in the order of their moments, and none is later than the last packet.
    pub fn known(&self)
        ensures { IsTrue (held_in_order self.now.last self.now.held) }
    {
        let _held = &self.held;
    }

    /// The counters with these parts under a version, with no charging records; None exactly where one of
    /// these fails. The buckets are two at the version's rates up and down, then two at its maximum rates
    /// for each active bearer with a guaranteed rate, by index; none was asked later than at `last`, or 0.
    /// The pieces are those of the active bearers, one of each, with its life, EBI and QCI, none of
    /// 1,000,000 octets. At most 16 packets are held, and none without a `last`: each goes down, for an
    /// active bearer without an eNodeB, and their moments don't fall and are at most `last`.
    pub fn of(version: &Version, parts: CountersParts) -> Result<Option<Counters>, NoMemory>
        ensures fit { IfOk result (λ made. is_some made ≡ fit version.now parts) }
        ensures made { IfOk result (λ made. IfSome made (λ counters. IsMadeOf version.now parts counters)) }
    {
        if !may_fit(version, &parts) {
            return Ok(None);
        }
        let CountersParts {
            last,
            buckets,
            pieces,
            held,
        } = parts;
        let alloc = *held.allocator();
        let Some(book) = Book::of(alloc, &pieces)? else {
            return Ok(None);
        };
        let meters = meters_of(alloc, version.bearers(), &buckets)?;
        Ok(Some(Counters {
            meters,
            book,
            held,
            last,
        }))
    }
}

/// Counters of another's parts represent what that one does, once its rows were taken out.
pub fn parts_represent_the_same()
    ensures { PartsRepresentTheSame }
{}

impl Meters {
    /// The buckets of these bearers.
    fn buckets(&self, alloc: Global, bearers: &[ActiveBearer]) -> Result<Vec<Bucket>, NoMemory>
        ensures { IfOk result (λ buckets. buckets.items ≡ buckets_in bearers.now (in_use self.now)) }
    {
        let mut buckets = Vec::new(alloc);
        buckets.push(self.shared.up)?;
        buckets.push(self.shared.down)?;
        for bearer in bearers {
            self.push_own(&mut buckets, bearer)?;
        }
        Ok(buckets)
    }

    fn push_own(&self, buckets: &mut Vec<Bucket>, bearer: &ActiveBearer) -> Result<(), NoMemory>
        ensures { OnOk result (buckets.new.items ≡ buckets.old.items ++ own_buckets (in_use self.now) bearer.now) }
    {
        if !is_guaranteed(bearer.qos.qci) {
            return Ok(());
        }
        let meter = self.own_meter(bearer.index);
        buckets.push(meter.up)?;
        buckets.push(meter.down)?;
        Ok(())
    }
}

/// The meters of these buckets.
fn meters_of(
    alloc: Global,
    bearers: &[ActiveBearer],
    buckets: &[Bucket],
) -> Result<Meters, NoMemory>
    ensures shared { IfOk result (λ meters. (in_use meters).shared ≡ first_meter buckets.now) }
    ensures own { IfOk result (λ meters. (in_use meters).own
        ≡ own_with no_meters bearers.now (drop 2 buckets.now)) }
{
    let mut meters = Meters::new(alloc, first_meter(buckets));
    let mut left = bearers;
    let mut rest = behind_two(buckets);
    while let Some((bearer, others)) = left.split_first() {
        if is_guaranteed(bearer.qos.qci) {
            meters.try_put_own(bearer.index, first_meter(rest))?;
            rest = behind_two(rest);
        }
        left = others;
    }
    Ok(meters)
}

fn first_meter(buckets: &[Bucket]) -> Meter
    ensures { result ≡ first_meter buckets.now }
{
    Meter {
        up: bucket_at(buckets, 0),
        down: bucket_at(buckets, 1),
    }
}

fn bucket_at(buckets: &[Bucket], place: usize) -> Bucket
    ensures { result ≡ get_or buckets.now place (full_bucket 0) }
{
    match buckets.get(place) {
        Some(bucket) => *bucket,
        None => Bucket::new(Kbps(0)),
    }
}

fn behind_two(buckets: &[Bucket]) -> &[Bucket]
    ensures { result.now ≡ drop 2 buckets.now }
{
    if buckets.len() < 2 {
        return &buckets[buckets.len()..];
    }
    &buckets[2..]
}

/// Whether parts fit a version, but for full pieces and for two of one life.
fn may_fit(version: &Version, parts: &CountersParts) -> bool
    ensures { result ≡ may_fit version.now parts.now }
{
    let bearers = version.bearers();
    buckets_fit(version, &parts.buckets)
        && were_asked(parts.last, &parts.buckets)
        && held_fit(parts.last, bearers, &parts.held)
        && pieces_fit(bearers, &parts.pieces)
}

/// Whether the first two buckets have these rates.
fn first_fit(up: Kbps, down: Kbps, buckets: &[Bucket]) -> bool
    ensures { result ≡ first_fit up down buckets.now }
{
    buckets.len() >= 2 && buckets[0].rate().0 == up.0 && buckets[1].rate().0 == down.0
}

fn own_fit(bearers: &[ActiveBearer], buckets: &[Bucket]) -> bool
    ensures { result ≡ own_fit bearers.now buckets.now }
{
    let mut left = bearers;
    let mut rest = buckets;
    while let Some((bearer, others)) = left.split_first() {
        if is_guaranteed(bearer.qos.qci) {
            if !first_fit(bearer.qos.mbr_up, bearer.qos.mbr_down, rest) {
                return false;
            }
            rest = behind_two(rest);
        }
        left = others;
    }
    rest.is_empty()
}

fn buckets_fit(version: &Version, buckets: &[Bucket]) -> bool
    ensures { result ≡ buckets_fit version.now buckets.now }
{
    first_fit(version.up, version.down, buckets) && own_fit(version.bearers(), behind_two(buckets))
}

/// Whether none was asked later than at the last packet's moment.
fn were_asked(last: Option<Moment>, buckets: &[Bucket]) -> bool
    ensures { result ≡ were_asked last buckets.now }
{
    let most = last_moment(last);
    buckets.iter().all(|bucket| bucket.last().0 <= most.0)
}

/// Whether there are as many pieces as bearers, and each is of one.
fn pieces_fit(bearers: &[ActiveBearer], pieces: &[Piece]) -> bool
    ensures { result ≡ pieces_fit bearers.now pieces.now }
{
    pieces.len() == bearers.len() && all_have_bearers(bearers, pieces)
}

fn all_have_bearers(bearers: &[ActiveBearer], pieces: &[Piece]) -> bool
    ensures { result ≡ all_have_bearers bearers.now pieces.now }
{
    pieces.iter().all(|piece| has_bearer(bearers, piece))
}

fn has_bearer(bearers: &[ActiveBearer], piece: &Piece) -> bool
    ensures { result ≡ has_bearer bearers.now piece.now }
{
    bearers.iter().any(|bearer| is_piece_of(piece, bearer))
}

fn is_piece_of(piece: &Piece, bearer: &ActiveBearer) -> bool
    ensures { result ≡ is_piece_of piece.now bearer.now }
{
    let counts = &piece.counts;
    counts.life == bearer.life && counts.ebi == bearer.ebi && counts.qci == bearer.qos.qci
}

fn held_fit(last: Option<Moment>, bearers: &[ActiveBearer], held: &[HeldPacket]) -> bool
    ensures { result ≡ held_fit last bearers.now held.now }
{
    match last {
        Some(last) => waiting_fit(last, bearers, held),
        None => held.is_empty(),
    }
}

fn waiting_fit(last: Moment, bearers: &[ActiveBearer], held: &[HeldPacket]) -> bool
    ensures { result ≡ waiting_fit last bearers.now held.now }
{
    if held.len() > MOST_HELD {
        return false;
    }
    all_may_wait(bearers, held) && in_order(last, held)
}

fn all_may_wait(bearers: &[ActiveBearer], held: &[HeldPacket]) -> bool
    ensures { result ≡ all_may_wait bearers.now held.now }
{
    held.iter().all(|row| may_wait(bearers, row))
}

fn may_wait(bearers: &[ActiveBearer], row: &HeldPacket) -> bool
    ensures { result ≡ may_wait bearers.now row.now }
{
    match row.packet.way {
        Way::Up(_) => false,
        Way::Down => waits(bearers, row.life),
    }
}

/// Whether the moments of held packets don't fall, and are at most that of the last packet.
fn in_order(last: Moment, held: &[HeldPacket]) -> bool
    ensures { result ≡ in_order 0 last held.now }
{
    let mut least = Moment(0);
    let mut left = held;
    while let Some((row, others)) = left.split_first() {
        let moment = row.packet.moment;
        if moment.0 < least.0 || moment.0 > last.0 {
            return false;
        }
        least = moment;
        left = others;
    }
    true
}
