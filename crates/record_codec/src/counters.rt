//! The parts of a subscriber's counters.
ghost use Rattle.std.specs.Prelude.{◌≡◌, ◌+◌, ◌≤◌, ◌^◌, nat_lt, length, All};
ghost use Rattle.charging_book.specs.Pieces.{volume};
ghost use Rattle.record_codec.specs.Read.{Reads, Pushes, times, each_at, option_at, count_at, bucket_at};
ghost use Rattle.record_codec.specs.Read.{piece_at, held_at};
ghost use Rattle.record_codec.specs.Read.{listed_at, such, is_past, own_needed, bucket_count, counters_at};

use crate::fault::Fault;
use crate::fields::{
    Input, count_at, measured_32, moment_at, moment_or_none, rate_at, u8_at, u64_at,
};
use bearer_state::{ActiveBearer, is_guaranteed};
use charging_book::{Open, Piece, VOLUME_OCTETS};
use packet_steps::{CountersParts, HeldPacket};
use pc_base::{Moment, Octets, Packet, Way};
use rate_policer::Bucket;
use std::alloc::Global;

/// An IPv4 packet has fewer octets than this (RFC 791, 3.1).
const PACKETS: usize = 1 << 16;

#[tactic(auto, unfolding(crate::specs::Read::bucket_at, crate::specs::Read::such, crate::specs::Read::and_then))]
fn bucket_at(input: &mut Input<'_>) -> Result<Bucket, Fault>
    ensures { Reads (λ x. x) result (bucket_at input.old.rest.now) input.new.rest.now }
{
    let rate = rate_at(input)?;
    let level = u64_at(input)?;
    let last = moment_at(input)?;
    match Bucket::of(rate, level, last) {
        Some(bucket) => Ok(bucket),
        None => Err(Fault::NotState),
    }
}

fn buckets_of(alloc: Global, count: usize, input: &mut Input<'_>) -> Result<Vec<Bucket>, Fault>
    ensures { Reads (λ xs. xs.items) result (times count bucket_at input.old.rest.now) input.new.rest.now }
{
    let mut buckets = Vec::new(alloc);
    for _ in 0..count {
        let bucket = bucket_at(input)?;
        buckets.push(bucket)?;
    }
    Ok(buckets)
}

/// The piece of a bearer.
#[tactic(auto, unfolding(crate::specs::Read::piece_at, crate::specs::Read::such, crate::specs::Read::and_then))]
fn piece_at(bearer: &ActiveBearer, input: &mut Input<'_>) -> Result<Piece, Fault>
    requires { bearer.now.life ≤ 2 ^ 61 }
    ensures { Reads (λ x. x) result (piece_at bearer.now input.old.rest.now) input.new.rest.now }
{
    let seq = count_at(input)?;
    let up_octets = u64_at(input)?;
    let down_octets = u64_at(input)?;
    let up_packets = count_at(input)?;
    let down_packets = count_at(input)?;
    let first = moment_or_none(input)?;
    let last = moment_or_none(input)?;
    if !is_counting(up_octets, down_octets) {
        return Err(Fault::NotState);
    }
    let counts = Open {
        life: bearer.life,
        ebi: bearer.ebi,
        qci: bearer.qos.qci,
        seq,
        up_octets,
        down_octets,
        up_packets,
        down_packets,
    };
    let piece = Piece {
        counts,
        first,
        last,
    };
    Ok(piece)
}

/// Whether these are fewer octets than fill a piece.
fn is_counting(up: u64, down: u64) -> bool
    ensures { result ≡ nat_lt (up + down) volume }
{
    up < VOLUME_OCTETS && down < VOLUME_OCTETS && up + down < VOLUME_OCTETS
}

/// Puts the piece of a bearer behind others.
fn push_piece(
    pieces: &mut Vec<Piece>,
    bearer: &ActiveBearer,
    input: &mut Input<'_>,
) -> Result<(), Fault>
    requires { bearer.now.life ≤ 2 ^ 61 }
    ensures { Pushes pieces.old.items pieces.new.items result
        (piece_at bearer.now input.old.rest.now) input.new.rest.now }
{
    let Piece {
        counts,
        first,
        last,
    } = piece_at(bearer, input)?;
    pieces.push(Piece {
        counts,
        first,
        last,
    })?;
    Ok(())
}

/// The pieces of bearers, in the order of these.
fn pieces_at(
    alloc: Global,
    bearers: &[ActiveBearer],
    input: &mut Input<'_>,
) -> Result<Vec<Piece>, Fault>
    requires { All (λ bearer. bearer.life ≤ 2 ^ 61) bearers.now }
    ensures { Reads (λ xs. xs.items) result (each_at piece_at bearers.now input.old.rest.now) input.new.rest.now }
{
    let mut pieces = Vec::new(alloc);
    for bearer in bearers {
        push_piece(&mut pieces, bearer, input)?;
    }
    Ok(pieces)
}

/// A packet that is held, of a number below how many packets came.
#[tactic(auto, unfolding(crate::specs::Read::held_at, crate::specs::Read::such, crate::specs::Read::and_then))]
fn held_at(alloc: Global, packets: u64, input: &mut Input<'_>) -> Result<HeldPacket, Fault>
    ensures { Reads (λ x. x) result (held_at packets input.old.rest.now) input.new.rest.now }
{
    let number = u64_at(input)?;
    let moment = moment_at(input)?;
    let life = u64_at(input)?;
    let held = measured_32(input)?;
    if number >= packets || held.len() >= PACKETS {
        return Err(Fault::NotState);
    }
    let packet = Packet {
        number,
        moment,
        way: Way::Down,
        octets: Octets::of(Vec::from_slice(alloc, held)?),
    };
    Ok(HeldPacket { packet, life })
}

fn held_of(
    alloc: Global,
    packets: u64,
    count: u8,
    input: &mut Input<'_>,
) -> Result<Vec<HeldPacket>, Fault>
    ensures { Reads (λ xs. xs.items) result (times count (held_at packets) input.old.rest.now) input.new.rest.now }
{
    let mut held = Vec::new(alloc);
    for _ in 0..count {
        let row = held_at(alloc, packets, input)?;
        held.push(row)?;
    }
    Ok(held)
}

#[tactic(auto, unfolding(crate::specs::Read::listed_at, crate::specs::Read::and_then))]
fn all_held(alloc: Global, packets: u64, input: &mut Input<'_>) -> Result<Vec<HeldPacket>, Fault>
    ensures { Reads (λ xs. xs.items) result (listed_at (held_at packets) input.old.rest.now) input.new.rest.now }
{
    let count = u8_at(input)?;
    held_of(alloc, packets, count, input)
}

/// How many buckets a bearer has of its own.
fn own_needed(bearer: &ActiveBearer) -> usize
    ensures { result ≡ own_needed bearer.now }
{
    if is_guaranteed(bearer.qos.qci) { 2 } else { 0 }
}

/// How many buckets there are under the bearers of a version.
fn bucket_count(bearers: &[ActiveBearer]) -> usize
    requires { length bearers.now ≤ 11 }
    ensures { result ≡ bucket_count bearers.now }
{
    let mut count = 2;
    for bearer in bearers {
        count += own_needed(bearer);
    }
    count
}

/// The moment of a subscriber's last packet, which isn't behind the last line.
#[tactic(auto, unfolding(crate::specs::Read::such))]
fn last_at(moment: Moment, input: &mut Input<'_>) -> Result<Option<Moment>, Fault>
    ensures { Reads (λ x. x) result (such (is_past moment) (option_at count_at) input.old.rest.now) input.new.rest.now }
{
    let last = moment_or_none(input)?;
    if !is_past(moment, &last) {
        return Err(Fault::NotState);
    }
    Ok(last)
}

fn is_past(moment: Moment, last: &Option<Moment>) -> bool
    ensures { result ≡ is_past moment last.now }
{
    match last {
        Some(own) => own.0 <= moment.0,
        None => true,
    }
}

/// The parts of the counters under the bearers of a version.
#[tactic(auto, unfolding(crate::specs::Read::counters_at, crate::specs::Read::and_then))]
pub(crate) fn counters_at(
    alloc: Global,
    packets: u64,
    moment: Moment,
    bearers: &[ActiveBearer],
    input: &mut Input<'_>,
) -> Result<CountersParts, Fault>
    requires few { length bearers.now ≤ 11 }
    requires lives { All (λ bearer. bearer.life ≤ 2 ^ 61) bearers.now }
    ensures { Reads (λ x. x) result (counters_at packets moment bearers.now input.old.rest.now) input.new.rest.now }
{
    let last = last_at(moment, input)?;
    let buckets = buckets_of(alloc, bucket_count(bearers), input)?;
    let pieces = pieces_at(alloc, bearers, input)?;
    let held = all_held(alloc, packets, input)?;
    let parts = CountersParts {
        last,
        buckets,
        pieces,
        held,
    };
    Ok(parts)
}
