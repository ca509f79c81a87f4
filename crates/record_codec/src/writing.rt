//! A state file to octets.
ghost use Rattle.std.specs.Prelude.{◌≡◌, ◌<◌, ◌≤◌, ◌^◌, [], ◌∷◌, ◌++◌, length, All, OnOk, IfOk, IfSome};
ghost use Rattle.std.specs.List.{flat_map};
ghost use Rattle.std.specs.Option.{option_copied};
ghost use Rattle.tft_codec.specs.declared.tft.Tft.TheVariants.{Create};
ghost use Rattle.tft_codec.specs.Filter.{IsFilter, AreFilters};
ghost use Rattle.tft_codec.specs.Spelling.{spelling};
ghost use Rattle.record_codec.specs.Saved.{piece_for, parts_of, saved, all_saved, IsAnswer, IsWritable};
ghost use Rattle.record_codec.specs.Spelling.{u8, u32, u64, flag, measured, optional, listed, peer_text};
ghost use Rattle.record_codec.specs.Spelling.{kept_text, phase_text};
ghost use Rattle.record_codec.specs.Spelling.{filter_text, qos_text, bearer_text, session_text, bucket_text};
ghost use Rattle.record_codec.specs.Spelling.{piece_text, text_for, held_text, counters_text, subscriber_text, state};

use crate::NoMemory;
use crate::state_file::{FORMAT_VERSION, StateFile};
use bearer_state::{ActiveBearer, Bearer, Kept, Phase, Qos, Session, Version};
use charging_book::Piece;
use packet_steps::{Counters, HeldPacket};
use pc_base::{Imsi, Kbps, Moment, Octets, Peer, SliceNo};
use rate_policer::Bucket;
use std::alloc::Global;
use subscriber::Subscriber;
use tft_codec::{Filter, PacketFilters, Tft};

fn put_u32(text: &mut Vec<u8>, number: u32) -> Result<(), NoMemory>
    ensures { OnOk result (text.new.items ≡ text.old.items ++ u32 number) }
{
    text.extend_from_slice(&number.to_be_bytes())
}

fn put_u64(text: &mut Vec<u8>, number: u64) -> Result<(), NoMemory>
    ensures { OnOk result (text.new.items ≡ text.old.items ++ u64 number) }
{
    text.extend_from_slice(&number.to_be_bytes())
}

fn put_flag(text: &mut Vec<u8>, is_set: bool) -> Result<(), NoMemory>
    ensures { OnOk result (text.new.items ≡ text.old.items ++ flag is_set) }
{
    text.push(if is_set { 1 } else { 0 })?;
    Ok(())
}

fn put_rate(text: &mut Vec<u8>, rate: Kbps) -> Result<(), NoMemory>
    ensures { OnOk result (text.new.items ≡ text.old.items ++ u64 rate) }
{
    put_u64(text, rate.0)
}

fn put_moment(text: &mut Vec<u8>, moment: Moment) -> Result<(), NoMemory>
    ensures { OnOk result (text.new.items ≡ text.old.items ++ u64 moment) }
{
    put_u64(text, moment.0)
}

fn put_slice(text: &mut Vec<u8>, slice: SliceNo) -> Result<(), NoMemory>
    ensures { OnOk result (text.new.items ≡ text.old.items ++ u8 slice) }
{
    text.push(slice.0)?;
    Ok(())
}

fn put_moment_or_none(text: &mut Vec<u8>, moment: Option<Moment>) -> Result<(), NoMemory>
    ensures { OnOk result (text.new.items ≡ text.old.items ++ optional u64 moment) }
{
    let Some(moment) = moment else {
        text.push(0)?;
        return Ok(());
    };
    text.push(1)?;
    put_moment(text, moment)
}

fn put_peer(text: &mut Vec<u8>, peer: Option<Peer>) -> Result<(), NoMemory>
    ensures { OnOk result (text.new.items ≡ text.old.items ++ optional peer_text peer) }
{
    let Some(peer) = peer else {
        text.push(0)?;
        return Ok(());
    };
    text.push(1)?;
    put_u32(text, peer.teid.0)?;
    put_u32(text, peer.addr.0)
}

fn put_kept(text: &mut Vec<u8>, kept: &Option<Kept>) -> Result<(), NoMemory>
    requires { IfSome kept.now IsAnswer }
    ensures { OnOk result (text.new.items ≡ text.old.items ++ optional kept_text kept.now) }
{
    let Some(kept) = kept else {
        text.push(0)?;
        return Ok(());
    };
    let reply = kept.reply.as_slice();
    text.push(1)?;
    text.push(kept.kind)?;
    put_u32(text, kept.seq)?;
    put_u32(text, reply.len() as u32)?;
    text.extend_from_slice(reply)
}

fn put_phase(text: &mut Vec<u8>, phase: Phase) -> Result<(), NoMemory>
    ensures { OnOk result (text.new.items ≡ text.old.items ++ phase_text phase) }
{
    match phase {
        Phase::Asked(seq) => {
            text.push(0)?;
            put_u32(text, seq)
        }
        Phase::Active(ebi) => {
            text.push(1)?;
            text.push(ebi)?;
            Ok(())
        }
    }
}

/// The template that creates a filter alone.
fn template_of(alloc: Global, filter: &Filter) -> Result<Vec<u8>, NoMemory>
    requires { IsFilter filter.now }
    ensures text { IfOk result (λ template. template.items ≡ spelling (Create (filter.now ∷ []))) }
    ensures bound { IfOk result (λ template. length template.items ≤ 706) }
{
    let copy = filter.try_clone()?;
    let mut filters = Vec::new(alloc);
    filters.push(copy)?;
    match PacketFilters::of(filters) {
        Some(filters) => tft_codec::write(alloc, &Tft::Create(filters)),
        None => unreachable!(),
    }
}

fn put_filter(text: &mut Vec<u8>, filter: &Filter) -> Result<(), NoMemory>
    requires { IsFilter filter.now }
    ensures { OnOk result (text.new.items ≡ text.old.items ++ filter_text filter.now) }
{
    let template = template_of(*text.allocator(), filter)?;
    text.extend_from_slice(&(template.len() as u16).to_be_bytes())?;
    text.extend_from_slice(&template)
}

fn put_filters(text: &mut Vec<u8>, filters: &[Filter]) -> Result<(), NoMemory>
    requires filters { AreFilters filters.now }
    requires few { length filters.now ≤ 16 }
    ensures { OnOk result (text.new.items ≡ text.old.items ++ listed filter_text filters.now) }
{
    text.push(filters.len() as u8)?;
    for filter in filters {
        put_filter(text, filter)?;
    }
    Ok(())
}

fn put_qos(text: &mut Vec<u8>, qos: Qos) -> Result<(), NoMemory>
    ensures { OnOk result (text.new.items ≡ text.old.items ++ qos_text qos) }
{
    text.push(qos.arp)?;
    text.push(qos.qci)?;
    put_rate(text, qos.mbr_up)?;
    put_rate(text, qos.mbr_down)?;
    put_rate(text, qos.gbr_up)?;
    put_rate(text, qos.gbr_down)?;
    Ok(())
}

fn put_bearer(text: &mut Vec<u8>, bearer: &Bearer) -> Result<(), NoMemory>
    ensures { OnOk result (text.new.items ≡ text.old.items ++ bearer_text bearer.now) }
{
    text.push(bearer.choice.index)?;
    put_u64(text, bearer.life)?;
    put_phase(text, bearer.phase)?;
    put_qos(text, bearer.qos)?;
    put_peer(text, bearer.enb)?;
    put_filters(text, bearer.choice.filters.as_slice())?;
    Ok(())
}

fn put_bearers(text: &mut Vec<u8>, bearers: &[Bearer]) -> Result<(), NoMemory>
    requires { length bearers.now ≤ 11 }
    ensures { OnOk result (text.new.items ≡ text.old.items ++ listed bearer_text bearers.now) }
{
    text.push(bearers.len() as u8)?;
    for bearer in bearers {
        put_bearer(text, bearer)?;
    }
    Ok(())
}

fn put_session(text: &mut Vec<u8>, session: &Session) -> Result<(), NoMemory>
    requires { IfSome session.now.last IsAnswer }
    ensures { OnOk result (text.new.items ≡ text.old.items ++ session_text session.now) }
{
    put_flag(text, session.live)?;
    put_peer(text, session.mme)?;
    put_rate(text, session.up)?;
    put_rate(text, session.down)?;
    put_u64(text, session.rates)?;
    put_u64(text, session.lives)?;
    put_kept(text, &session.last)?;
    put_bearers(text, session.bearers.as_slice())?;
    Ok(())
}

fn put_bucket(text: &mut Vec<u8>, bucket: &Bucket) -> Result<(), NoMemory>
    ensures { OnOk result (text.new.items ≡ text.old.items ++ bucket_text bucket.now) }
{
    put_rate(text, bucket.rate())?;
    put_u64(text, bucket.level())?;
    put_moment(text, bucket.last())
}

fn put_piece(text: &mut Vec<u8>, piece: &Piece) -> Result<(), NoMemory>
    ensures { OnOk result (text.new.items ≡ text.old.items ++ piece_text piece.now) }
{
    let counts = &piece.counts;
    put_u64(text, counts.seq)?;
    put_u64(text, counts.up_octets)?;
    put_u64(text, counts.down_octets)?;
    put_u64(text, counts.up_packets)?;
    put_u64(text, counts.down_packets)?;
    put_moment_or_none(text, piece.first)?;
    put_moment_or_none(text, piece.last)?;
    Ok(())
}

/// The piece of a bearer.
fn piece_for<'a>(pieces: &'a [Piece], bearer: &ActiveBearer) -> Option<&'a Piece>
    ensures { option_copied result ≡ piece_for pieces.now bearer.now }
{
    let life = bearer.life;
    pieces.iter().find(|piece| piece.counts.life == life)
}

/// The piece of a bearer, where it has one.
fn put_piece_for(
    text: &mut Vec<u8>,
    pieces: &[Piece],
    bearer: &ActiveBearer,
) -> Result<(), NoMemory>
    ensures { OnOk result (text.new.items ≡ text.old.items ++ text_for pieces.now bearer.now) }
{
    match piece_for(pieces, bearer) {
        Some(piece) => put_piece(text, piece),
        None => Ok(()),
    }
}

/// The pieces of bearers, in the order of these.
fn put_pieces(
    text: &mut Vec<u8>,
    bearers: &[ActiveBearer],
    pieces: &[Piece],
) -> Result<(), NoMemory>
    ensures { OnOk result (text.new.items ≡ text.old.items ++ flat_map (text_for pieces.now) bearers.now) }
{
    for bearer in bearers {
        put_piece_for(text, pieces, bearer)?;
    }
    Ok(())
}

fn put_held(text: &mut Vec<u8>, row: &HeldPacket) -> Result<(), NoMemory>
    requires { length row.now.packet.octets < 2 ^ 16 }
    ensures { OnOk result (text.new.items ≡ text.old.items ++ held_text row.now) }
{
    let octets = row.packet.octets.as_slice();
    put_u64(text, row.packet.number)?;
    put_moment(text, row.packet.moment)?;
    put_u64(text, row.life)?;
    put_u32(text, octets.len() as u32)?;
    text.extend_from_slice(octets)?;
    Ok(())
}

fn put_all_held(text: &mut Vec<u8>, held: &[HeldPacket]) -> Result<(), NoMemory>
    requires few { length held.now ≤ 16 }
    requires short { All (λ row. length row.packet.octets < 2 ^ 16) held.now }
    ensures { OnOk result (text.new.items ≡ text.old.items ++ listed held_text held.now) }
{
    text.push(held.len() as u8)?;
    for row in held {
        put_held(text, row)?;
    }
    Ok(())
}

fn put_buckets(text: &mut Vec<u8>, buckets: &[Bucket]) -> Result<(), NoMemory>
    ensures { OnOk result (text.new.items ≡ text.old.items ++ flat_map bucket_text buckets.now) }
{
    for bucket in buckets {
        put_bucket(text, bucket)?;
    }
    Ok(())
}

/// The parts of counters under the version that they represent.
fn put_counters(text: &mut Vec<u8>, version: &Version, counters: &Counters) -> Result<(), NoMemory>
    requires few { length counters.now.held ≤ 16 }
    requires short { All (λ row. length row.packet.octets < 2 ^ 16) counters.now.held }
    ensures { OnOk result (text.new.items ≡ text.old.items
        ++ counters_text (parts_of version.now.bearers counters.now)) }
{
    let parts = counters.parts(version)?;
    put_moment_or_none(text, parts.last)?;
    put_buckets(text, &parts.buckets)?;
    put_pieces(text, version.bearers(), &parts.pieces)?;
    put_all_held(text, &parts.held)?;
    Ok(())
}

fn put_imsi(text: &mut Vec<u8>, imsi: &Imsi) -> Result<(), NoMemory>
    ensures { OnOk result (text.new.items ≡ text.old.items ++ measured u8 imsi.now) }
{
    let digits = imsi.digits();
    text.push(digits.len() as u8)?;
    text.extend_from_slice(digits)
}

fn put_subscriber(text: &mut Vec<u8>, imsi: &Imsi, subscriber: &Subscriber) -> Result<(), NoMemory>
    requires { IsWritable subscriber.now }
    ensures { OnOk result (text.new.items ≡ text.old.items ++ subscriber_text (saved imsi.now subscriber.now)) }
{
    put_imsi(text, imsi)?;
    put_session(text, &subscriber.session)?;
    put_u64(text, subscriber.commands())?;
    put_u64(text, subscriber.packets)?;
    put_slice(text, subscriber.destination)?;
    put_counters(text, &subscriber.version, &subscriber.counters)?;
    Ok(())
}

fn put_subscribers(
    text: &mut Vec<u8>,
    imsis: &[Imsi],
    subscribers: &[Subscriber],
) -> Result<(), NoMemory>
    requires long { length imsis.now ≡ length subscribers.now }
    requires each { All IsWritable subscribers.now }
    ensures { OnOk result (text.new.items ≡ text.old.items
        ++ flat_map subscriber_text (all_saved imsis.now subscribers.now)) }
{
    for slot in 0..subscribers.len() {
        put_subscriber(text, &imsis[slot], &subscribers[slot])?;
    }
    Ok(())
}

/// The state of a file: its octets.
pub fn text(alloc: Global, file: &StateFile) -> Result<Octets, NoMemory>
    ensures { IfOk result (λ octets. octets ≡ state file.now) }
{
    let count = file.subscribers.len() as u32;
    let mut text = Vec::new(alloc);
    text.push(FORMAT_VERSION)?;
    put_u64(&mut text, file.lines)?;
    put_moment(&mut text, file.moment)?;
    put_u32(&mut text, count)?;
    put_subscribers(&mut text, file.book.imsis(), &file.subscribers)?;
    Ok(Octets::of(text))
}
