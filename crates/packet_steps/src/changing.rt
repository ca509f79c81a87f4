//! What a new version brings for the charging book, and for eNodeBs that are left.
ghost use Rattle.std.specs.Prelude.{◌≡◌, [], ◌∷◌, ◌++◌, map, filter, IfOk, OnOk, if◌then◌else◌};
ghost use Rattle.std.specs.Option.{option_copied};
ghost use Rattle.charging_book.specs.Postings.{happening_of};
ghost use Rattle.packet_steps.specs.Change.{has_life, bearer_of, enb_of, same_peer, shares_ambr, shared_with};
ghost use Rattle.packet_steps.specs.Change.{lacking_in};
ghost use Rattle.packet_steps.specs.Change.{marks, marks_between, marker_between, markers};

use crate::NoMemory;
use crate::messages::end_marker;
use bearer_state::{ActiveBearer, Version, is_guaranteed};
use charging_book::{Posting, Why};
use pc_base::{Effect, Peer};
use std::alloc::Global;

/// What the book hears of a new version.
pub fn marks(alloc: Global, before: &Version, after: &Version) -> Result<Vec<Posting>, NoMemory>
    ensures { IfOk result (λ postings. map happening_of postings.items ≡ marks before.now after.now) }
{
    marks_between(
        alloc,
        before.rates < after.rates,
        before.bearers(),
        after.bearers(),
    )
}

fn marks_between(
    alloc: Global,
    was_set: bool,
    before: &[ActiveBearer],
    after: &[ActiveBearer],
) -> Result<Vec<Posting>, NoMemory>
    ensures { IfOk result (λ postings. map happening_of postings.items ≡ marks_between was_set before.now after.now) }
{
    let mut postings = ended(alloc, before, after)?;
    push_cut(&mut postings, was_set, before, after)?;
    push_begun(&mut postings, before, after)?;
    Ok(postings)
}

/// The lives that are over.
fn ended(
    alloc: Global,
    before: &[ActiveBearer],
    after: &[ActiveBearer],
) -> Result<Vec<Posting>, NoMemory>
    ensures { IfOk result (λ postings. postings.items
        ≡ map (λ bearer. Posting.Close bearer.life Why.Gone) (lacking_in after.now before.now)) }
{
    before
        .iter()
        .filter(|bearer| !has_life(after, bearer.life))
        .map(|bearer| Posting::Close {
            life: bearer.life,
            why: Why::Gone,
        })
        .collect(alloc)
}

/// Where the AMBR was set, the pieces of the lives that go on without a guaranteed rate.
fn push_cut(
    postings: &mut Vec<Posting>,
    was_set: bool,
    before: &[ActiveBearer],
    after: &[ActiveBearer],
) -> Result<(), NoMemory>
    ensures { OnOk result (postings.new.items ≡ postings.old.items
        ++ (if was_set then map (λ bearer. Posting.Close bearer.life Why.Qos)
        (filter shares_ambr (shared_with after.now before.now)) else [])) }
{
    if !was_set {
        return Ok(());
    }
    for bearer in before {
        push_piece(postings, after, bearer)?;
    }
    Ok(())
}

fn push_piece(
    postings: &mut Vec<Posting>,
    after: &[ActiveBearer],
    bearer: &ActiveBearer,
) -> Result<(), NoMemory>
    ensures { OnOk result (postings.new.items ≡ postings.old.items
        ++ map (λ bearer. Posting.Close bearer.life Why.Qos)
        (filter shares_ambr (shared_with after.now (bearer.now ∷ [])))) }
{
    if !has_life(after, bearer.life) {
        return Ok(());
    }
    if is_guaranteed(bearer.qos.qci) {
        return Ok(());
    }
    postings.push(Posting::Close {
        life: bearer.life,
        why: Why::Qos,
    })?;
    Ok(())
}

/// The lives that begin.
fn push_begun(
    postings: &mut Vec<Posting>,
    before: &[ActiveBearer],
    after: &[ActiveBearer],
) -> Result<(), NoMemory>
    ensures { OnOk result (postings.new.items ≡ postings.old.items
        ++ map (λ bearer. Posting.Start bearer.life bearer.ebi bearer.qos.qci) (lacking_in before.now after.now)) }
{
    for bearer in after {
        push_start(postings, before, bearer)?;
    }
    Ok(())
}

fn push_start(
    postings: &mut Vec<Posting>,
    before: &[ActiveBearer],
    bearer: &ActiveBearer,
) -> Result<(), NoMemory>
    ensures { OnOk result (postings.new.items ≡ postings.old.items
        ++ map (λ bearer. Posting.Start bearer.life bearer.ebi bearer.qos.qci)
        (lacking_in before.now (bearer.now ∷ []))) }
{
    if has_life(before, bearer.life) {
        return Ok(());
    }
    postings.push(Posting::Start {
        life: bearer.life,
        ebi: bearer.ebi,
        qci: bearer.qos.qci,
    })?;
    Ok(())
}

/// The End Markers of a new version.
pub fn markers(alloc: Global, before: &Version, after: &Version) -> Result<Vec<Effect>, NoMemory>
    ensures { IfOk result (λ effects. effects.items ≡ markers before.now after.now) }
{
    let mut effects = Vec::new(alloc);
    for bearer in before.bearers() {
        push_marker(
            alloc,
            &mut effects,
            bearer,
            enb_of(after.bearers(), bearer.life),
        )?;
    }
    Ok(effects)
}

fn push_marker(
    alloc: Global,
    effects: &mut Vec<Effect>,
    bearer: &ActiveBearer,
    enb: Option<Peer>,
) -> Result<(), NoMemory>
    ensures { OnOk result (effects.new.items ≡ effects.old.items ++ marker_between bearer.now.life bearer.now.enb enb) }
{
    let (Some(old), Some(new)) = (bearer.enb, enb) else {
        return Ok(());
    };
    if same_peer(old, new) {
        return Ok(());
    }
    effects.push(Effect::Marker {
        life: bearer.life,
        peer: old.addr,
        octets: end_marker(alloc, old)?,
    })?;
    Ok(())
}

fn same_peer(peer: Peer, other: Peer) -> bool
    ensures { result ≡ same_peer peer other }
{
    peer.teid.0 == other.teid.0 && peer.addr.0 == other.addr.0
}

/// Where the downlink packets of a life go.
fn enb_of(bearers: &[ActiveBearer], life: u64) -> Option<Peer>
    ensures { result ≡ enb_of bearers.now life }
{
    match bearer_of(bearers, life) {
        Some(bearer) => bearer.enb,
        None => None,
    }
}

/// The bearer of a life.
pub fn bearer_of<'b>(bearers: &'b [ActiveBearer], life: u64) -> Option<&'b ActiveBearer>
    ensures { option_copied result ≡ bearer_of bearers.now life }
{
    bearers.iter().find(|bearer| bearer.life == life)
}

/// Whether a life is active.
pub(crate) fn has_life(bearers: &[ActiveBearer], life: u64) -> bool
    ensures { result ≡ has_life bearers.now life }
{
    bearers.iter().any(|bearer| bearer.life == life)
}
