//! Subscribers, by slot.
ghost use Rattle.std.specs.Prelude.{◌≡◌, ◌<◌, ◌≤◌, ◌^◌, [], length, IfOk};
ghost use Rattle.std.specs.List.{AllByRecursion};
ghost use Rattle.record_codec.specs.Saved.{saved, all_saved, IsResting};
ghost use Rattle.record_codec.specs.Read.{Reads, Makes, such, octet_at, is_slice, imsi_at, subscriber_at};
ghost use Rattle.record_codec.specs.Read.{subscribers_at, are_new};

use crate::counters::counters_at;
use crate::fault::Fault;
use crate::fields::{Input, count_at, known_octets, measured_8, u8_at};
use crate::sessions::session_at;
use address_book::{AddressBook, AdmitNo};
use packet_steps::Counters;
use pc_base::{Imsi, Moment, SliceNo, Slot};
use std::alloc::Global;
use subscriber::Subscriber;

/// The last number of a slice.
const LAST_SLICE: u8 = 63;

#[tactic(auto, unfolding(crate::specs::Read::such))]
fn imsi_at(input: &mut Input<'_>) -> Result<Imsi, Fault>
    ensures { Reads (λ x. x) result (imsi_at input.old.rest.now) input.new.rest.now }
{
    let digits = measured_8(input)?;
    match Imsi::of(digits) {
        Some(imsi) => Ok(imsi),
        None => Err(Fault::NotState),
    }
}

#[tactic(auto, unfolding(crate::specs::Read::such))]
fn slice_at(input: &mut Input<'_>) -> Result<SliceNo, Fault>
    ensures { Reads (λ x. x) result (such is_slice octet_at input.old.rest.now) input.new.rest.now }
{
    let number = u8_at(input)?;
    if number > LAST_SLICE {
        return Err(Fault::NotState);
    }
    Ok(SliceNo(number))
}

/// A subscriber with its IMSI.
#[derive(Drop)]
pub(crate) struct FoundSubscriber {
    pub(crate) imsi: Imsi,
    pub(crate) subscriber: Subscriber,
}

/// The subscriber of a slot, with its IMSI.
#[tactic(auto, unfolding(crate::specs::Read::subscriber_at, crate::specs::Read::such, crate::specs::Read::and_then))]
fn subscriber_at(
    alloc: Global,
    moment: Moment,
    slot: Slot,
    input: &mut Input<'_>,
) -> Result<FoundSubscriber, Fault>
    requires { moment < 2 ^ 50 }
    ensures read { Reads (λ found. saved found.imsi found.subscriber) result
        (subscriber_at moment slot input.old.rest.now) input.new.rest.now }
    ensures resting { IfOk result (λ found. IsResting found.subscriber) }
{
    let imsi = imsi_at(input)?;
    let session = session_at(alloc, slot, input)?;
    let commands = count_at(input)?;
    let packets = count_at(input)?;
    let destination = slice_at(input)?;
    session.known();
    known_octets(input.rest);
    let version = session.version(commands)?;
    let parts = counters_at(alloc, packets, moment, version.bearers(), input)?;
    let made = Counters::of(&version, parts)?;
    match made {
        None => Err(Fault::NotState),
        Some(counters) => {
            let subscriber = Subscriber {
                session,
                version,
                counters,
                packets,
                destination,
            };
            Ok(FoundSubscriber { imsi, subscriber })
        }
    }
}

/// Subscribers by slot, with their IMSIs.
#[derive(Drop)]
pub(crate) struct AllFound {
    pub(crate) imsis: Vec<Imsi>,
    pub(crate) subscribers: Vec<Subscriber>,
}

/// So many subscribers, from slot 0 on, with their IMSIs.
pub(crate) fn subscribers_at(
    alloc: Global,
    moment: Moment,
    count: u32,
    input: &mut Input<'_>,
) -> Result<AllFound, Fault>
    requires pool { count ≤ 65533 }
    requires early { moment < 2 ^ 50 }
    ensures read { Reads (λ found. all_saved found.imsis.items found.subscribers.items) result
        (subscribers_at moment 0 count input.old.rest.now) input.new.rest.now }
    ensures imsis { IfOk result (λ found. length found.imsis.items ≡ count) }
    ensures each { IfOk result (λ found. length found.subscribers.items ≡ count) }
    ensures resting { IfOk result (λ found. AllByRecursion IsResting found.subscribers.items) }
{
    let mut imsis = Vec::new(alloc);
    let mut subscribers = Vec::new(alloc);
    for slot in 0..count {
        let found = subscriber_at(alloc, moment, Slot(slot), input)?;
        imsis.push(found.imsi)?;
        subscribers.push(found.subscriber)?;
    }
    Ok(AllFound { imsis, subscribers })
}

/// The book of IMSIs, of which no two are the same.
pub(crate) fn book_of(alloc: Global, imsis: &[Imsi]) -> Result<AddressBook, Fault>
    requires { length imsis.now ≤ 65533 }
    ensures { Makes result (are_new [] imsis.now) imsis.now }
{
    let mut book = AddressBook::new(alloc);
    for imsi in imsis {
        if book.slot_of_imsi(imsi).is_some() {
            return Err(Fault::NotState);
        }
        match book.admit_new(*imsi) {
            Ok(_) => {}
            Err(AdmitNo::NoMemory) => return Err(Fault::NoMemory),
            Err(AdmitNo::PoolUsed) => unreachable!(),
        }
    }
    Ok(book)
}
