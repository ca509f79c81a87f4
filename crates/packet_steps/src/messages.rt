//! The messages that packets call for.
ghost use Rattle.std.specs.Prelude.{◌≡◌, ◌<◌, ◌≤◌, ◌^◌, length, IfOk};
ghost use Rattle.packet_steps.specs.Messages.{gpdu, end_marker, notification};

use crate::NoMemory;
use gtpu_codec::GtpU;
use gtpv2_ie::{Ie, IeValue};
use gtpv2_msg::{DOWNLINK_DATA_NOTIFICATION, Ies, Msg};
use pc_base::{Octets, Peer};
use std::alloc::Global;

/// A packet in the tunnel to an eNodeB.
#[tactic(auto, unfolding(crate::specs::Messages::gpdu))]
pub fn gpdu(alloc: Global, peer: Peer, octets: &[u8]) -> Result<Octets, NoMemory>
    requires { length octets.now < 2 ^ 16 }
    ensures { IfOk result (λ text. text ≡ gpdu peer octets.now) }
{
    gtpu_codec::write_gpdu(alloc, peer.teid, octets)
}

/// The End Marker to the eNodeB that a bearer leaves.
#[tactic(auto, unfolding(crate::specs::Messages::end_marker))]
pub(crate) fn end_marker(alloc: Global, peer: Peer) -> Result<Octets, NoMemory>
    ensures { IfOk result (λ text. text ≡ end_marker peer) }
{
    gtpu_codec::write(alloc, &GtpU::EndMarker { teid: peer.teid })
}

/// The Downlink Data Notification of a packet that is held, for the bearer of an EBI.
#[tactic(auto, unfolding(crate::specs::Messages::notification))]
pub fn notification(alloc: Global, mme: Peer, number: u64, ebi: u8) -> Result<Octets, NoMemory>
    requires least { 5 ≤ ebi }
    requires most { ebi ≤ 15 }
    ensures { IfOk result (λ text. text ≡ notification mme number ebi) }
{
    let mut ies = Vec::new(alloc);
    ies.push(Ie {
        instance: 0,
        value: IeValue::Ebi(ebi),
    })?;
    let message = Msg {
        kind: DOWNLINK_DATA_NOTIFICATION,
        teid: Some(mme.teid.0),
        seq: (number % 0x80_0000) as u32,
        ies: Ies::of(ies),
    };
    Ok(Octets::of(gtpv2_msg::write(alloc, &message)?))
}
