//! The octets of packets.
ghost use Rattle.std.specs.Prelude.{◌≡◌, ◌≤◌, ◌++◌, replicate, OnOk};
ghost use Rattle.trace_maker.specs.Packets.{downlink, packet, uplink};
ghost use Rattle.trace_maker.specs.Said.{IsLength};

use gtpu_codec::gpdu_head;
use pc_base::{Addr4, NoMemory, Slot, TeidUse, addr_of, teid_of};
use wire_octets::{be16_octets, be32_octets};

// 203.0.113.9.
const SERVER: Addr4 = Addr4(0xcb00_7109);

const HEADER_LEN: usize = 20;

const MOST_ZEROS: [u8; 180] = [0; 180];

// Appends a packet of the subscriber, in its tunnel.
pub(crate) fn push_uplink(octets: &mut Vec<u8>, slot: Slot, len: u16) -> Result<(), NoMemory>
    requires { IsLength len }
    ensures { OnOk result (octets.new.items ≡ octets.old.items ++ uplink slot len) }
{
    let teid = teid_of(slot, TeidUse::Bearer(0));
    octets.extend_from_slice(&gpdu_head(teid, len))?;
    push_packet(octets, len, addr_of(slot), SERVER)?;
    Ok(())
}

// Appends a packet to the subscriber.
pub(crate) fn push_downlink(octets: &mut Vec<u8>, slot: Slot, len: u16) -> Result<(), NoMemory>
    requires { IsLength len }
    ensures { OnOk result (octets.new.items ≡ octets.old.items ++ downlink slot len) }
{
    push_packet(octets, len, SERVER, addr_of(slot))
}

fn push_packet(
    octets: &mut Vec<u8>,
    len: u16,
    source: Addr4,
    destination: Addr4,
) -> Result<(), NoMemory>
    requires { IsLength len }
    ensures { OnOk result (octets.new.items ≡ octets.old.items ++ packet len source destination) }
{
    let [len_high, len_low] = be16_octets(len);
    let [from_0, from_1, from_2, from_3] = be32_octets(source.0);
    let [to_0, to_1, to_2, to_3] = be32_octets(destination.0);
    octets.extend_from_slice(&[
        0x45, 0, len_high, len_low, 0, 0, 0, 0, 0x40, 0xfd, 0, 0, from_0, from_1, from_2, from_3,
        to_0, to_1, to_2, to_3,
    ])?;
    octets.extend_from_slice(zeros(usize::from(len) - HEADER_LEN))
}

fn zeros(count: usize) -> &'static [u8]
    requires { count ≤ 180 }
    ensures { result.now ≡ replicate count 0 }
{
    &MOST_ZEROS[..count]
}
