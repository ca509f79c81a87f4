//! The header of a capture.
ghost use Rattle.std.specs.Prelude.{◌≡◌, ◌<◌, ◌≤◌, length, Some, IfSome};
ghost use Rattle.pcap_form.specs.Head.{IsHead, head_in, head_of, link_of, magic_of, which};

use crate::numbers::{number16_at, number32_at};

/// How many octets the header of a capture has.
pub const HEAD_LEN: usize = 24;

// The magic of a capture with fractions in microseconds, and in nanoseconds.
const MICROSECONDS: u32 = 0xa1b2_c3d4;

const NANOSECONDS: u32 = 0xa1b2_3c4d;

// The major version of the format.
const MAJOR: u16 = 2;

// The link types: packets without a link header, and frames of Ethernet.
const RAW_IP: u32 = 101;

const ETHERNET: u32 = 1;

/// What a capture's header fixes: numbers in little-endian order, fractions of a second in
/// nanoseconds, records that hold frames of Ethernet. Where one is false, numbers are in network
/// byte order, fractions in microseconds, records hold IP packets.
#[derive(Clone, Copy, Debug, Drop, PartialEq, Eq)]
pub struct CaptureHead {
    pub little: bool,
    pub nanos: bool,
    pub ethernet: bool,
}

/// The header that octets are; None exactly at an unknown magic, a major version other than 2, or a
/// link type other than Ethernet (1) and raw IP (101). Minor version and snapshot length aren't
/// looked at.
pub fn read_head(bytes: &[u8; 24]) -> Option<CaptureHead>
    // What is read is the header, and each header is read.
    ensures found { IfSome result (IsHead bytes.now) }
    ensures only { (head : CaptureHead) → IsHead bytes.now head → result ≡ Some head }

    // The same in one word.
    ensures head { result ≡ head_of bytes.now }
{
    match head_in(false, bytes.as_slice()) {
        Some(head) => Some(head),
        None => head_in(true, bytes.as_slice()),
    }
}

// The header in this byte order.
fn head_in(little: bool, bytes: &[u8]) -> Option<CaptureHead>
    requires { 24 ≤ length bytes.now }
    ensures { result ≡ head_in little bytes.now }
{
    let nanos = nanos_of(number32_at(little, bytes, 0))?;
    if number16_at(little, bytes, 4) != MAJOR {
        return None;
    }
    let ethernet = ethernet_of(number32_at(little, bytes, 20) % 0x1_0000)?;
    Some(CaptureHead {
        little,
        nanos,
        ethernet,
    })
}

// Whether the fractions of this magic are nanoseconds.
fn nanos_of(magic: u32) -> Option<bool>
    ensures { result ≡ which magic_of magic }
{
    match magic {
        NANOSECONDS => Some(true),
        MICROSECONDS => Some(false),
        _ => None,
    }
}

// Whether the link of this type is Ethernet.
fn ethernet_of(link: u32) -> Option<bool>
    ensures { result ≡ which link_of link }
{
    match link {
        ETHERNET => Some(true),
        RAW_IP => Some(false),
        _ => None,
    }
}
