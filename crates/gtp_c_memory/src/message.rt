//! A whole message of GTPv2-C.
ghost use Rattle.std.specs.Prelude.{◌≡◌, ◌≢◌, ◌⊎◌, IfSome, Some};
ghost use Rattle.gtpv2_msg.specs.Refusal.{first_fault, IsFraming};
ghost use Rattle.gtp_c_base.specs.Fault.{code_of, message_code};
ghost use Rattle.gtp_c_memory.specs.Message.{element_of};

use gtp_c_base::message_code;
use gtpv2_msg::{CBad, read};
use std::alloc::Global;

/// The type and the instance of the element that is missing or incorrect.
#[repr(C)]
#[derive(Clone, Copy, Drop)]
pub struct Gtpv2Fault {
    pub kind: u8,
    pub instance: u8,
}

/// The fault, with the element that it is about, where it is about one.
fn element_of(bad: &CBad, old: Gtpv2Fault) -> Gtpv2Fault
    ensures { result ≡ element_of (Some bad.now) old }
{
    match *bad {
        CBad::Missing { kind, instance } | CBad::Incorrect { kind, instance } => Gtpv2Fault {
            kind,
            instance,
        },
        _ => old,
    }
}

/// Looks the message at the start of some octets through, with the elements that its type asks for: 0, or the
/// first fault.
#[unsafe(no_mangle)]
pub extern "C" fn gtp_c_gtpv2_check(alloc: Global, bytes: &[u8], fault: &mut Gtpv2Fault) -> u32
    ensures code { (result ≡ 20) ⊎ (result ≡ code_of (first_fault bytes.now)) }

    // A fault of the header or of the list of elements is told without memory.
    ensures framing { IfSome (first_fault bytes.now) (λ bad. IsFraming bad → result ≡ message_code bad) }
    ensures element { result ≢ 20 → fault.new ≡ element_of (first_fault bytes.now) fault.old }
{
    match read(alloc, bytes) {
        Ok(_) => 0,
        Err(bad) => {
            *fault = element_of(&bad, *fault);
            message_code(bad)
        }
    }
}
