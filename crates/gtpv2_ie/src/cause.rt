ghost use Rattle.std.specs.Prelude.{◌≡◌, ◌≤◌, ◌++◌, length, IfSome, OnOk};
ghost use Rattle.gtpv2_ie.specs.Spelling.{ie_octets, cause_octets};
ghost use Rattle.gtpv2_ie.specs.Kind.{least_len};
ghost use Rattle.gtpv2_ie.specs.Fields.{cause_of};
ghost use Rattle.gtpv2_ie.specs.Validity.{IsCause};

use crate::kind::IeKind;
use crate::writing::push_ie;
use std::alloc::AllocError as NoMemory;

/// A Cause (TS 29.274, 8.4).
/// 1: cause   2: flags, ignored   and in the longer form   3: offending type   4-5: zero   6: instance
#[derive(Clone, Copy, Debug, PartialEq, Eq)]
pub struct CauseIe {
    pub cause: u8,
    /// The type and the instance, below 16, of the element that the cause is about.
    pub offending: Option<(u8, u8)>,
}

/// The Cause that two octets or more spell: with six the longer form, else the shorter one (TS
/// 29.274, section 8.4). None where the longer form is none.
pub fn cause_of(octets: &[u8]) -> Option<CauseIe>
    requires { least_len IeKind.Cause ≤ length octets.now }
    ensures value { result ≡ cause_of octets.now }
    ensures valid { IfSome result IsCause }
    ensures no_longer { IfSome result (λ cause. length (cause_octets cause) ≤ length octets.now) }
{
    match octets {
        [cause, _, kind, high, low, instance] => {
            if *high != 0 || *low != 0 {
                return None;
            }
            Some(CauseIe {
                cause: *cause,
                offending: Some((*kind, instance & 15)),
            })
        }
        _ => Some(CauseIe {
            cause: octets[0],
            offending: None,
        }),
    }
}

/// Appends a Cause as an element, with its flags 0.
pub fn push_cause(out: &mut Vec<u8>, instance: u8, cause: &CauseIe) -> Result<(), NoMemory>
    ensures { OnOk result (out.new.items ≡ out.old.items ++ ie_octets 2 instance (cause_octets cause.now)) }
{
    match cause.offending {
        None => push_ie(out, IeKind::Cause, instance, &[cause.cause, 0]),
        Some((kind, of)) => push_ie(
            out,
            IeKind::Cause,
            instance,
            &[cause.cause, 0, kind, 0, 0, of],
        ),
    }
}
