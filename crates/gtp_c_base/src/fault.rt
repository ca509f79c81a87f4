//! Refusals as numbers.
ghost use Rattle.std.specs.Prelude.{◌≡◌};
ghost use Rattle.gtp_c_base.specs.Fault.{message_code};

use crate::code::{INCORRECT, KIND, LENGTH, MISSING, NO_MEMORY, PIGGYBACK, SHORT, VERSION};
use gtpv2_msg::CBad;

/// The number of a refusal of a GTPv2-C message.
pub fn message_code(bad: CBad) -> u32
    ensures { result ≡ message_code bad }
{
    match bad {
        CBad::Short => SHORT,
        CBad::Version => VERSION,
        CBad::Piggyback => PIGGYBACK,
        CBad::Length => LENGTH,
        CBad::Kind => KIND,
        CBad::Missing { .. } => MISSING,
        CBad::Incorrect { .. } => INCORRECT,
        CBad::NoMemory => NO_MEMORY,
    }
}
