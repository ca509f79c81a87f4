ghost use Rattle.std.specs.Prelude.{◌≡◌, [], ◌∷◌, ◌<◌, ◌^◌, None, Ok, IfOk, IfSome, true};
ghost use Rattle.std.specs.Option.{option_map};
ghost use Rattle.gtpv2_msg.specs.Header.{IsRight};
ghost use Rattle.gtpv2_msg.specs.Kinds as kinds;
ghost use Rattle.gtpv2_msg.specs.Refusal.{
  IsRefusal,
  no_teid,
  cause_element,
  refusing,
  if_request,
  refusal_message,
  refusal_of,
};
ghost use Rattle.gtpv2_msg.specs.Spelling.{spelling};

use crate::fault::CBad;
use crate::header::seq_of;
use crate::kind::{ECHO_REQUEST, is_request};
use crate::message::{Ies, Msg};
use crate::writing::write;
use gtpv2_ie::cause_value::{MANDATORY_IE_INCORRECT, MANDATORY_IE_MISSING};
use gtpv2_ie::{CauseIe, Ie, IeValue};
use std::alloc::{AllocError as NoMemory, Global};

/// The TEID in the header of the answer to a request.
fn no_teid(request: u8) -> Option<u32>
    ensures value { result ≡ no_teid request }
    ensures range { IfSome result (λ teid. teid < 2 ^ 32) }
{
    if request == ECHO_REQUEST {
        None
    } else {
        Some(0)
    }
}

/// A Cause alone: what is refused, and the type and instance of the element that it is about.
fn cause_alone(alloc: Global, cause: u8, of: (u8, u8)) -> Result<Ies, NoMemory>
    requires { of.1 < 16 }
    ensures { IfOk result (λ ies. ies ≡ cause_element cause of ∷ []) }
{
    let mut ies = Vec::new(alloc);
    ies.push(Ie {
        instance: 0,
        value: IeValue::Cause(CauseIe {
            cause,
            offending: Some(of),
        }),
    })?;
    Ok(Ies::of(ies))
}

/// The answer to a request, with a Cause alone.
fn refuse(
    alloc: Global,
    request: u8,
    seq: u32,
    cause: u8,
    of: (u8, u8),
) -> Result<Vec<u8>, NoMemory>
    requires request { kinds.is_request request ≡ true }
    requires seq { seq < 2 ^ 24 }
    requires instance { of.1 < 16 }
    ensures { IfOk result (λ octets. octets.items ≡ spelling (refusing request seq cause of)) }
{
    let ies = cause_alone(alloc, cause, of)?;
    let message = Msg {
        kind: request + 1,
        teid: no_teid(request),
        seq,
        ies,
    };
    write(alloc, &message)
}

/// The answer to octets with a right header, if they are a request.
fn refuse_request(
    alloc: Global,
    bytes: &[u8],
    cause: u8,
    of: (u8, u8),
) -> Result<Option<Vec<u8>>, NoMemory>
    requires right { IsRight bytes.now }
    requires instance { of.1 < 16 }
    ensures reply { IfOk result (λ reply.
        option_map (λ v. v.items) reply ≡ option_map spelling (if_request bytes.now cause of)) }
    ensures silent { if_request bytes.now cause of ≡ None → result ≡ Ok None }
{
    if !is_request(bytes[1]) {
        return Ok(None);
    }
    Ok(Some(refuse(alloc, bytes[1], seq_of(bytes), cause, of)?))
}

/// The reply to a request that `read` refuses for an element: to its sequence number, with cause 70
/// where the element is missing and 69 where it is incorrect, to header TEID 0 (an Echo Response
/// has none). Nothing else is replied to.
pub fn refusal(alloc: Global, bytes: &[u8], bad: &CBad) -> Result<Option<Vec<u8>>, NoMemory>
    // It is what `read` answers on these octets.
    requires { IsRefusal bytes.now bad.now }
    ensures reply { IfOk result (λ reply. option_map (λ v. v.items) reply ≡ refusal_of bytes.now bad.now) }

    // That there is none, as to a response, is told without memory.
    ensures silent { refusal_message bytes.now bad.now ≡ None → result ≡ Ok None }
{
    match *bad {
        CBad::Missing { kind, instance } => {
            refuse_request(alloc, bytes, MANDATORY_IE_MISSING, (kind, instance))
        }
        CBad::Incorrect { kind, instance } => {
            refuse_request(alloc, bytes, MANDATORY_IE_INCORRECT, (kind, instance))
        }
        _ => Ok(None),
    }
}
