//! GTPv2-C: the head of a message.
ghost use Rattle.std.specs.Prelude.{◌≡◌, ◌≢◌, ◌^◌, ◌<◌, ◌==◌, true, is_some, if◌then◌else◌, Some};
ghost use Rattle.std.specs.Prelude.{None, MatchOption};
ghost use Rattle.gtpv2_msg.specs.Refusal.{header_fault};
ghost use Rattle.gtp_c_base.specs.Fault.{code_of};
ghost use Rattle.gtp_c.specs.Gtpv2.{Says};

use gtp_c_base::message_code;
use gtpv2_msg::read_header;

/// The head of a message, and where its elements lie. `teid` counts where `has_teid` is 1.
#[repr(C)]
#[derive(Clone, Copy, Drop)]
pub struct Gtpv2Head {
    pub ies_from: usize,
    pub ies_len: usize,
    pub teid: u32,
    pub seq: u32,
    pub has_teid: u8,
    pub kind: u8,
}

fn teid_numbers(teid: Option<u32>) -> (u8, u32)
    ensures { teid ≡ (if result.0 == 0 then None else Some result.1) }
{
    match teid {
        Some(teid) => (1, teid),
        None => (0, 0),
    }
}

/// The head of the message at the start of some octets: the one caller of `read_header`, which is so compiled into it.
#[tactic(auto, using(crate::proofs::HeadLemmas::some_code))]
pub(crate) fn head_of(bytes: &[u8], head: &mut Gtpv2Head) -> u32
    ensures code { result ≡ code_of (header_fault bytes.now) }
    ensures message { MatchOption (header_fault bytes.now) (Says head.new bytes.now) (λ _. head.new ≡ head.old) }
    ensures fault { result ≡ 0 → header_fault bytes.now ≡ None }
    ensures refused { result ≢ 0 → is_some (header_fault bytes.now) ≡ true }
    ensures right { result ≡ 0 → Says head.new bytes.now }
    ensures seq { result ≡ 0 → head.new.seq < 2 ^ 24 }
{
    match read_header(bytes) {
        Err(bad) => message_code(bad),
        Ok(found) => {
            let (has_teid, teid) = teid_numbers(found.teid);
            *head = Gtpv2Head {
                ies_from: found.from,
                ies_len: found.to - found.from,
                teid,
                seq: found.seq,
                has_teid,
                kind: found.kind,
            };
            0
        }
    }
}

/// The head of the message at the start of some octets.
#[unsafe(no_mangle)]
pub extern "C" fn gtp_c_gtpv2_head(bytes: &[u8], head: &mut Gtpv2Head) -> u32
    ensures code { result ≡ code_of (header_fault bytes.now) }
    ensures message { MatchOption (header_fault bytes.now) (Says head.new bytes.now) (λ _. head.new ≡ head.old) }
{
    head_of(bytes, head)
}
