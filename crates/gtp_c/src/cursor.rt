//! Elements one after another.
ghost use Rattle.std.specs.Prelude.{◌≡◌, ◌≢◌};
ghost use Rattle.gtpv2_ie.specs.Stand.{StandsAt};
ghost use Rattle.gtp_c.specs.Cursor.{raw_said, ie_code};

use gtp_c_base::code::{END, LENGTH, SHORT};
use gtpv2_ie::{IeBad, ie_at};

/// An element: its value is the octets from `from` up to `to`, where the next element begins.
#[repr(C)]
#[derive(Clone, Copy, Drop)]
pub struct Ie {
    pub from: usize,
    pub to: usize,
    pub kind: u8,
    pub instance: u8,
}

/// The element whose header begins at a place of some octets (TS 29.274, section 8.2.1): begin at 0, go on
/// at `to`.
#[unsafe(no_mangle)]
pub extern "C" fn gtp_c_ie_at(octets: &[u8], at: usize, ie: &mut Ie) -> u32
    ensures code { result ≡ ie_code octets.now at }
    ensures found { result ≡ 0 → StandsAt octets.now at (raw_said ie.new) }
    ensures refused { result ≢ 0 → ie.new ≡ ie.old }
{
    if at >= octets.len() {
        return END;
    }
    match ie_at(octets, at) {
        Ok(found) => {
            *ie = Ie {
                from: found.from,
                to: found.to,
                kind: found.kind,
                instance: found.instance,
            };
            0
        }
        Err(IeBad::Short) => SHORT,
        Err(_) => LENGTH,
    }
}
