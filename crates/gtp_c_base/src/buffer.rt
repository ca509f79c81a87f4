//! The caller's buffer.
ghost use Rattle.gtp_c_base.specs.Buffer.{Writes};

use crate::code::NO_ROOM;

/// Writes octets to the start of a buffer, if they fit, and says how many they are.
pub fn put(octets: &[u8], out: &mut [u8], needed: &mut usize) -> u32
    ensures { Writes octets.now result out.old out.new needed.new }
{
    *needed = octets.len();
    if out.len() < octets.len() {
        return NO_ROOM;
    }
    let (prefix, _) = out.split_at_mut(octets.len());
    prefix.copy_from_slice(octets);
    0
}
