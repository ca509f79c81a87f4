//! Arguments of a line.
ghost use Rattle.std.specs.Prelude.{◌≡◌};
ghost use Rattle.std.specs.Option.{ok_or};
ghost use Rattle.text_fields.specs.Address.{address_of};
ghost use Rattle.trace_lines.specs.Arguments.{imsi_of, teid_of};
ghost use Rattle.trace_lines.specs.Meaning.{number_meaning, session_rate, bearer_rate};
ghost use Rattle.trace_lines.specs.declared.bad.LineBad.TheVariants.{Number};

use crate::LineBad;
use pc_base::{Addr4, Imsi, Kbps, SliceNo, Teid};
use text_fields::{decode, read_number};

const FIRST_QCI: u64 = 1;

const LAST_QCI: u64 = 255;

const FIRST_EBI: u64 = 5;

const LAST_EBI: u64 = 15;

const LAST_SLICE: u64 = 63;

// Rates of a session have 32 bits, those of a bearer 40.
const LAST_SESSION_RATE: u64 = (1 << 32) - 1;

const LAST_BEARER_RATE: u64 = (1 << 40) - 1;

pub(crate) fn read_in(text: &[u8], least: u64, last: u64) -> Result<u64, LineBad>
    ensures { result ≡ number_meaning least last text.now }
{
    read_number(text, least, last).ok_or(LineBad::Number)
}

pub(crate) fn read_imsi(text: &[u8]) -> Result<Imsi, LineBad>
    ensures { result ≡ ok_or (imsi_of text.now) Number }
{
    match Imsi::of(text) {
        Some(imsi) => Ok(imsi),
        None => Err(LineBad::Number),
    }
}

pub(crate) fn read_address(text: &[u8]) -> Result<Addr4, LineBad>
    ensures { result ≡ ok_or (address_of text.now) Number }
{
    match text_fields::read_address(text) {
        Some(address) => Ok(Addr4(address)),
        None => Err(LineBad::Number),
    }
}

pub(crate) fn read_teid(text: &[u8]) -> Result<Teid, LineBad>
    ensures { result ≡ ok_or (teid_of text.now) Number }
{
    if text.len() != 8 {
        return Err(LineBad::Number);
    }
    let mut octets = [0; 4];
    if decode(text, &mut octets) {
        Ok(Teid(u32::from_be_bytes(octets)))
    } else {
        Err(LineBad::Number)
    }
}

pub(crate) fn read_session_rate(text: &[u8]) -> Result<Kbps, LineBad>
    ensures { result ≡ session_rate text.now }
{
    let rate = read_in(text, 0, LAST_SESSION_RATE)?;
    Ok(Kbps(rate))
}

pub(crate) fn read_bearer_rate(text: &[u8]) -> Result<Kbps, LineBad>
    ensures { result ≡ bearer_rate text.now }
{
    let rate = read_in(text, 0, LAST_BEARER_RATE)?;
    Ok(Kbps(rate))
}

pub(crate) fn read_ebi(text: &[u8]) -> Result<u8, LineBad>
    ensures { result ≡ number_meaning 5 15 text.now }
{
    let ebi = read_in(text, FIRST_EBI, LAST_EBI)?;
    Ok(ebi as u8)
}

pub(crate) fn read_qci(text: &[u8]) -> Result<u8, LineBad>
    ensures { result ≡ number_meaning 1 255 text.now }
{
    let qci = read_in(text, FIRST_QCI, LAST_QCI)?;
    Ok(qci as u8)
}

pub(crate) fn read_slice(text: &[u8]) -> Result<SliceNo, LineBad>
    ensures { result ≡ number_meaning 0 63 text.now }
{
    let slice = read_in(text, 0, LAST_SLICE)?;
    Ok(SliceNo(slice as u8))
}
