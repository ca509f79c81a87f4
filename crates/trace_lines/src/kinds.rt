//! The kinds of line with their arguments.
ghost use Rattle.std.specs.Prelude.{◌≡◌, ◌≢◌, ◌⊎◌, ◌∷◌, [], ℕ, List, Ok, Err, IfOk, OnOk, IfErr};
ghost use Rattle.std.specs.Prelude.{MatchResult, true, false};
ghost use Rattle.text_fields.specs.Fields.{space, pieces_left};
ghost use Rattle.trace_lines.specs.Beside.{with_octets};
ghost use Rattle.trace_lines.specs.Memory.{is_message, has_octets};
ghost use Rattle.trace_lines.specs.Meaning.{kind_meaning, attach_meaning, bearer_meaning};
ghost use Rattle.trace_lines.specs.Meaning.{filters_meaning, drop_meaning};
ghost use Rattle.trace_lines.specs.Meaning.{ambr_meaning, move_meaning, fence_meaning};
ghost use Rattle.trace_lines.specs.declared.bad.LineBad.TheVariants.{NoMemory, Field};

use crate::arguments::{
    read_address, read_bearer_rate, read_ebi, read_imsi, read_qci, read_session_rate, read_slice,
    read_teid,
};
use crate::message::{read_message, read_octets};
use crate::{LineBad, LineKind};
use pc_base::Peer;
use text_fields::{Text, next_piece};

// The kind goes into its place, and its octets, if it has some, in place of those that stood there.
#[inline(always)]
pub(crate) fn read_kind(
    kind: &mut LineKind,
    octets: &mut Text,
    word: &[u8],
    arguments: Option<&[u8]>,
) -> Result<(), LineBad>
    ensures kind { OnOk result (kind_meaning word.now (pieces_left space arguments.entry)
        ≡ Ok (with_octets kind.new octets.new)) }
    ensures refusal { IfErr result (λ why. (why ≡ NoMemory)
        ⊎ (kind_meaning word.now (pieces_left space arguments.entry) ≡ Err why)) }
    ensures memory { result ≡ Err NoMemory → has_octets word.now ≡ true }
{
    if word == b"S1U".as_slice() {
        read_message(octets, arguments)?;
        *kind = LineKind::S1u;
    } else if word == b"SGI".as_slice() {
        read_message(octets, arguments)?;
        *kind = LineKind::Sgi;
    } else if word == b"S11".as_slice() {
        read_message(octets, arguments)?;
        *kind = LineKind::S11;
    } else {
        *kind = read_order(octets, word, arguments)?;
    }
    Ok(())
}

// The operator's orders.
#[inline(never)]
fn read_order(octets: &mut Text, word: &[u8], arguments: Option<&[u8]>) -> Result<LineKind, LineBad>
    requires { is_message word.now ≡ false }
    ensures kind { IfOk result (λ kind. kind_meaning word.now (pieces_left space arguments.entry)
        ≡ Ok (with_octets kind octets.new)) }
    ensures refusal { IfErr result (λ why. (why ≡ NoMemory)
        ⊎ (kind_meaning word.now (pieces_left space arguments.entry) ≡ Err why)) }
    ensures memory { result ≡ Err NoMemory → has_octets word.now ≡ true }
{
    if word == b"ATTACH".as_slice() {
        read_attach(arguments)
    } else if word == b"BEARER".as_slice() {
        read_bearer(octets, arguments)
    } else if word == b"FILTERS".as_slice() {
        read_filters(octets, arguments)
    } else if word == b"DROP".as_slice() {
        read_drop(arguments)
    } else if word == b"AMBR".as_slice() {
        read_ambr(arguments)
    } else if word == b"MOVE".as_slice() {
        read_move(arguments)
    } else if word == b"FENCE".as_slice() {
        read_fence(arguments)
    } else {
        Err(LineBad::Kind)
    }
}

// The next argument, and what is left behind it.
fn field(left: Option<&[u8]>) -> Result<(&[u8], Option<&[u8]>), LineBad>
    ensures { MatchResult result (λ piece. pieces_left space left.entry ≡ piece.0.now ∷ pieces_left space piece.1)
        (λ why. (why ≡ Field) × (pieces_left space left.entry ≡ [])) }
{
    match next_piece(b' ', left) {
        Some(piece) => Ok(piece),
        None => Err(LineBad::Field),
    }
}

fn read_attach(arguments: Option<&[u8]>) -> Result<LineKind, LineBad>
    ensures kind { (octets : List ℕ) → IfOk result (λ kind. attach_meaning (pieces_left space arguments.entry)
        ≡ Ok (with_octets kind octets)) }
    ensures refusal { IfErr result (λ why. attach_meaning (pieces_left space arguments.entry) ≡ Err why) }
    ensures no_memory { IfErr result (λ why. why ≢ NoMemory) }
{
    let (imsi, rest) = field(arguments)?;
    let (address, rest) = field(rest)?;
    let (teid, rest) = field(rest)?;
    let (up, rest) = field(rest)?;
    let (down, rest) = field(rest)?;
    let None = next_piece(b' ', rest) else {
        return Err(LineBad::Field);
    };
    let imsi = read_imsi(imsi)?;
    let addr = read_address(address)?;
    let teid = read_teid(teid)?;
    let up = read_session_rate(up)?;
    let down = read_session_rate(down)?;
    let enb = Peer { teid, addr };
    Ok(LineKind::Attach {
        imsi,
        enb,
        up,
        down,
    })
}

fn read_bearer(octets: &mut Text, arguments: Option<&[u8]>) -> Result<LineKind, LineBad>
    ensures kind { IfOk result (λ kind. bearer_meaning (pieces_left space arguments.entry)
        ≡ Ok (with_octets kind octets.new)) }
    ensures refusal { IfErr result (λ why. (why ≡ NoMemory)
        ⊎ (bearer_meaning (pieces_left space arguments.entry) ≡ Err why)) }
{
    let (imsi, rest) = field(arguments)?;
    let (qci, rest) = field(rest)?;
    let (mbr_up, rest) = field(rest)?;
    let (mbr_down, rest) = field(rest)?;
    let (gbr_up, rest) = field(rest)?;
    let (gbr_down, rest) = field(rest)?;
    let (tft, rest) = field(rest)?;
    let None = next_piece(b' ', rest) else {
        return Err(LineBad::Field);
    };
    let imsi = read_imsi(imsi)?;
    let qci = read_qci(qci)?;
    let mbr_up = read_bearer_rate(mbr_up)?;
    let mbr_down = read_bearer_rate(mbr_down)?;
    let gbr_up = read_bearer_rate(gbr_up)?;
    let gbr_down = read_bearer_rate(gbr_down)?;
    read_octets(octets, tft)?;
    Ok(LineKind::Bearer {
        imsi,
        qci,
        mbr_up,
        mbr_down,
        gbr_up,
        gbr_down,
    })
}

fn read_filters(octets: &mut Text, arguments: Option<&[u8]>) -> Result<LineKind, LineBad>
    ensures kind { IfOk result (λ kind. filters_meaning (pieces_left space arguments.entry)
        ≡ Ok (with_octets kind octets.new)) }
    ensures refusal { IfErr result (λ why. (why ≡ NoMemory)
        ⊎ (filters_meaning (pieces_left space arguments.entry) ≡ Err why)) }
{
    let (imsi, rest) = field(arguments)?;
    let (ebi, rest) = field(rest)?;
    let (tft, rest) = field(rest)?;
    let None = next_piece(b' ', rest) else {
        return Err(LineBad::Field);
    };
    let imsi = read_imsi(imsi)?;
    let ebi = read_ebi(ebi)?;
    read_octets(octets, tft)?;
    Ok(LineKind::Filters { imsi, ebi })
}

fn read_drop(arguments: Option<&[u8]>) -> Result<LineKind, LineBad>
    ensures kind { (octets : List ℕ) → IfOk result (λ kind. drop_meaning (pieces_left space arguments.entry)
        ≡ Ok (with_octets kind octets)) }
    ensures refusal { IfErr result (λ why. drop_meaning (pieces_left space arguments.entry) ≡ Err why) }
    ensures no_memory { IfErr result (λ why. why ≢ NoMemory) }
{
    let (imsi, rest) = field(arguments)?;
    let (ebi, rest) = field(rest)?;
    let None = next_piece(b' ', rest) else {
        return Err(LineBad::Field);
    };
    let imsi = read_imsi(imsi)?;
    let ebi = read_ebi(ebi)?;
    Ok(LineKind::Drop { imsi, ebi })
}

fn read_ambr(arguments: Option<&[u8]>) -> Result<LineKind, LineBad>
    ensures kind { (octets : List ℕ) → IfOk result (λ kind. ambr_meaning (pieces_left space arguments.entry)
        ≡ Ok (with_octets kind octets)) }
    ensures refusal { IfErr result (λ why. ambr_meaning (pieces_left space arguments.entry) ≡ Err why) }
    ensures no_memory { IfErr result (λ why. why ≢ NoMemory) }
{
    let (imsi, rest) = field(arguments)?;
    let (up, rest) = field(rest)?;
    let (down, rest) = field(rest)?;
    let None = next_piece(b' ', rest) else {
        return Err(LineBad::Field);
    };
    let imsi = read_imsi(imsi)?;
    let up = read_session_rate(up)?;
    let down = read_session_rate(down)?;
    Ok(LineKind::Ambr { imsi, up, down })
}

fn read_move(arguments: Option<&[u8]>) -> Result<LineKind, LineBad>
    ensures kind { (octets : List ℕ) → IfOk result (λ kind. move_meaning (pieces_left space arguments.entry)
        ≡ Ok (with_octets kind octets)) }
    ensures refusal { IfErr result (λ why. move_meaning (pieces_left space arguments.entry) ≡ Err why) }
    ensures no_memory { IfErr result (λ why. why ≢ NoMemory) }
{
    let (imsi, rest) = field(arguments)?;
    let (slice, rest) = field(rest)?;
    let None = next_piece(b' ', rest) else {
        return Err(LineBad::Field);
    };
    let imsi = read_imsi(imsi)?;
    let slice = read_slice(slice)?;
    Ok(LineKind::Move { imsi, slice })
}

fn read_fence(arguments: Option<&[u8]>) -> Result<LineKind, LineBad>
    ensures kind { (octets : List ℕ) → IfOk result (λ kind. fence_meaning (pieces_left space arguments.entry)
        ≡ Ok (with_octets kind octets)) }
    ensures refusal { IfErr result (λ why. fence_meaning (pieces_left space arguments.entry) ≡ Err why) }
    ensures no_memory { IfErr result (λ why. why ≢ NoMemory) }
{
    let None = next_piece(b' ', arguments) else {
        return Err(LineBad::Field);
    };
    Ok(LineKind::Fence)
}
