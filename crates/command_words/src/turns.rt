//! The turns of workers that a command line asks for.
ghost use Rattle.std.specs.Prelude.{◌≡◌, ◌==◌, ◌<◌, ◌^◌, count_by, length, nat_le, option_map, IfOk};
ghost use Rattle.text_fields.specs.Fields.{pieces};
ghost use Rattle.text_fields.specs.Number.{number_in};
ghost use Rattle.command_words.specs.declared.turns.AskedTurns.TheVariants as asked;
ghost use Rattle.command_words.specs.Turns.{comma, drawn, most_turns, numbers_in, turns_in};

use pc_base::Items;
use std::alloc::{AllocError, Global};
use text_fields::{next_piece, read_number};

/// Numbers of workers in the order of their turns. Seen as their list.
pub type TurnList = Items<u32>;

/// Which turns stand behind each line. A worker's number is below twice the number of slices.
#[derive(Drop)]
pub enum AskedTurns {
    /// None.
    NoTurns,
    /// 1 to 1,024 turns, the same behind each line.
    Listed(TurnList),
    /// So many drawn ones (0 to 64), from a seed.
    Drawn { seed: u64, per: u32 },
}

// The number that the text is, up to a last one with 32 bits.
fn small_in(text: &[u8], last: u64) -> Option<u32>
    requires { last < 2 ^ 32 }
    ensures { result ≡ number_in 0 last text.now }
{
    let number = read_number(text, 0, last)?;
    Some(number as u32)
}

// The numbers up to a last one between commas; None where a piece is none.
fn numbers_in(alloc: Global, text: &[u8], last: u64) -> Result<Option<TurnList>, AllocError>
    requires { last < 2 ^ 32 }
    ensures { IfOk result (λ numbers. numbers ≡ numbers_in last (pieces comma text.now)) }
{
    let mut turns = Vec::new(alloc);
    let mut left = Some(text);
    while let Some((piece, behind)) = next_piece(b',', left) {
        let Some(turn) = small_in(piece, last) else {
            return Ok(None);
        };
        turns.push(turn)?;
        left = behind;
    }
    Ok(Some(Items::of(turns)))
}

// Whether there are at most as many pieces between commas as there may be turns.
fn has_few_pieces(text: &[u8]) -> bool
    ensures { result ≡ nat_le (length (pieces comma text.now)) most_turns }
{
    commas(text) < 1_024
}

fn commas(text: &[u8]) -> usize
    ensures { result ≡ count_by (λ octet. octet == comma) text.now }
{
    text.iter().filter(|octet| **octet == b',').count()
}

// The turns that the text lists, each up to a last number: 1 to 1,024 numbers with a comma between each two.
fn listed(alloc: Global, text: &[u8], last: u64) -> Result<Option<TurnList>, AllocError>
    requires { last < 2 ^ 32 }
    ensures { IfOk result (λ turns. turns ≡ turns_in last text.now) }
{
    if has_few_pieces(text) {
        numbers_in(alloc, text, last)
    } else {
        Ok(None)
    }
}

/// The same as turns of a command line.
pub fn listed_turns(alloc: Global, text: &[u8], last: u64) -> Result<Option<AskedTurns>, AllocError>
    requires { last < 2 ^ 32 }
    ensures { IfOk result (λ turns. turns ≡ option_map asked.Listed (turns_in last text.now)) }
{
    match listed(alloc, text, last)? {
        Some(turns) => Ok(Some(AskedTurns::Listed(turns))),
        None => Ok(None),
    }
}

/// Turns drawn from the seed that a text is, so many behind each line as another text says; None where one is no such
/// number.
pub fn drawn(seed: &[u8], per: &[u8]) -> Option<AskedTurns>
    ensures { result ≡ drawn seed.now per.now }
{
    let seed = read_number(seed, 0, u64::MAX)?;
    let per = small_in(per, 64)?;
    Some(AskedTurns::Drawn { seed, per })
}
