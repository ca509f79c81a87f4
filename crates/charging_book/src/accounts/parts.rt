//! A book's parts, and a book of parts.
ghost use Rattle.std.specs.Prelude.{◌≡◌, IfOk, IsTrue, length, map, vec_len};
ghost use Rattle.charging_book.specs.Parts.{ArePiecesOf, has_life, are_parts, book_with, counts_in, moments_in};
ghost use Rattle.charging_book.specs.Parts.{PartsRepresentTheSame};

use super::Book;
use crate::NoMemory;
use crate::records::{Open, Piece, Span};
use std::alloc::Global;

impl Book {
    ghost use Rattle.std.specs.Option.{SomeIff};

    /// The last pieces of the lives that aren't over, in the order of their starts.
    pub fn pieces(&self) -> Result<Vec<Piece>, NoMemory>
        ensures pieces { IfOk result (λ pieces. ArePiecesOf self.now pieces.items) }
        ensures parts { IfOk result (λ pieces. IsTrue (are_parts pieces.items)) }
    {
        pieces_of(*self.rows.allocator(), &self.opens, &self.spans)
    }

    /// The book of these pieces, with no rows; None exactly where two are of one life, or one has
    /// 1,000,000 octets or more.
    pub fn of(alloc: Global, pieces: &[Piece]) -> Result<Option<Book>, NoMemory>
        ensures { IfOk result (λ book. SomeIff book (IsTrue (are_parts pieces.now)) (book_with pieces.now)) }
    {
        if !are_parts(pieces) {
            return Ok(None);
        }
        Ok(Some(Book {
            opens: opens_of(alloc, pieces)?,
            spans: spans_of(alloc, pieces)?,
            rows: Vec::new(alloc),
        }))
    }
}

/// A book of another's pieces represents what that one does, once its rows were taken out.
pub fn parts_represent_the_same()
    ensures { PartsRepresentTheSame }
{}

// The pieces of these counters and moments.
fn pieces_of(alloc: Global, opens: &[Open], spans: &[Span]) -> Result<Vec<Piece>, NoMemory>
    requires { length spans.now ≡ length opens.now }
    ensures counts { IfOk result (λ pieces. map counts_in pieces.items ≡ opens.now) }
    ensures moments { IfOk result (λ pieces. map moments_in pieces.items ≡ spans.now) }
{
    let mut pieces = Vec::new(alloc);
    for place in 0..opens.len() {
        pieces.push(Piece::new(&opens[place], &spans[place]))?;
    }
    Ok(pieces)
}

fn opens_of(alloc: Global, pieces: &[Piece]) -> Result<Vec<Open>, NoMemory>
    ensures items { IfOk result (λ opens. opens.items ≡ map counts_in pieces.now) }
    ensures len { IfOk result (λ opens. vec_len opens ≡ length pieces.now) }
{
    pieces.iter().map(|piece| piece.counts).collect(alloc)
}

fn spans_of(alloc: Global, pieces: &[Piece]) -> Result<Vec<Span>, NoMemory>
    ensures items { IfOk result (λ spans. spans.items ≡ map moments_in pieces.now) }
    ensures len { IfOk result (λ spans. vec_len spans ≡ length pieces.now) }
{
    pieces.iter().map(|piece| Span::of(piece)).collect(alloc)
}

// Whether no two pieces are of one life, and none is full.
fn are_parts(pieces: &[Piece]) -> bool
    ensures { result ≡ are_parts pieces.now }
{
    let mut left = pieces;
    while let Some((first, others)) = left.split_first() {
        if has_life(others, first.counts.life) || !first.is_counting() {
            return false;
        }
        left = others;
    }
    true
}

fn has_life(pieces: &[Piece], life: u64) -> bool
    ensures { result ≡ has_life life pieces.now }
{
    pieces.iter().any(|piece| life == piece.counts.life)
}
