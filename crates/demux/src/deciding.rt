//! What a line means.
ghost use Rattle.std.specs.Prelude.{◌≡◌, IfOk};
ghost use Rattle.demux.specs.Resolved.{decided, book_after, book_behind, HasMoment, IsDecision};

use crate::Decision;
use crate::instructions::{
    NewBearer, decide_attach, decide_bearer, decide_filters, decide_instruction, decide_move,
    seq_of_line,
};
use crate::mme::decide_mme;
use crate::texts::words;
use crate::tunnel::{decide_packet, decide_tunnel};
use address_book::AddressBook;
use control_steps::{Command, CommandKind};
use pc_base::NoMemory;
use std::alloc::Global;
use trace_lines::{LineKind, TraceLine};

/// What a line means by the book of the subscribers before it, where the gateway has so many slices.
/// A packet is lent from the line; what else a decision holds is made here.
#[inline(always)]
pub fn decide<'a>(
    alloc: Global,
    book: &AddressBook,
    slices: u8,
    line: &'a TraceLine,
) -> Result<Decision<'a>, NoMemory>
    ensures decision { IfOk result (λ decision. decision ≡ decided slices book.now line.now) }

    // The book behind the line is the book with whom the decision is for.
    ensures book { IfOk result (λ decision. book_behind book.now decision ≡ book_after book.now line.now) }
    ensures valid { IfOk result (IsDecision slices book.now) }

    // A packet came at the moment of its line.
    ensures moment { IfOk result (HasMoment line.now.moment) }
{
    decide_kind(alloc, book, slices, line)
}

// The same, by the kind of the line.
#[inline(never)]
#[tactic(auto, unfolding(crate::specs::Line::asked))]
fn decide_kind<'a>(
    alloc: Global,
    book: &AddressBook,
    slices: u8,
    line: &'a TraceLine,
) -> Result<Decision<'a>, NoMemory>
    ensures { IfOk result (λ decision. decision ≡ decided slices book.now line.now) }
{
    let seq = seq_of_line(line.number);
    match &line.kind {
        LineKind::S11 => decide_mme(alloc, book, line.octets.as_slice()),
        LineKind::S1u => decide_tunnel(alloc, book, line.moment, line.octets.as_slice()),
        LineKind::Sgi => decide_packet(alloc, book, line.moment, line.octets.as_slice()),
        LineKind::Attach {
            imsi,
            enb,
            up,
            down,
        } => decide_attach(alloc, book, *imsi, *enb, *up, *down),
        LineKind::Bearer {
            imsi,
            qci,
            mbr_up,
            mbr_down,
            gbr_up,
            gbr_down,
        } => {
            let bearer = NewBearer {
                qci: *qci,
                mbr_up: *mbr_up,
                mbr_down: *mbr_down,
                gbr_up: *gbr_up,
                gbr_down: *gbr_down,
            };
            decide_bearer(alloc, book, imsi, seq, bearer, line.octets.as_slice())
        }
        LineKind::Filters { imsi, ebi } => decide_filters(
            alloc,
            book,
            imsi,
            seq,
            *ebi,
            line.octets.as_slice(),
        ),
        LineKind::Drop { imsi, ebi } => decide_instruction(
            alloc,
            book,
            imsi,
            Command {
                kind: CommandKind::Drop { seq, ebi: *ebi },
            },
        ),
        LineKind::Ambr { imsi, up, down } => decide_instruction(
            alloc,
            book,
            imsi,
            Command {
                kind: CommandKind::Ambr {
                    seq,
                    up: *up,
                    down: *down,
                },
            },
        ),
        LineKind::Move { imsi, slice } => decide_move(alloc, book, slices, imsi, *slice),
        LineKind::Fence => Ok(Decision::Note(words(alloc, "fence")?)),
    }
}
