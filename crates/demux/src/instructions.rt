//! What an instruction of the operator means.
ghost use Rattle.std.specs.Prelude.{◌≡◌, ℕ, ◌<◌, codes, Some, None, IfOk, MatchResult};
ghost use Rattle.tft_codec.specs.declared.tft.Tft.{Tft};
ghost use Rattle.tft_codec.specs.Reading.{tft_at};
ghost use Rattle.tft_codec.specs.Refusal.{first_fault};
ghost use Rattle.bearer_state.specs.Bearer.{IsEbi, IsSeq};
ghost use Rattle.bearer_state.specs.Session.{IsAmbr};
ghost use Rattle.control_steps.specs.declared.command.CommandKind.{CommandKind};
ghost use Rattle.control_steps.specs.declared.command.CommandKind.TheVariants as commands;
ghost use Rattle.demux.specs.Asked as asked;
ghost use Rattle.demux.specs.Instructions.{seq_of_line, templated, instructed};
ghost use Rattle.demux.specs.Resolved.{resolved, command_or_note};

use crate::booking::whose;
use crate::texts::{template_note, words};
use crate::{Decision, Whose};
use address_book::AddressBook;
use control_steps::{Command, CommandKind};
use pc_base::{Imsi, Kbps, NoMemory, Octets, Peer, SliceNo, Slot};
use std::alloc::Global;
use tft_codec::{TBad, Tft, read};

/// The sequence number of a request that the instruction of a line makes.
pub fn seq_of_line(number: u64) -> u32
    ensures value { result ≡ seq_of_line number }
    ensures valid { IsSeq result }
{
    (number % 0x80_0000) as u32
}

/// An instruction that attaches the subscriber of an IMSI.
#[inline(never)]
#[tactic(auto, unfolding(crate::specs::Resolved::resolved))]
pub fn decide_attach<'a>(
    alloc: Global,
    book: &AddressBook,
    imsi: Imsi,
    enb: Peer,
    up: Kbps,
    down: Kbps,
) -> Result<Decision<'a>, NoMemory>
    requires up { IsAmbr up }
    requires down { IsAmbr down }
    ensures { (slices : ℕ) → IfOk result (λ decision. decision
        ≡ resolved slices book.now (asked.admission imsi (commands.Attach enb up down) (codes "pool"))) }
{
    match whose(book, imsi) {
        Some(whose) => Ok(Decision::Command {
            whose,
            command: Command {
                kind: CommandKind::Attach { enb, up, down },
            },
        }),
        None => Ok(Decision::Note(words(alloc, "pool")?)),
    }
}

fn unknown_imsi<'a>(alloc: Global) -> Result<Decision<'a>, NoMemory>
    ensures { IfOk result (λ decision. decision ≡ Decision.Note (codes "noimsi")) }
{
    Ok(Decision::Note(words(alloc, "noimsi")?))
}

/// An instruction for the subscriber of an IMSI.
#[inline(never)]
#[tactic(auto, unfolding(crate::specs::Resolved::resolved))]
pub fn decide_instruction<'a>(
    alloc: Global,
    book: &AddressBook,
    imsi: &Imsi,
    command: Command,
) -> Result<Decision<'a>, NoMemory>
    ensures { (slices : ℕ) → IfOk result (λ decision. decision
        ≡ resolved slices book.now (instructed imsi.now (asked.command command))) }
{
    match book.slot_of_imsi(imsi) {
        Some(slot) => Ok(known(slot, command)),
        None => unknown_imsi(alloc),
    }
}

/// An instruction that the subscriber of an IMSI goes to a slice.
#[inline(never)]
#[tactic(auto, unfolding(crate::specs::Resolved::resolved))]
pub fn decide_move<'a>(
    alloc: Global,
    book: &AddressBook,
    slices: u8,
    imsi: &Imsi,
    slice: SliceNo,
) -> Result<Decision<'a>, NoMemory>
    ensures { IfOk result (λ decision. decision ≡ resolved slices book.now (instructed imsi.now (asked.move slice))) }
{
    match book.slot_of_imsi(imsi) {
        Some(slot) if slice.0 < slices => Ok(Decision::Move { slot, slice }),
        Some(_) => Ok(Decision::Note(words(alloc, "noslice")?)),
        None => unknown_imsi(alloc),
    }
}

// The template that octets are, or their first fault.
fn read_template(alloc: Global, octets: &[u8]) -> Result<Result<Tft, TBad>, NoMemory>
    ensures { IfOk result (λ answer. MatchResult answer
        (λ tft. (first_fault octets.now ≡ None) × (tft ≡ tft_at octets.now))
        (λ bad. first_fault octets.now ≡ Some bad)) }
{
    match read(alloc, octets) {
        Ok(tft) => Ok(Ok(tft)),
        Err(TBad::NoMemory) => Err(NoMemory),
        Err(bad) => Ok(Err(bad)),
    }
}

// The slot of an IMSI and the template that octets are, or the note on an instruction that lacks one.
#[tactic(auto, unfolding(crate::specs::Instructions::templated, crate::specs::Resolved::resolved))]
fn slot_and_template(
    alloc: Global,
    book: &AddressBook,
    imsi: &Imsi,
    octets: &[u8],
) -> Result<Result<(Slot, Tft), Octets>, NoMemory>
    ensures { (slices : ℕ) (command_of : Tft → CommandKind) → IfOk result (λ answer.
        resolved slices book.now (instructed imsi.now (templated command_of octets.now))
        ≡ command_or_note command_of answer) }
{
    match book.slot_of_imsi(imsi) {
        Some(slot) => match read_template(alloc, octets)? {
            Ok(tft) => Ok(Ok((slot, tft))),
            Err(bad) => Ok(Err(words(alloc, template_note(bad))?)),
        },
        None => Ok(Err(words(alloc, "noimsi")?)),
    }
}

/// A bearer that an instruction asks for: its class (1 to 255) and its rates.
#[derive(Clone, Copy, Debug)]
pub struct NewBearer {
    pub qci: u8,
    pub mbr_up: Kbps,
    pub mbr_down: Kbps,
    pub gbr_up: Kbps,
    pub gbr_down: Kbps,
}

/// An instruction for one bearer more of the subscriber of an IMSI.
#[inline(never)]
#[tactic(auto, unfolding(crate::specs::Resolved::resolved))]
pub fn decide_bearer<'a>(
    alloc: Global,
    book: &AddressBook,
    imsi: &Imsi,
    seq: u32,
    bearer: NewBearer,
    octets: &[u8],
) -> Result<Decision<'a>, NoMemory>
    requires { IsSeq seq }
    ensures { (slices : ℕ) → IfOk result (λ decision. decision ≡ resolved slices book.now (instructed imsi.now
        (templated (λ tft. commands.AddBearer seq bearer.qci bearer.mbr_up bearer.mbr_down
        bearer.gbr_up bearer.gbr_down tft) octets.now))) }
{
    match slot_and_template(alloc, book, imsi, octets)? {
        Ok((slot, tft)) => {
            let kind = CommandKind::AddBearer {
                seq,
                qci: bearer.qci,
                mbr_up: bearer.mbr_up,
                mbr_down: bearer.mbr_down,
                gbr_up: bearer.gbr_up,
                gbr_down: bearer.gbr_down,
                tft,
            };
            Ok(known(slot, Command { kind }))
        }
        Err(note) => Ok(Decision::Note(note)),
    }
}

/// An instruction that changes the filters of a bearer of the subscriber of an IMSI.
#[inline(never)]
#[tactic(auto, unfolding(crate::specs::Resolved::resolved))]
pub fn decide_filters<'a>(
    alloc: Global,
    book: &AddressBook,
    imsi: &Imsi,
    seq: u32,
    ebi: u8,
    octets: &[u8],
) -> Result<Decision<'a>, NoMemory>
    requires seq { IsSeq seq }
    requires ebi { IsEbi ebi }
    ensures { (slices : ℕ) → IfOk result (λ decision. decision ≡ resolved slices book.now (instructed imsi.now
        (templated (λ tft. commands.Filters seq ebi tft) octets.now))) }
{
    match slot_and_template(alloc, book, imsi, octets)? {
        Ok((slot, tft)) => {
            let kind = CommandKind::Filters { seq, ebi, tft };
            Ok(known(slot, Command { kind }))
        }
        Err(note) => Ok(Decision::Note(note)),
    }
}

fn known<'a>(slot: Slot, command: Command) -> Decision<'a>
    ensures { result ≡ Decision.Command (Whose.Known slot) command }
{
    Decision::Command {
        whose: Whose::Known(slot),
        command,
    }
}
