//! The fourth sentence, of a slot in an epoch: the first reply, or else the first verdict, that isn't the sequential
//! gateway's.

ghost use Rattle.std.specs.Prelude.{◌≡◌, ◌↔◌, ◌∷◌, filter_map, option_map, Some, IfNone, IfOk, IfSome, IsTrue, OnOk};
ghost use Rattle.std.specs.List.{cons_option};
ghost use Rattle.packet_steps.specs.Lent.{verdict_of};
ghost use Rattle.report_lines.specs.Lent.{IsShort};
ghost use Rattle.report_lines.specs.declared.entry.Entry.TheVariants as of_entry;
ghost use Rattle.slot_execution.specs.Replaying.{AreShort, replies_in, verdicts_in};
ghost use Rattle.audit_core.specs.Answers.{reply_in, verdict_in};
ghost use Rattle.audit_core.specs.Gateway.{IsOther, ReplyBreak, VerdictBreak, none_told, reply_due, verdict_due};
ghost use Rattle.audit_core.specs.Meant.{line_told, lines_of};
ghost use Rattle.audit_core.specs.Played.{reply_made, verdict_made, IfShort};
ghost use Rattle.audit_core.specs.Telling.{said_of, tells};

use crate::NoMemory;
use crate::telling::{Break, SaidEntry, answer_said, dash, judgement_said, line_said, tells};
use crate::told_line::ToldLine;
use bumpalo::Bump;
use packet_steps::{LentVerdict, gpdu};
use pc_base::{Octets, Reply, Slot, Verdict};
use report_lines::LineEntry;
use slot_execution::{NumberedReply, NumberedVerdict};
use std::alloc::Global;
use std::collections::VecDeque;

// More were made than are told.
fn missing(alloc: Global, slot: Slot) -> Result<Break, NoMemory>
    ensures { IfOk result (λ found. found ≡ none_told slot) }
{
    Ok(Break {
        line: None,
        slot: Some(slot),
        entry: dash(alloc)?,
        due: dash(alloc)?,
    })
}

// The entry of a command with another reply.
fn reply_due(
    alloc: Global,
    entry: &LineEntry,
    reply: &Option<NumberedReply>,
) -> Result<Option<SaidEntry>, NoMemory>
    ensures { IfOk result (λ said. said ≡ option_map said_of (reply_due entry.now (reply_made reply.now))) }
{
    let Some(made) = reply else {
        return Ok(None);
    };
    match entry {
        LineEntry::C(told) => Ok(Some(answer_said(
            alloc,
            told.line,
            told.slot,
            told.number,
            &made.reply,
        )?)),
        LineEntry::N(_) | LineEntry::P(_) | LineEntry::F(_) => Ok(None),
    }
}

// The entry of a packet with another verdict.
fn verdict_due(
    alloc: Global,
    entry: &LineEntry,
    verdict: &Option<NumberedVerdict<'_>>,
) -> Result<Option<SaidEntry>, NoMemory>
    requires { IfShort verdict.now }
    ensures { IfOk result (λ said. said ≡ option_map said_of (verdict_due entry.now (verdict_made verdict.now))) }
{
    let Some(made) = verdict else {
        return Ok(None);
    };
    match entry {
        LineEntry::P(told) => Ok(Some(judgement_said(
            alloc,
            told.line,
            told.slot,
            told.number,
            told.commands,
            &owned(alloc, &made.verdict)?,
        )?)),
        LineEntry::N(_) | LineEntry::C(_) | LineEntry::F(_) => Ok(None),
    }
}

// The verdict with octets of its own.
fn owned(alloc: Global, lent: &LentVerdict<'_>) -> Result<Verdict, NoMemory>
    requires { IsShort lent.now }
    ensures { IfOk result (λ verdict. verdict ≡ verdict_of lent.now) }
{
    match lent {
        LentVerdict::Up { life, octets } => Ok(Verdict::Up {
            life: *life,
            octets: Octets::of(Vec::from_slice(alloc, octets)?),
        }),
        LentVerdict::Down { life, peer, octets } => Ok(Verdict::Down {
            life: *life,
            peer: peer.addr,
            octets: gpdu(alloc, *peer, octets)?,
        }),
        LentVerdict::NoBearer => Ok(Verdict::NoBearer),
        LentVerdict::Spoof => Ok(Verdict::Spoof),
        LentVerdict::Idle { life } => Ok(Verdict::Idle { life: *life }),
        LentVerdict::Held { life, message } => Ok(Verdict::Held {
            life: *life,
            message: copy_of(message)?,
        }),
        LentVerdict::Policed { life } => Ok(Verdict::Policed { life: *life }),
    }
}

fn copy_of(message: &Option<Octets>) -> Result<Option<Octets>, NoMemory>
    ensures { IfOk result (λ copy. copy ≡ message.now) }
{
    match message {
        Some(octets) => Ok(Some(octets.try_clone()?)),
        None => Ok(None),
    }
}

// Whether a verdict is the one that is told; the octets of one that goes up are compared where they lie.
fn same_verdict(alloc: Global, made: &LentVerdict<'_>, told: &Verdict) -> Result<bool, NoMemory>
    requires { IsShort made.now }
    ensures { IfOk result (λ same. IsTrue same ↔ (verdict_of made.now ≡ told.now)) }
{
    match (made, told) {
        (
            LentVerdict::Up { life, octets },
            Verdict::Up {
                life: own,
                octets: said,
            },
        ) => Ok(life == own && *octets == said.as_slice()),
        _ => Ok(owned(alloc, made)? == *told),
    }
}

fn same_reply(made: &Option<NumberedReply>, told: &Reply) -> bool
    ensures { IsTrue result ↔ (reply_made made.now ≡ Some told.now) }
{
    match made {
        Some(made) => made.reply == *told,
        None => false,
    }
}

fn is_verdict(
    alloc: Global,
    made: &Option<NumberedVerdict<'_>>,
    told: &Verdict,
) -> Result<bool, NoMemory>
    requires { IfShort made.now }
    ensures { IfOk result (λ same. IsTrue same ↔ (verdict_made made.now ≡ Some told.now)) }
{
    match made {
        Some(made) => same_verdict(alloc, &made.verdict, told),
        None => Ok(false),
    }
}

// What was made in place of the reply that a line tells; None where it is the next one, which is taken, or no reply is
// told.
fn other_reply(
    made: &mut VecDeque<NumberedReply>,
    told: &ToldLine<'_>,
) -> Option<Option<NumberedReply>>
    ensures same { IfNone result (replies_in made.old.items
        ≡ cons_option (reply_in (line_told told.now)) (replies_in made.new.items)) }
    ensures other { IfSome result (λ own.
        IsOther (reply_in (line_told told.now)) (replies_in made.old.items) (reply_made own)) }
{
    match told.entry {
        LineEntry::C(answered) => {
            let own = made.pop_front();
            if same_reply(&own, &answered.reply) {
                None
            } else {
                Some(own)
            }
        }
        _ => None,
    }
}

// What was made in place of this verdict; None where it is the next one, which is taken.
fn unlike_verdict<'a>(
    alloc: Global,
    made: &mut VecDeque<NumberedVerdict<'a>, &Bump>,
    said: &Verdict,
) -> Result<Option<Option<NumberedVerdict<'a>>>, NoMemory>
    requires { AreShort made.old.items }
    ensures same { IfOk result (λ found. IfNone found
        (verdicts_in made.old.items ≡ said.now ∷ verdicts_in made.new.items)) }
    ensures other { IfOk result (λ found. IfSome found (λ own.
        IsOther (Some said.now) (verdicts_in made.old.items) (verdict_made own) × IfShort own)) }
    ensures short { OnOk result (AreShort made.new.items) }
{
    let own = made.pop_front();
    let same = is_verdict(alloc, &own, said)?;
    if same {
        return Ok(None);
    }
    Ok(Some(own))
}

// The same of the verdict that a line tells, if it tells one.
fn other_verdict<'a>(
    alloc: Global,
    made: &mut VecDeque<NumberedVerdict<'a>, &Bump>,
    told: &ToldLine<'_>,
) -> Result<Option<Option<NumberedVerdict<'a>>>, NoMemory>
    requires { AreShort made.old.items }
    ensures same { IfOk result (λ found. IfNone found (verdicts_in made.old.items
        ≡ cons_option (verdict_in (line_told told.now)) (verdicts_in made.new.items))) }
    ensures other { IfOk result (λ found. IfSome found (λ own.
        IsOther (verdict_in (line_told told.now)) (verdicts_in made.old.items) (verdict_made own) × IfShort own)) }
    ensures short { OnOk result (AreShort made.new.items) }
{
    match told.entry {
        LineEntry::P(judged) => unlike_verdict(alloc, made, &judged.verdict),
        _ => Ok(None),
    }
}

// The break at a line whose reply is another than the one made.
fn reply_differs(
    alloc: Global,
    entry: &LineEntry,
    own: &Option<NumberedReply>,
) -> Result<Break, NoMemory>
    ensures { IfOk result (λ found. found
        ≡ tells (Some (of_entry.Line entry.now)) (reply_due entry.now (reply_made own.now))) }
{
    let said = line_said(alloc, entry)?;
    let due = reply_due(alloc, entry, own)?;
    tells(alloc, Some(said), due)
}

fn verdict_differs(
    alloc: Global,
    entry: &LineEntry,
    own: &Option<NumberedVerdict<'_>>,
) -> Result<Break, NoMemory>
    requires { IfShort own.now }
    ensures { IfOk result (λ found. found
        ≡ tells (Some (of_entry.Line entry.now)) (verdict_due entry.now (verdict_made own.now))) }
{
    let said = line_said(alloc, entry)?;
    let due = verdict_due(alloc, entry, own)?;
    tells(alloc, Some(said), due)
}

/// The first reply of a slot's lines that isn't the one made; None where all are, and no more were made.
pub(crate) fn reply_broken(
    alloc: Global,
    slot: Slot,
    made: &mut VecDeque<NumberedReply>,
    lines: &[ToldLine<'_>],
) -> Result<Option<Break>, NoMemory>
    ensures some { IfOk result (λ found. IfSome found
        (ReplyBreak slot (replies_in made.old.items) (lines_of lines.now))) }
    ensures none { IfOk result (λ found. IfNone found
        (filter_map reply_in (lines_of lines.now) ≡ replies_in made.old.items)) }
{
    for told in lines {
        if let Some(own) = other_reply(made, told) {
            return Ok(Some(reply_differs(alloc, told.entry, &own)?));
        }
    }
    if made.is_empty() {
        return Ok(None);
    }
    Ok(Some(missing(alloc, slot)?))
}

/// The same of verdicts.
pub(crate) fn verdict_broken(
    alloc: Global,
    slot: Slot,
    made: &mut VecDeque<NumberedVerdict<'_>, &Bump>,
    lines: &[ToldLine<'_>],
) -> Result<Option<Break>, NoMemory>
    requires { AreShort made.old.items }
    ensures some { IfOk result (λ found. IfSome found
        (VerdictBreak slot (verdicts_in made.old.items) (lines_of lines.now))) }
    ensures none { IfOk result (λ found. IfNone found
        (filter_map verdict_in (lines_of lines.now) ≡ verdicts_in made.old.items)) }
{
    for told in lines {
        let found = other_verdict(alloc, made, told)?;
        if let Some(own) = found {
            return Ok(Some(verdict_differs(alloc, told.entry, &own)?));
        }
    }
    if made.is_empty() {
        return Ok(None);
    }
    Ok(Some(missing(alloc, slot)?))
}
