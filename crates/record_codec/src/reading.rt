//! Octets to a state file.
ghost use Rattle.std.specs.Prelude.{◌≡◌, ◌≤◌, Some, IfOk, IfSome, IfNone};
ghost use Rattle.std.specs.Int.{w32};
ghost use Rattle.record_codec.specs.Saved.{FileState, IsFile};
ghost use Rattle.record_codec.specs.Spelling.{format_version, state};
ghost use Rattle.record_codec.specs.Read.{Reads, Gives, such, is_version, octet_at, is_pool, number_at, file_at};

use crate::NoMemory;
use crate::fault::Fault;
use crate::fields::{Input, count_at, moment_at, u8_at, u32_at};
use crate::state_file::{FORMAT_VERSION, StateFile};
use crate::subscribers::{book_of, subscribers_at};
use pc_base::LAST_SLOT;
use std::alloc::Global;

/// The octet of the version, which is this one.
#[tactic(auto, unfolding(crate::specs::Read::such))]
fn version_at(input: &mut Input<'_>) -> Result<(), Fault>
    ensures { Reads (λ _. format_version) result (such is_version octet_at input.old.rest.now) input.new.rest.now }
{
    let version = u8_at(input)?;
    if version != FORMAT_VERSION {
        return Err(Fault::NotState);
    }
    Ok(())
}

/// How many subscribers there are: at most one a slot.
#[tactic(auto, unfolding(crate::specs::Read::such))]
fn pool_at(input: &mut Input<'_>) -> Result<u32, Fault>
    ensures read { Reads (λ x. x) result (such is_pool (number_at w32) input.old.rest.now) input.new.rest.now }
    ensures range { IfOk result (λ x. x ≤ 65533) }
{
    let count = u32_at(input)?;
    if count > LAST_SLOT + 1 {
        return Err(Fault::NotState);
    }
    Ok(count)
}

#[tactic(auto, unfolding(crate::specs::Read::file_at, crate::specs::Read::fields_at, crate::specs::Read::and_then))]
fn file_of(alloc: Global, octets: &[u8]) -> Result<StateFile, Fault>
    ensures { Gives result (file_at octets.now) }
{
    let mut input = Input { rest: octets };
    version_at(&mut input)?;
    let lines = count_at(&mut input)?;
    let moment = moment_at(&mut input)?;
    let count = pool_at(&mut input)?;
    let found = subscribers_at(alloc, moment, count, &mut input)?;
    let book = book_of(alloc, &found.imsis)?;
    if !input.rest.is_empty() {
        return Err(Fault::NotState);
    }
    Ok(StateFile {
        lines,
        moment,
        book,
        subscribers: found.subscribers,
    })
}

/// The state file that the octets are, all of them; None exactly where no file has these octets.
pub fn read(alloc: Global, octets: &[u8]) -> Result<Option<StateFile>, NoMemory>
    // What is read is the file whose state the octets are, and what is such a state is read.
    ensures found { IfOk result (λ read. IfSome read (λ file. octets.now ≡ state file)) }
    ensures valid { IfOk result (λ read. IfSome read IsFile) }
    ensures only { (file : FileState) → IsFile file → octets.now ≡ state file
        → IfOk result (λ read. read ≡ Some file) }
    ensures none { IfOk result (λ read. IfNone read
        ((file : FileState) → IsFile file → octets.now ≡ state file → ⊥)) }
{
    match file_of(alloc, octets) {
        Ok(file) => Ok(Some(file)),
        Err(Fault::NotState) => Ok(None),
        Err(Fault::NoMemory) => Err(NoMemory),
    }
}
