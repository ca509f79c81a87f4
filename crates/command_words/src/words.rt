//! From words to a job.
ghost use Rattle.std.specs.Prelude.{◌≡◌, ◌^◌, ◌<◌, ◌≤◌, Some, List, IfOk, IfSome};
ghost use Rattle.std.specs.Prelude.{bytes_eq, codes, find, is_some, map};
ghost use Rattle.std.specs.List.{list_any};
ghost use Rattle.std.specs.Option.{option_map, option_map_or};
ghost use Rattle.std.specs.String.{string_bytes};
ghost use Rattle.clap.specs.Words.{first_value, found_of, subcommand_rows_of};
ghost use Rattle.text_fields.specs.Number.{number_in};
ghost use Rattle.command_words.specs.Job.{Command, IsInRange, asked_of, audit_forms, audit_job, audit_of};
ghost use Rattle.command_words.specs.Job.{balance_forms, balance_job, commands, has_number, job_of};
ghost use Rattle.command_words.specs.Job.{LanesInRange, drive_forms, drive_job, lanes_audit, lanes_by, make_forms};
ghost use Rattle.command_words.specs.Job.{make_job, replay_forms, replay_job, solo_audit};
ghost use Rattle.command_words.specs.Options.{Given};
ghost use Rattle.command_words.specs.Program.{Gives, found_asked};
ghost use Rattle.command_words.specs.Turns.{turns_asked};
ghost use Rattle.command_words.specs.Words.{Text, is_stray, word_of};

use crate::jobs::{Job, Lanes};
use crate::program::program;
use crate::turns::{AskedTurns, drawn, listed_turns};
use clap::ArgMatches;
use clap::error::ErrorKind;
use std::alloc::{AllocError, Global};
use text_fields::read_number;

// Whether the word is none that a command has: it begins with a hyphen, and not as `--name` does.
fn is_stray(word: &[u8]) -> bool
    ensures { result ≡ is_stray (word_of word.now) }
{
    match word {
        [b'-', b'-', _, ..] => false,
        [b'-', ..] => true,
        _ => false,
    }
}

fn has_stray(words: &[String]) -> bool
    ensures { result ≡ list_any (λ word. is_stray (word_of (string_bytes word))) words.now }
{
    words.iter().any(|word| is_stray(word.as_bytes()))
}

// The number of an option, or its default; None where its text is no number from `least` to
// `last`.
fn number(matches: &ArgMatches<'_>, name: &str, least: u64, last: u64, default: u64) -> Option<u64>
    ensures { result ≡ option_map_or (number_in least last) (first_value (found_of matches.now) name.now)
        (Some default) }
{
    match matches.get_str(name) {
        Some(text) => read_number(text.as_bytes(), least, last),
        None => Some(default),
    }
}

// The same of a number with 32 bits.
fn small_number(
    matches: &ArgMatches<'_>,
    name: &str,
    least: u64,
    last: u64,
    default: u64,
) -> Option<u32>
    requires last { last < 2 ^ 32 }
    requires default { default < 2 ^ 32 }
    ensures { result ≡ option_map_or (number_in least last) (first_value (found_of matches.now) name.now)
        (Some default) }
{
    let number = number(matches, name, least, last, default)?;
    Some(number as u32)
}

// The same of a number with 8 bits.
fn octet_number(
    matches: &ArgMatches<'_>,
    name: &str,
    least: u64,
    last: u64,
    default: u64,
) -> Option<u8>
    requires last { last < 2 ^ 8 }
    requires default { default < 2 ^ 8 }
    ensures { result ≡ option_map_or (number_in least last) (first_value (found_of matches.now) name.now)
        (Some default) }
{
    let number = number(matches, name, least, last, default)?;
    Some(number as u8)
}

fn make_job(matches: &ArgMatches<'_>) -> Option<Job>
    ensures { (given : List Given) → Gives matches.now make_forms given → result ≡ make_job given }
{
    let seed = number(matches, "seed", 0, u64::MAX, 1)?;
    let subs = small_number(matches, "subs", 1, 65_533, 10)?;
    let lines = small_number(matches, "lines", 0, 100_000, 1_000)?;
    Some(Job::Make {
        seed,
        subs,
        lines,
        summary: matches.get_flag("summary"),
    })
}

// `audit --solo` has no numbers.
fn audit_job(matches: &ArgMatches<'_>) -> Option<Job>
    ensures { (given : List Given) → Gives matches.now audit_forms given → result ≡ audit_job given }
{
    if matches.get_flag("solo") {
        solo_audit(matches)
    } else {
        lanes_audit(matches)
    }
}

fn solo_audit(matches: &ArgMatches<'_>) -> Option<Job>
    ensures { (given : List Given) → Gives matches.now audit_forms given → result ≡ solo_audit given }
{
    if has_number(matches) {
        return None;
    }
    let lanes = Lanes {
        slices: 64,
        room: 64,
        lane: 1_024,
    };
    Some(audit_of(matches, true, lanes))
}

// The audit of a gateway on one thread, or of lanes: of a whole report, or along with it.
fn audit_of(matches: &ArgMatches<'_>, solo: bool, lanes: Lanes) -> Job
    ensures { (given : List Given) → Gives matches.now audit_forms given → result ≡ audit_of given solo lanes }
{
    let Lanes { slices, room, lane } = lanes;
    let why = matches.get_flag("why");
    if matches.get_flag("along") {
        Job::Along {
            solo,
            slices,
            room,
            lane,
            why,
        }
    } else {
        Job::Audit {
            solo,
            slices,
            room,
            lane,
            why,
        }
    }
}

fn has_number(matches: &ArgMatches<'_>) -> bool
    ensures { (given : List Given) → Gives matches.now audit_forms given → result ≡ has_number given }
{
    let slices = has_value(matches, "slices");
    let room = has_value(matches, "room");
    let lane = has_value(matches, "lane");
    slices | room | lane
}

fn has_value(matches: &ArgMatches<'_>, name: &str) -> bool
    ensures { result ≡ is_some (first_value (found_of matches.now) name.now) }
{
    matches.get_str(name).is_some()
}

fn lanes_audit(matches: &ArgMatches<'_>) -> Option<Job>
    ensures { (given : List Given) → Gives matches.now audit_forms given → result ≡ lanes_audit given }
{
    let lanes = lanes(matches)?;
    Some(audit_of(matches, false, lanes))
}

fn lanes(matches: &ArgMatches<'_>) -> Option<Lanes>
    ensures found { result ≡ lanes_by (first_value (found_of matches.now) (codes "slices"))
        (first_value (found_of matches.now) (codes "room")) (first_value (found_of matches.now) (codes "lane")) }
    ensures ranges { IfSome result LanesInRange }
{
    let slices = octet_number(matches, "slices", 1, 64, 2)?;
    let room = small_number(matches, "room", 1, 256, 64)?;
    let lane = small_number(matches, "lane", 1, 16_384, 1_024)?;
    Some(Lanes { slices, room, lane })
}

fn balance_job(matches: &ArgMatches<'_>) -> Option<Job>
    ensures { (given : List Given) → Gives matches.now balance_forms given → result ≡ balance_job given }
{
    let slices = octet_number(matches, "slices", 1, 64, 2)?;
    let most = small_number(matches, "most", 1, 16, 4)?;
    Some(Job::Balance { slices, most })
}

fn drive_job(alloc: Global, matches: &ArgMatches<'_>) -> Result<Option<Job>, AllocError>
    ensures { (given : List Given) → Gives matches.now drive_forms given
        → IfOk result (λ asked. asked ≡ drive_job given) }
{
    let Some(lanes) = lanes(matches) else {
        return Ok(None);
    };
    let Some(turns) = turns(alloc, matches, lanes.slices)? else {
        return Ok(None);
    };
    Ok(Some(Job::Drive {
        lanes,
        turns,
        places: matches.get_flag("places"),
    }))
}

fn replay_job(matches: &ArgMatches<'_>) -> Option<Job>
    ensures { (given : List Given) → Gives matches.now replay_forms given → result ≡ replay_job given }
{
    let lanes = lanes(matches)?;
    let patience = small_number(matches, "patience", 0, 1_000_000, 10_000)?;
    let linger = small_number(matches, "linger", 0, 1_000_000, 1_000)?;
    Some(Job::Replay {
        lanes,
        patience,
        linger,
        places: matches.get_flag("places"),
    })
}

// The turns that are listed or drawn; None where both are asked for, or half of what is drawn.
fn turns(
    alloc: Global,
    matches: &ArgMatches<'_>,
    slices: u8,
) -> Result<Option<AskedTurns>, AllocError>
    requires some { 1 ≤ slices }
    requires few { slices ≤ 64 }
    ensures { IfOk result (λ turns. turns ≡ turns_asked slices (first_value (found_of matches.now) (codes "turns"))
        (first_value (found_of matches.now) (codes "seed")) (first_value (found_of matches.now) (codes "per"))) }
{
    let last = 2 * u64::from(slices) - 1;
    match (
        matches.get_str("turns"),
        matches.get_str("seed"),
        matches.get_str("per"),
    ) {
        (None, None, None) => Ok(Some(AskedTurns::NoTurns)),
        (Some(text), None, None) => listed_turns(alloc, text.as_bytes(), last),
        (None, Some(seed), Some(per)) => Ok(drawn(seed.as_bytes(), per.as_bytes())),
        _ => Ok(None),
    }
}

fn job_named(alloc: Global, name: &str, matches: &ArgMatches<'_>) -> Result<Option<Job>, AllocError>
    ensures { (command : Command) (given : List Given)
        → find (λ (c : Command). bytes_eq c.name name.now) commands ≡ Some command
        → Gives matches.now command.forms given → IfOk result (λ asked. asked ≡ command.job given) }
{
    match name {
        "solo" => Ok(Some(Job::Solo)),
        "drive" => drive_job(alloc, matches),
        "replay" => Ok(replay_job(matches)),
        "make" => Ok(make_job(matches)),
        "import" => Ok(Some(Job::Import)),
        "export" => Ok(Some(Job::Export)),
        "audit" => Ok(audit_job(matches)),
        "balance" => Ok(balance_job(matches)),
        "save" => Ok(Some(Job::Save)),
        "resume" => Ok(Some(Job::Resume)),
        _ => Ok(None),
    }
}

fn asked(alloc: Global, matches: &ArgMatches<'_>) -> Result<Option<Job>, AllocError>
    ensures { (words : List Text)
        → subcommand_rows_of matches.now ≡ option_map found_asked (asked_of commands words)
        → IfOk result (λ asked. asked ≡ job_of words) }
{
    let Some((name, inner)) = matches.subcommand() else {
        return Ok(None);
    };
    job_named(alloc, name, inner)
}

/// The job that the words ask for, without the program's name; None where they are none of its.
pub fn job(alloc: Global, words: &[String]) -> Result<Option<Job>, AllocError>
    ensures job { IfOk result (λ asked. asked ≡ job_of (map string_bytes words.now)) }
    ensures ranges { IfOk result (λ asked. IfSome asked IsInRange) }
{
    // clap would take a lone `--` for the end of the options.
    if has_stray(words) {
        return Ok(None);
    }
    match program(alloc)?.try_get_matches_from(words) {
        Ok(matches) => asked(alloc, &matches),
        Err(error) => match error.kind() {
            ErrorKind::OutOfMemory => Err(AllocError),
            _ => Ok(None),
        },
    }
}
