//! The program's commands and their options, as clap takes them.
ghost use Rattle.std.specs.Prelude.{◌≡◌, IfOk, false, take};
ghost use Rattle.clap.specs.Words.{app_of, rule_of, shape_of};
ghost use Rattle.clap.specs.declared.builder.command.Command.TheViews.{out-Command as fields_of};
ghost use Rattle.command_words.specs.Job.{audit_command, balance_command, drive_command, make_command};
ghost use Rattle.command_words.specs.Job.{replay_command};
ghost use Rattle.command_words.specs.Options.{with_value, without_value};
ghost use Rattle.command_words.specs.Program.{command_shape, no_commands, option_rule, program_app};

use clap::{Arg, ArgAction, Command};
use std::alloc::{AllocError, Global};

// An option with one value.
fn with_value<'a>(alloc: Global, name: &'a str) -> Arg<'a>
    ensures rule { rule_of result ≡ option_rule (with_value name.entry.now) }
    ensures local { result.global ≡ false }
{
    Arg::new(alloc, name).long(name).action(ArgAction::Set)
}

// An option without a value.
fn without_value<'a>(alloc: Global, name: &'a str) -> Arg<'a>
    ensures rule { rule_of result ≡ option_rule (without_value name.entry.now) }
    ensures local { result.global ≡ false }
{
    Arg::new(alloc, name).long(name).action(ArgAction::SetTrue)
}

// A command with the options of its lanes alone.
fn with_lanes<'a>(alloc: Global, name: &'a str) -> Result<Command<'a>, AllocError>
    ensures shape { IfOk result (λ command. shape_of command
        ≡ command_shape (record drive_command { name = name.entry.now; forms = take 3 drive_command.forms })) }
    ensures local { IfOk result (λ command. (fields_of command).has_globals ≡ false) }
{
    Command::new(alloc, name)
        .arg(with_value(alloc, "slices"))?
        .arg(with_value(alloc, "room"))?
        .arg(with_value(alloc, "lane"))
}

fn drive<'a>(alloc: Global) -> Result<Command<'a>, AllocError>
    ensures shape { IfOk result (λ command. shape_of command ≡ command_shape drive_command) }
    ensures local { IfOk result (λ command. (fields_of command).has_globals ≡ false) }
{
    with_lanes(alloc, "drive")?
        .arg(with_value(alloc, "turns"))?
        .arg(with_value(alloc, "seed"))?
        .arg(with_value(alloc, "per"))?
        .arg(without_value(alloc, "places"))
}

fn replay<'a>(alloc: Global) -> Result<Command<'a>, AllocError>
    ensures shape { IfOk result (λ command. shape_of command ≡ command_shape replay_command) }
    ensures local { IfOk result (λ command. (fields_of command).has_globals ≡ false) }
{
    with_lanes(alloc, "replay")?
        .arg(with_value(alloc, "patience"))?
        .arg(with_value(alloc, "linger"))?
        .arg(without_value(alloc, "places"))
}

fn make<'a>(alloc: Global) -> Result<Command<'a>, AllocError>
    ensures shape { IfOk result (λ command. shape_of command ≡ command_shape make_command) }
    ensures local { IfOk result (λ command. (fields_of command).has_globals ≡ false) }
{
    Command::new(alloc, "make")
        .arg(with_value(alloc, "seed"))?
        .arg(with_value(alloc, "subs"))?
        .arg(with_value(alloc, "lines"))?
        .arg(without_value(alloc, "summary"))
}

// The command `audit` with the options of its setup alone.
fn audit_setup<'a>(alloc: Global) -> Result<Command<'a>, AllocError>
    ensures shape { IfOk result (λ command. shape_of command
        ≡ command_shape (record audit_command { forms = take 4 audit_command.forms })) }
    ensures local { IfOk result (λ command. (fields_of command).has_globals ≡ false) }
{
    Command::new(alloc, "audit")
        .arg(without_value(alloc, "solo"))?
        .arg(with_value(alloc, "slices"))?
        .arg(with_value(alloc, "room"))?
        .arg(with_value(alloc, "lane"))
}

fn audit<'a>(alloc: Global) -> Result<Command<'a>, AllocError>
    ensures shape { IfOk result (λ command. shape_of command ≡ command_shape audit_command) }
    ensures local { IfOk result (λ command. (fields_of command).has_globals ≡ false) }
{
    audit_setup(alloc)?
        .arg(without_value(alloc, "along"))?
        .arg(without_value(alloc, "why"))
}

fn balance<'a>(alloc: Global) -> Result<Command<'a>, AllocError>
    ensures shape { IfOk result (λ command. shape_of command ≡ command_shape balance_command) }
    ensures local { IfOk result (λ command. (fields_of command).has_globals ≡ false) }
{
    Command::new(alloc, "balance")
        .arg(with_value(alloc, "slices"))?
        .arg(with_value(alloc, "most"))
}

// The program without its commands: one is wanted, and there are no help texts.
fn no_commands<'a>(alloc: Global) -> Command<'a>
    ensures { app_of result ≡ no_commands }
{
    Command::new(alloc, "pepc")
        .no_binary_name(true)
        .disable_help_flag(true)
        .disable_help_subcommand(true)
        .disable_version_flag(true)
        .subcommand_required(true)
}

/// The program with its commands.
pub fn program<'a>(alloc: Global) -> Result<Command<'a>, AllocError>
    ensures { IfOk result (λ program. app_of program ≡ program_app) }
{
    no_commands(alloc)
        .subcommand(Command::new(alloc, "solo"))?
        .subcommand(drive(alloc)?)?
        .subcommand(replay(alloc)?)?
        .subcommand(make(alloc)?)?
        .subcommand(Command::new(alloc, "import"))?
        .subcommand(Command::new(alloc, "export"))?
        .subcommand(audit(alloc)?)?
        .subcommand(balance(alloc)?)?
        .subcommand(Command::new(alloc, "save"))?
        .subcommand(Command::new(alloc, "resume"))
}
