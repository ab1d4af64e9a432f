//! The command by which `clap` splits the words.

ghost use Rattle.std.specs.Prelude.{◌≡◌, IfOk, IfErr, map, string_bytes, true};
ghost use Rattle.clap.specs.Words.{HasMatchesOf, app_of, takes, kind_of};
ghost use Rattle.akl_args.specs.Command.{table, plain, with_setting, with_flag};

use crate::flag::Flag;
use crate::setting::Setting;
use clap::error::ErrorKind;
use clap::{Arg, ArgAction, ArgMatches, Command, Error};
use std::alloc::{AllocError, Global};

// A command without options. Its first word is no program's name, and it has no `--help` of its own.
fn plain<'a>(alloc: Global) -> Command<'a>
    ensures { app_of result ≡ plain }
{
    Command::new(alloc, "akl")
        .no_binary_name(true)
        .disable_help_flag(true)
}

// With an option that has a value.
fn with_setting<'a>(
    alloc: Global,
    command: Command<'a>,
    setting: Setting,
) -> Result<Command<'a>, AllocError>
    ensures { IfOk result (λ c. app_of c ≡ with_setting (app_of command.entry) setting) }
{
    let id = setting.id();
    command.arg(Arg::new(alloc, id).long(id).action(ArgAction::Set))
}

// With an option that has no value.
fn with_flag<'a>(alloc: Global, command: Command<'a>, flag: Flag) -> Result<Command<'a>, AllocError>
    ensures { IfOk result (λ c. app_of c ≡ with_flag (app_of command.entry) flag) }
{
    let id = flag.id();
    command.arg(Arg::new(alloc, id).long(id).action(ArgAction::SetTrue))
}

// The command with its options.
fn table<'a>(alloc: Global) -> Result<Command<'a>, AllocError>
    ensures { IfOk result (λ c. app_of c ≡ table) }
{
    let command = with_setting(alloc, plain(alloc), Setting::Query)?;
    let command = with_setting(alloc, command, Setting::Generate)?;
    let command = with_setting(alloc, command, Setting::Workers)?;
    let command = with_setting(alloc, command, Setting::Budget)?;
    let command = with_flag(alloc, command, Flag::Trace)?;
    let command = with_flag(alloc, command, Flag::Why)?;
    with_flag(alloc, command, Flag::Model)
}

/// The options of words that the command takes, with their values. It fails for want of memory alone.
pub fn split<'a>(alloc: Global, words: &'a [String]) -> Result<ArgMatches<'a>, Error>
    requires { takes table (map string_bytes words.now) ≡ true }
    ensures rows { IfOk result (HasMatchesOf table (map string_bytes words.entry.now)) }
    ensures memory { IfErr result (λ error. kind_of error ≡ ErrorKind.OutOfMemory) }
{
    table(alloc)?.try_get_matches_from(words)
}
