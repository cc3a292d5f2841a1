ghost use Rattle.std.specs.Prelude.{◌≡◌, ◌⊎◌, None, IfErr, IfOk, IsSomeAnd, false};
ghost use Rattle.clap.specs.Words.{app_of, kind_of, with_rule};
ghost use Rattle.remap_words.specs.Command.{AreMatchesOf, bare_app, flag_rule, option_rule};
ghost use Rattle.remap_words.specs.Command.{remap_app, script_rule, with_flag_rules, with_value_rules};
ghost use Rattle.remap_words.specs.Uses.{has_short};
ghost use Rattle.remap_words.specs.View.{texts};
ghost use Rattle.remap_words.specs.Words.{given_of, words_mean};

use clap::error::ErrorKind;
use clap::{Arg, ArgAction, ArgMatches, Command, Error};
use std::alloc::{AllocError, Global};

/// What `clap` makes of the words, none of which is an option with one hyphen.
pub(crate) fn matches_of<'a>(alloc: Global, words: &'a [String]) -> Result<ArgMatches<'a>, Error>
    ensures given { has_short (texts words.now) ≡ false
        → IfOk result (λ m. IsSomeAnd (given_of (texts words.now)) (λ g. AreMatchesOf g m)) }
    ensures refused { has_short (texts words.now) ≡ false
        → IfErr result (λ e. (kind_of e ≡ ErrorKind.OutOfMemory) ⊎ (words_mean (texts words.now) ≡ None)) }
{
    let command = command(alloc)?;
    command.try_get_matches_from(words)
}

/// The command as `clap` is told of it: one script and the options, without any of its own.
fn command<'a>(alloc: Global) -> Result<Command<'a>, AllocError>
    ensures { IfOk result (λ command. app_of command ≡ remap_app) }
{
    let named = with_script(alloc, bare(alloc))?;
    with_flags(alloc, with_values(alloc, named)?)
}

fn with_values<'a>(alloc: Global, command: Command<'a>) -> Result<Command<'a>, AllocError>
    ensures { IfOk result (λ more. app_of more ≡ with_value_rules (app_of command.entry)) }
{
    let kind = with_option(alloc, command, "kind")?;
    let jobs = with_option(alloc, kind, "jobs")?;
    with_option(alloc, jobs, "generate")
}

fn with_flags<'a>(alloc: Global, command: Command<'a>) -> Result<Command<'a>, AllocError>
    ensures { IfOk result (λ more. app_of more ≡ with_flag_rules (app_of command.entry)) }
{
    let dropping = with_flag(alloc, command, "drop-on-error")?;
    let keeping = with_flag(alloc, dropping, "keep-on-abort")?;
    let enclosing = with_flag(alloc, keeping, "envelope")?;
    with_flag(alloc, enclosing, "check")
}

/// A command whose words do not begin with the program's name, without options of its own.
fn bare<'a>(alloc: Global) -> Command<'a>
    ensures { app_of result ≡ bare_app }
{
    Command::new(alloc, "remap")
        .no_binary_name(true)
        .disable_help_flag(true)
        .disable_version_flag(true)
        .disable_help_subcommand(true)
}

fn with_script<'a>(alloc: Global, command: Command<'a>) -> Result<Command<'a>, AllocError>
    ensures { IfOk result (λ more. app_of more ≡ with_rule (app_of command.entry) script_rule) }
{
    command.arg(Arg::new(alloc, "script").required(true))
}

/// The command with an option that has a value.
fn with_option<'a>(
    alloc: Global,
    command: Command<'a>,
    name: &'a str,
) -> Result<Command<'a>, AllocError>
    ensures { IfOk result (λ more. app_of more ≡ with_rule (app_of command.entry) (option_rule name.entry.now)) }
{
    command.arg(Arg::new(alloc, name).long(name))
}

/// The command with an option that has no value.
fn with_flag<'a>(
    alloc: Global,
    command: Command<'a>,
    name: &'a str,
) -> Result<Command<'a>, AllocError>
    ensures { IfOk result (λ more. app_of more ≡ with_rule (app_of command.entry) (flag_rule name.entry.now)) }
{
    command.arg(Arg::new(alloc, name).long(name).action(ArgAction::SetTrue))
}
