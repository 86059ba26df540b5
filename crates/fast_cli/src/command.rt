//! The commands as `clap` builds and parses them.
ghost use Rattle.std.specs.Prelude.{◌≡◌, ◌≢◌, ◌↔◌, IfOk, map, true, Some, None, Err};
ghost use Rattle.clap.specs.Values.{kind_of};
ghost use Rattle.clap.specs.Words.{app_of, is_simple_and_free, with_rule};
ghost use Rattle.fast_cli.specs.Words.{AreText, values_in};
ghost use Rattle.fast_cli.specs.Command.{ReadsAs, bare_command, command_by, flag_rule, name_rule};
ghost use Rattle.fast_cli.specs.Command.{names_rule, option_rule, parsed, values_of, with_flags};
ghost use Rattle.fast_cli.specs.Command.{with_names, with_options};
ghost use Rattle.fast_cli.specs.Form.{form_of};

use crate::form::Form;
use crate::line::UsageFault;
use clap::error::ErrorKind;
use clap::{Arg, ArgAction, ArgMatches, Command, Error};
use std::alloc::{AllocError, Global};

// A command with no names and options yet.
fn bare_command<'a>(alloc: Global, word: &'a str) -> Command<'a>
    ensures { app_of result ≡ bare_command word.entry.now }
{
    Command::new(alloc, word)
        .no_binary_name(true)
        .disable_help_flag(true)
        .disable_version_flag(true)
}

// The command with names, each of which must be there, or may be.
fn with_names<'a>(
    alloc: Global,
    command: Command<'a>,
    names: &'a [&'a str],
    needed: bool,
) -> Result<Command<'a>, AllocError>
    ensures { IfOk result (λ c. app_of c
        ≡ with_names needed (map (λ name. name.now) names.entry.now) (app_of command.entry)) }
{
    let mut longer = command;
    for name in names {
        longer = with_name(alloc, longer, name, needed)?;
    }
    Ok(longer)
}

fn with_name<'a>(
    alloc: Global,
    command: Command<'a>,
    name: &'a str,
    needed: bool,
) -> Result<Command<'a>, AllocError>
    ensures { IfOk result (λ c. app_of c
        ≡ with_rule (app_of command.entry) (name_rule needed name.entry.now)) }
{
    let arg = Arg::new(alloc, name).required(needed);
    command.arg(arg)
}

fn with_options<'a>(
    alloc: Global,
    command: Command<'a>,
    options: &'a [&'a str],
) -> Result<Command<'a>, AllocError>
    ensures { IfOk result (λ c. app_of c
        ≡ with_options (map (λ option. option.now) options.entry.now) (app_of command.entry)) }
{
    let mut longer = command;
    for option in options {
        longer = with_option(alloc, longer, option)?;
    }
    Ok(longer)
}

fn with_option<'a>(
    alloc: Global,
    command: Command<'a>,
    name: &'a str,
) -> Result<Command<'a>, AllocError>
    ensures { IfOk result (λ c. app_of c
        ≡ with_rule (app_of command.entry) (option_rule name.entry.now)) }
{
    let arg = Arg::new(alloc, name).long(name);
    command.arg(arg)
}

fn with_flags<'a>(
    alloc: Global,
    command: Command<'a>,
    flags: &'a [&'a str],
) -> Result<Command<'a>, AllocError>
    ensures { IfOk result (λ c. app_of c
        ≡ with_flags (map (λ flag. flag.now) flags.entry.now) (app_of command.entry)) }
{
    let mut longer = command;
    for flag in flags {
        longer = with_flag(alloc, longer, flag)?;
    }
    Ok(longer)
}

// `ArgAction::SetTrue` would make a value where the flag is left out.
fn with_flag<'a>(
    alloc: Global,
    command: Command<'a>,
    name: &'a str,
) -> Result<Command<'a>, AllocError>
    ensures { IfOk result (λ c. app_of c
        ≡ with_rule (app_of command.entry) (flag_rule name.entry.now)) }
{
    let arg = Arg::new(alloc, name)
        .long(name)
        .action(ArgAction::Set)
        .num_args(0usize);
    command.arg(arg)
}

// The command with a name for all names behind its others.
fn with_rest<'a>(
    alloc: Global,
    command: Command<'a>,
    name: &'a str,
) -> Result<Command<'a>, AllocError>
    ensures { IfOk result (λ c. app_of c
        ≡ with_rule (app_of command.entry) (names_rule name.entry.now)) }
{
    let arg = Arg::new(alloc, name)
        .required(true)
        .action(ArgAction::Append);
    command.arg(arg)
}

fn make_command<'a>(alloc: Global, form: &Form<'a>) -> Result<Command<'a>, AllocError>
    ensures { IfOk result (λ c. app_of c ≡ command_by (form_of form.now)) }
{
    let command = bare_command(alloc, form.word);
    let command = with_names(alloc, command, form.names, true)?;
    let command = with_names(alloc, command, form.optional, false)?;
    let command = with_options(alloc, command, form.options)?;
    let command = with_flags(alloc, command, form.flags)?;
    match form.rest {
        Some(name) => with_rest(alloc, command, name),
        None => Ok(command),
    }
}

// What an error of clap says of the words.
fn refusal(error: &Error) -> UsageFault
    ensures memory { (result ≡ UsageFault.Memory) ↔ (kind_of error.now ≡ ErrorKind.OutOfMemory) }
    ensures words { kind_of error.now ≢ ErrorKind.OutOfMemory → result ≡ UsageFault.Words }
{
    match error.kind() {
        ErrorKind::OutOfMemory => UsageFault::Memory,
        _ => UsageFault::Words,
    }
}

fn parse<'a>(command: Command<'a>, words: &'a [&'a str]) -> Result<ArgMatches<'a>, UsageFault>
    requires simple { is_simple_and_free (app_of command) ≡ true }
    ensures ok { IfOk result (λ m. parsed (app_of command.entry) (map (λ w. w.now) words.entry.now)
        ≡ Some (values_of m)) }
    ensures words { result ≡ Err UsageFault.Words
        → parsed (app_of command.entry) (map (λ w. w.now) words.entry.now) ≡ None }
{
    match command.try_get_matches_from(words) {
        Ok(matches) => Ok(matches),
        Err(error) => Err(refusal(&error)),
    }
}

/// Parses the words behind a command's word.
pub(crate) fn parse_form<'a>(
    alloc: Global,
    form: &Form<'a>,
    words: &'a [&'a str],
) -> Result<ArgMatches<'a>, UsageFault>
    requires reads { ReadsAs (form_of form.now) }
    requires text { AreText (map (λ w. w.now) words.now) }
    ensures ok { IfOk result (λ m. values_in (form_of form.now) (map (λ w. w.now) words.entry.now)
        ≡ Some (values_of m)) }
    ensures words { result ≡ Err UsageFault.Words
        → values_in (form_of form.now) (map (λ w. w.now) words.entry.now) ≡ None }
{
    parse(make_command(alloc, form)?, words)
}
