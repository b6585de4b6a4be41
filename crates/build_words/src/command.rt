//! The command that reads the words of a build.
ghost use Rattle.std.specs.Prelude.{◌≡◌, true, false, IfOk, MatchOption, map, string_bytes, ⊤};
ghost use Rattle.clap.specs.Words.{app_of, rule_of, found_of, rows_of};
ghost use Rattle.clap.specs.Simple.{with_rule};
ghost use Rattle.build_words.specs.Command.{bare_app, build_app, is_taken, rows_in, option_of, long_option, short_option, names_app, files_app, images_app, settings_app};

use build_base::WantOfMemory;
use clap::error::ErrorKind;
use clap::{Arg, ArgAction, ArgMatches, Command};
use std::alloc::{AllocError, Global};

// A command with one argument more.
fn with_arg<'a>(command: Command<'a>, arg: Arg<'a>) -> Result<Command<'a>, AllocError>
    requires { arg.global ≡ false }
    ensures { IfOk result (λ c. app_of c ≡ with_rule (app_of command.entry) (rule_of arg.entry)) }
{
    command.arg(arg)
}

fn with_option<'a>(
    alloc: Global,
    command: Command<'a>,
    name: &'a str,
    letter: char,
    action: ArgAction,
) -> Result<Command<'a>, AllocError>
    ensures { IfOk result
        (λ c. app_of c ≡ with_rule (app_of command.entry)
        (option_of name.entry.now letter action false)) }
{
    with_arg(
        command,
        Arg::new(alloc, name)
            .long(name)
            .short(letter)
            .action(action),
    )
}

fn with_needed<'a>(
    alloc: Global,
    command: Command<'a>,
    name: &'a str,
    letter: char,
) -> Result<Command<'a>, AllocError>
    ensures { IfOk result
        (λ c. app_of c ≡ with_rule (app_of command.entry)
        (option_of name.entry.now letter ArgAction.Set true)) }
{
    with_arg(
        command,
        Arg::new(alloc, name)
            .long(name)
            .short(letter)
            .action(ArgAction::Set)
            .required(true),
    )
}

fn with_long<'a>(
    alloc: Global,
    command: Command<'a>,
    name: &'a str,
    action: ArgAction,
) -> Result<Command<'a>, AllocError>
    ensures { IfOk result
        (λ c. app_of c ≡ with_rule (app_of command.entry) (long_option name.entry.now action)) }
{
    with_arg(command, Arg::new(alloc, name).long(name).action(action))
}

fn with_short<'a>(
    alloc: Global,
    command: Command<'a>,
    name: &'a str,
    letter: char,
    action: ArgAction,
) -> Result<Command<'a>, AllocError>
    ensures { IfOk result
        (λ c. app_of c ≡ with_rule (app_of command.entry)
        (short_option name.entry.now letter action)) }
{
    with_arg(command, Arg::new(alloc, name).short(letter).action(action))
}

fn bare_command<'a>(alloc: Global) -> Command<'a>
    ensures { app_of result ≡ bare_app }
{
    Command::new(alloc, "build").disable_help_flag(true)
}

// With the options that name the platform, the target, the tag and the SKU.
fn with_names<'a>(alloc: Global, command: Command<'a>) -> Result<Command<'a>, AllocError>
    ensures { IfOk result (λ c. app_of c ≡ names_app (app_of command.entry)) }
{
    let c1 = with_needed(alloc, command, "platform", 'p')?;
    let c2 = with_option(alloc, c1, "buildtarget", 'b', ArgAction::Set)?;
    let c3 = with_option(alloc, c2, "tagname", 't', ArgAction::Set)?;
    let c4 = with_option(alloc, c3, "sku-id", 'x', ArgAction::Set)?;
    Ok(c4)
}

// With the number of workers and the files that may be left out.
fn with_files<'a>(alloc: Global, command: Command<'a>) -> Result<Command<'a>, AllocError>
    ensures { IfOk result (λ c. app_of c ≡ files_app (app_of command.entry)) }
{
    let c1 = with_short(alloc, command, "workers", 'n', ArgAction::Set)?;
    let c2 = with_option(alloc, c1, "fdf", 'f', ArgAction::Set)?;
    let c3 = with_option(alloc, c2, "report-file", 'y', ArgAction::Set)?;
    Ok(c3)
}

// With the architectures and the images, which may be repeated.
fn with_images<'a>(alloc: Global, command: Command<'a>) -> Result<Command<'a>, AllocError>
    ensures { IfOk result (λ c. app_of c ≡ images_app (app_of command.entry)) }
{
    let c1 = with_option(alloc, command, "arch", 'a', ArgAction::Append)?;
    let c2 = with_option(alloc, c1, "rom-image", 'r', ArgAction::Append)?;
    let c3 = with_option(alloc, c2, "fv-image", 'i', ArgAction::Append)?;
    Ok(c3)
}

// With the macros and PCDs that are set.
fn with_settings<'a>(alloc: Global, command: Command<'a>) -> Result<Command<'a>, AllocError>
    ensures { IfOk result (λ c. app_of c ≡ settings_app (app_of command.entry)) }
{
    let c1 = with_option(alloc, command, "define", 'D', ArgAction::Append)?;
    let c2 = with_long(alloc, c1, "pcd", ArgAction::Append)?;
    Ok(c2)
}

/// The command, of which the first word is its name.
pub(crate) fn build_command<'a>(alloc: Global) -> Result<Command<'a>, AllocError>
    ensures { IfOk result (λ c. app_of c ≡ build_app) }
{
    let bare = bare_command(alloc);
    let named = with_names(alloc, bare)?;
    let filed = with_files(alloc, named)?;
    let imaged = with_images(alloc, filed)?;
    let whole = with_settings(alloc, imaged)?;
    Ok(whole)
}

/// What the command finds in the words, or nothing where it doesn't take them.
pub fn parse<'a>(alloc: Global, words: &'a [String]) -> Result<Option<ArgMatches<'a>>, WantOfMemory>
    ensures taken { IfOk result
        (λ r. MatchOption r (is_taken (map string_bytes words.entry.now) ≡ false)
        (λ _. is_taken (map string_bytes words.entry.now) ≡ true)) }
    ensures rows { IfOk result (λ r. MatchOption r ⊤
        (λ m. rows_of (found_of m) ≡ rows_in (map string_bytes words.entry.now))) }
{
    let command = build_command(alloc)?;
    match command.try_get_matches_from(words) {
        Ok(matches) => Ok(Some(matches)),
        Err(error) => match error.kind() {
            ErrorKind::OutOfMemory => Err(WantOfMemory),
            _ => Ok(None),
        },
    }
}
