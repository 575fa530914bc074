//! The command by which `clap` reads words that are not refused.

ghost use Rattle.std.specs.Prelude.{◌≡◌, [], IfOk, None, codes, false};
ghost use Rattle.clap.specs.Words.{app_of, first_value, found_of, rule_of};
ghost use Rattle.elan_cli.specs.Command as spec;
ghost use Rattle.elan_cli.specs.Line.{first_mistake, value_of};
ghost use Rattle.elan_cli.specs.Settings.{name_of};
ghost use Rattle.elan_cli.specs.Words.{texts};
ghost use Rattle.elan_cli.specs.declared.setting.Setting.{Setting as SettingValue};

use clap::error::ErrorKind;
use clap::{Arg, ArgAction, ArgMatches, Command};
use elan_text::NoMemory;
use std::alloc::{AllocError, Global};

/// An option with one value.
fn option<'a>(alloc: Global, name: &'a str) -> Arg<'a>
    ensures rule { rule_of result ≡ spec.option_rule name.entry.now }
    ensures own { result.global ≡ false }
{
    Arg::new(alloc, name).long(name).action(ArgAction::Set)
}

/// The flag.
fn flag<'a>(alloc: Global) -> Arg<'a>
    ensures rule { rule_of result ≡ spec.flag_rule }
    ensures own { result.global ≡ false }
{
    Arg::new(alloc, "plain")
        .long("plain")
        .action(ArgAction::SetTrue)
}

/// A command without options, whose first word is no program's name.
fn bare<'a>(alloc: Global) -> Command<'a>
    ensures { app_of result ≡ spec.bare_app }
{
    Command::new(alloc, "elan").no_binary_name(true)
}

/// The command with its four options and the flag.
fn elan<'a>(alloc: Global) -> Result<Command<'a>, NoMemory>
    ensures { IfOk result (λ c. app_of c ≡ spec.elan) }
{
    let command = bare(alloc).arg(option(alloc, "workers"))?;
    let command = command.arg(option(alloc, "limit"))?;
    let command = command.arg(option(alloc, "steps"))?;
    let command = command.arg(option(alloc, "demo"))?;
    let command = command.arg(flag(alloc))?;
    Ok(command)
}

/// What the words say, as the command reads them. They are not refused, so it takes them.
pub(crate) fn matches<'a>(
    alloc: Global,
    plain: bool,
    words: &'a [String],
) -> Result<ArgMatches<'a>, NoMemory>
    requires { first_mistake plain [] (texts words.now) ≡ None }
    ensures { IfOk result (λ m. (s : SettingValue)
        → first_value (found_of m) (name_of s) ≡ value_of s (texts words.entry.now)) }
{
    let command = elan(alloc)?;
    match command.try_get_matches_from(words) {
        Ok(matches) => Ok(matches),
        Err(error) => match error.kind() {
            ErrorKind::OutOfMemory => Err(AllocError),
            _ => unreachable!(),
        },
    }
}
