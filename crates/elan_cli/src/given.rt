//! The options that words give.

ghost use Rattle.std.specs.Prelude.{◌≡◌, [], IfOk, None, option_and_then};
ghost use Rattle.clap.specs.Words.{first_value, found_of};
ghost use Rattle.elan_cli.specs.Line as spec;
ghost use Rattle.elan_cli.specs.Settings.{most, name_of};
ghost use Rattle.elan_cli.specs.Words.{number, texts};

use crate::command::matches;
use crate::number::number;
use crate::setting::{Setting, usual_steps};
use clap::ArgMatches;
use elan_text::NoMemory;
use std::alloc::Global;

/// What the words ask for.
#[derive(Clone, Copy, Debug, PartialEq, Eq)]
pub struct Options {
    /// How many workers there are, from 1 to 64. Without effect where `plain` is set.
    pub workers: u32,
    /// How many items are written at most, from 1 to 1,000,000.
    pub limit: u32,
    /// How many steps each path may take, from 1 to 1,000,000, and to 1,000 where `plain` is set.
    pub steps: u32,
    /// Whether the plain engine runs.
    pub plain: bool,
    /// The number of the generated input, from 1 to 200, where that is asked for.
    pub demo: Option<u32>,
}

/// The number that the matches give the option.
fn given(plain: bool, setting: Setting, matches: &ArgMatches<'_>) -> Option<u32>
    ensures { result ≡ option_and_then (number (most plain setting))
        (first_value (found_of matches.now) (name_of setting)) }
{
    match matches.get_str(setting.name()) {
        Some(value) => number(value, setting.most(plain)),
        None => None,
    }
}

/// The options that the words give, with those that they leave out as usual. The words are not
/// refused.
pub(crate) fn read(alloc: Global, plain: bool, words: &[String]) -> Result<Options, NoMemory>
    requires { spec.first_mistake plain [] (texts words.now) ≡ None }
    ensures { IfOk result (λ o. o ≡ spec.read plain (texts words.now)) }
{
    let matches = matches(alloc, plain, words)?;
    Ok(Options {
        workers: given(plain, Setting::Workers, &matches).unwrap_or(1),
        limit: given(plain, Setting::Limit, &matches).unwrap_or(1_000_000),
        steps: given(plain, Setting::Steps, &matches).unwrap_or(usual_steps(plain)),
        plain,
        demo: given(plain, Setting::Demo, &matches),
    })
}
