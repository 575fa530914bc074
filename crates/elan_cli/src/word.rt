//! What a word is by itself.

ghost use Rattle.std.specs.Prelude.{◌≡◌, option_map};
ghost use Rattle.elan_cli.specs.Settings as spec;
ghost use Rattle.elan_cli.specs.Words.{begins_with_dash, name_part, value_part};

use crate::setting::Setting;

/// The flag.
const PLAIN: &str = "--plain";

/// Whether the word is the flag.
pub(crate) fn is_flag(word: &str) -> bool
    ensures { result ≡ spec.is_flag word.now }
{
    word == PLAIN
}

/// Whether the word begins with `-`.
pub(crate) fn has_dash(word: &str) -> bool
    ensures { result ≡ begins_with_dash word.now }
{
    word.starts_with('-')
}

/// What stands before the first `=`, and what stands behind it where there is one.
fn parts(word: &str) -> (&str, Option<&str>)
    ensures name { result.0.now ≡ name_part word.now }
    ensures value { option_map (λ v. v.now) result.1 ≡ value_part word.now }
{
    match word.split_once('=') {
        Some((name, value)) => (name, Some(value)),
        None => (word, None),
    }
}

/// What stands behind the first `=` of the word, where there is one.
pub(crate) fn value_in(word: &str) -> Option<&str>
    ensures { option_map (λ v. v.now) result ≡ value_part word.now }
{
    parts(word).1
}

/// Whether the word names the option, with or without a value in the same word.
pub(crate) fn is_of(setting: Setting, word: &str) -> bool
    ensures { result ≡ spec.names setting word.now }
{
    parts(word).0 == setting.written()
}

/// The option that the word names.
pub(crate) fn setting_of(word: &str) -> Option<Setting>
    ensures { result ≡ spec.named word.now }
{
    if is_of(Setting::Workers, word) {
        Some(Setting::Workers)
    } else if is_of(Setting::Limit, word) {
        Some(Setting::Limit)
    } else if is_of(Setting::Steps, word) {
        Some(Setting::Steps)
    } else if is_of(Setting::Demo, word) {
        Some(Setting::Demo)
    } else {
        None
    }
}

/// The option whose value is to stand in the next word.
pub(crate) fn wanted_by(word: &str) -> Option<Setting>
    ensures { result ≡ spec.wants word.now }
{
    match value_in(word) {
        Some(_) => None,
        None => setting_of(word),
    }
}
