//! The first word that is refused.

ghost use Rattle.std.specs.Prelude.{◌≡◌, []};
ghost use Rattle.elan_cli.specs.Line as spec;
ghost use Rattle.elan_cli.specs.Words.{texts};

use crate::fault::WordsRefusal;
use crate::number::number;
use crate::setting::Setting;
use crate::word::{has_dash, is_flag, is_of, setting_of, value_in, wanted_by};

/// Whether one of the words is the flag.
pub(crate) fn has_flag(words: &[String]) -> bool
    ensures { result ≡ spec.has_flag (texts words.now) }
{
    words.iter().any(|word| is_flag(word.as_str()))
}

/// Whether one of the words names the option.
fn has_setting(setting: Setting, words: &[String]) -> bool
    ensures { result ≡ spec.has_setting setting (texts words.now) }
{
    words.iter().any(|word| is_of(setting, word.as_str()))
}

/// The option whose value a word behind these is, where it does not begin with `-`.
fn wanted(before: &[String]) -> Option<Setting>
    ensures { result ≡ spec.wanted (texts before.now) }
{
    match before.last() {
        Some(word) => wanted_by(word.as_str()),
        None => None,
    }
}

/// Whether the first of the words is a value.
fn begins_with_value(words: &[String]) -> bool
    ensures { result ≡ spec.begins_with_value (texts words.now) }
{
    match words.first() {
        Some(word) => !has_dash(word.as_str()),
        None => false,
    }
}

/// Why the value of the option is refused, which word number `at` holds.
fn mistake_in_value(plain: bool, at: u64, setting: Setting, value: &str) -> Option<WordsRefusal>
    ensures { result ≡ spec.mistake_in_value plain at setting value.now }
{
    match number(value, setting.most(plain)) {
        Some(_) => None,
        None => Some(WordsRefusal::OutOfRange(at)),
    }
}

/// Why the flag is refused behind these words.
fn mistake_in_flag(before: &[String]) -> Option<WordsRefusal>
    ensures { result ≡ spec.mistake_in_flag (texts before.now) }
{
    if has_flag(before) {
        Some(WordsRefusal::Repeated(before.len() as u64))
    } else {
        None
    }
}

/// Why a word that names the option is refused, between the words before it and those after it.
fn mistake_in_setting(
    plain: bool,
    before: &[String],
    setting: Setting,
    word: &str,
    after: &[String],
) -> Option<WordsRefusal>
    ensures { result
        ≡ spec.mistake_in_setting plain (texts before.now) setting word.now (texts after.now) }
{
    let at = before.len() as u64;
    if has_setting(setting, before) {
        return Some(WordsRefusal::Repeated(at));
    }
    match value_in(word) {
        Some(value) => mistake_in_value(plain, at, setting, value),
        None if begins_with_value(after) => None,
        None => Some(WordsRefusal::NoValue(at)),
    }
}

/// Why a word that is no value is refused, between the words before it and those after it.
fn mistake_in_name(
    plain: bool,
    before: &[String],
    word: &str,
    after: &[String],
) -> Option<WordsRefusal>
    ensures { result ≡ spec.mistake_in_name plain (texts before.now) word.now (texts after.now) }
{
    if is_flag(word) {
        return mistake_in_flag(before);
    }
    match setting_of(word) {
        Some(setting) => mistake_in_setting(plain, before, setting, word, after),
        None => Some(WordsRefusal::Unknown(before.len() as u64)),
    }
}

/// The option whose value the word is, behind these words.
fn valued(before: &[String], word: &str) -> Option<Setting>
    ensures { result ≡ spec.valued (texts before.now) word.now }
{
    if has_dash(word) { None } else { wanted(before) }
}

/// Why the word is refused, between the words before it and those after it.
fn mistake(plain: bool, before: &[String], word: &str, after: &[String]) -> Option<WordsRefusal>
    ensures { result ≡ spec.mistake plain (texts before.now) word.now (texts after.now) }
{
    match valued(before, word) {
        Some(setting) => mistake_in_value(plain, before.len() as u64, setting, word),
        None => mistake_in_name(plain, before, word, after),
    }
}

/// Why the first word that is refused is so, from the left.
pub(crate) fn first_mistake(plain: bool, words: &[String]) -> Option<WordsRefusal>
    ensures { result ≡ spec.first_mistake plain [] (texts words.now) }
{
    'words: for at in 0..words.len() {
        let before = &words[..at];
        let after = &words[at + 1..];
        let found = mistake(plain, before, words[at].as_str(), after);
        if found.is_some() {
            return found;
        }
    }
    None
}
