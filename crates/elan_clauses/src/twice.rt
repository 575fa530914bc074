//! Names that stand twice.

ghost use Rattle.std.specs.Prelude.{◌≡◌, ◌||◌, not, true, Ok, IfOk};
ghost use Rattle.std.specs.Str.{bytes_eq};
ghost use Rattle.elan_names.specs.Names.{Word};
ghost use Rattle.elan_clauses.specs.Gives.{Gives};
ghost use Rattle.elan_clauses.specs.Rules as spec;
ghost use Rattle.elan_clauses.specs.Seen.{has_seen};

use crate::refusing::refused;
use elan_modules::{LoadedText, word_at};
use elan_names::{Groups, name_key};
use elan_text::{Code, NoMemory, Stop};
use std::alloc::Global;

/// Whether a word is new, which is seen from then on.
#[tactic(auto, using(crate::proofs::SeenLemmas::seen_more))]
fn is_new(alloc: Global, seen: &mut Groups, word: &[u8], number: u32) -> Result<bool, NoMemory>
    ensures value { IfOk result (λ new. new ≡ not (has_seen seen.old word.now)) }
    ensures seen { IfOk result (λ new. new ≡ true → (other : Word)
        → has_seen seen.new other ≡ (has_seen seen.old other || bytes_eq word.now other)) }
{
    let key = name_key(alloc, word)?;
    if !seen.find(&key).is_empty() {
        return Ok(false);
    }
    seen.note(alloc, Some(key), number)?;
    Ok(true)
}

/// The first of these tokens that has the bytes of an earlier one. It takes time by their number.
#[tactic(auto, using(crate::proofs::SeenLemmas::step_new, crate::proofs::SeenLemmas::step_old, crate::proofs::SeenLemmas::begun))]
pub fn second_of(alloc: Global, text: &LoadedText, numbers: &[u32]) -> Result<Option<u32>, NoMemory>
    ensures { IfOk result (λ n. n ≡ spec.second_of text.now spec.none_seen numbers.now) }
{
    let mut seen = Groups::new(alloc);
    let mut left = numbers;
    'names: while let [first, rest @ ..] = left {
        if !is_new(alloc, &mut seen, word_at(text, *first), *first)? {
            return Ok(Some(*first));
        }
        left = rest;
    }
    Ok(None)
}

/// Nothing, or the refusal of a name that stands a second time.
pub fn once_or(alloc: Global, text: &LoadedText, twice: Option<u32>) -> Result<(), Stop>
    ensures { Gives result (spec.once_or text.now twice (Ok tt)) }
{
    match twice {
        None => Ok(()),
        Some(number) => Err(refused(alloc, text, number, Code::E21)),
    }
}
