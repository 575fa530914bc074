//! The words of a command line as options.

ghost use Rattle.std.specs.Prelude.{◌≡◌, ◌⊎◌, IfErr, IfOk, None, Some};
ghost use Rattle.elan_cli.specs.declared.fault.WordsRefusal.TheVariants.{NoMemory as OutOfMemory};
ghost use Rattle.elan_cli.specs.Line as spec;
ghost use Rattle.elan_cli.specs.Ranges.{AreInRange};
ghost use Rattle.elan_cli.specs.Refusals.{IsFirstWrong};
ghost use Rattle.elan_cli.specs.Words.{texts};

use crate::fault::WordsRefusal;
use crate::given::{Options, read};
use crate::mistake::{first_mistake, has_flag};
use std::alloc::Global;

/// The options that the words of a command line give, without the program's name.
///
/// A word is `--plain`, or `--name` with its value in the next word, or `--name=value`, for the
/// names `workers`, `limit`, `steps` and `demo`; each name and the flag stand at most once. `plain`
/// says that the caller asks for the plain engine, as `--plain` among the words does.
///
/// The first word from the left that is refused decides, without memory. Where none is, an `Err` is
/// want of memory.
#[tactic(auto, using(crate::proofs::Causes::first_wrong, crate::proofs::Causes::named_alone, crate::proofs::InRange::read_within), unfolding(crate::specs::Line::options_of, crate::specs::Line::refusal_of))]
pub fn options(alloc: Global, words: &[String], plain: bool) -> Result<Options, WordsRefusal>
    ensures accepted { IfOk result (λ o. spec.options_of plain (texts words.now) ≡ Some o) }
    // Each number stands in the range of its option.
    ensures ranges { IfOk result (λ o. AreInRange (spec.is_plain plain (texts words.now)) o) }
    ensures refused { IfErr result (λ e. (e ≡ OutOfMemory)
        ⊎ ((spec.options_of plain (texts words.now) ≡ None)
        × (spec.refusal_of plain (texts words.now) ≡ Some e))) }
    // Memory is wanted only for words that are accepted.
    ensures wanted { IfErr result (λ e. e ≡ OutOfMemory
        → spec.refusal_of plain (texts words.now) ≡ None) }
    // Which word that is, that no word before it is refused, and what is wrong with it.
    ensures cause { IfErr result (λ e. (e ≡ OutOfMemory)
        ⊎ IsFirstWrong (spec.is_plain plain (texts words.now)) (texts words.now) e) }
{
    let plain = plain || has_flag(words);
    match first_mistake(plain, words) {
        Some(refusal) => Err(refusal),
        None => Ok(read(alloc, plain, words)?),
    }
}
