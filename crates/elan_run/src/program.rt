//! The checked program of a stream, with what is asked of it.

ghost use Rattle.std.specs.Prelude.{◌≡◌, IfOk, false};
ghost use Rattle.elan_clauses.specs.Gives.{Gives};
ghost use Rattle.elan_check.specs.Validity.{IsPrepared};
ghost use Rattle.elan_lexer.specs.Text.{Fits};
ghost use Rattle.elan_modules.specs.Fitting.{IsFlat};
ghost use Rattle.elan_modules.specs.Visits.{needs_loaders};
ghost use Rattle.elan_modules.specs.Walks.{shelf, Moved, Untouched};
ghost use Rattle.elan_run.specs.Asked.{Tells, IsPreparedIn};
ghost use Rattle.elan_run.specs.Verdict as spec;

use elan_check::{Prepared, check, is_small};
use elan_lexer::Token;
use elan_loaders::Loader;
use elan_modules::{Flat, FlattenRefusal, flatten};
use elan_reader::ChartReader;
use elan_signature::signature;
use elan_syntax::Outline;
use elan_text::Stop;
use std::alloc::Global;

/// The signature of a flat program, and over it what is checked. A section with 4,294,967,296
/// variables or parameters is refused as for want of memory.
#[tactic(auto, unfolding(crate::specs::Verdict::prepared_of))]
fn prepared(alloc: Global, flat: &Flat) -> Result<Prepared, Stop>
    requires { IsFlat flat.now }
    ensures exact { Gives result (spec.prepared_of flat.now) }
    ensures valid { IfOk result (λ p. IsPrepared p) }
{
    let signature = signature(alloc, flat)?;
    if !is_small(flat) {
        return Err(Stop::NoMemory);
    }
    let prepared = check(alloc, &ChartReader, flat, signature)?;
    Ok(prepared)
}

/// The same, or why a program was not flattened.
fn prepared_or(alloc: Global, flat: &Flat) -> Result<Prepared, FlattenRefusal>
    requires { IsFlat flat.now }
    ensures { IsPreparedIn flat.now result }
{
    match prepared(alloc, flat) {
        Ok(prepared) => Ok(prepared),
        Err(Stop::Refused(refusal)) => Err(FlattenRefusal::Refused(refusal)),
        Err(Stop::NoMemory) => Err(FlattenRefusal::NoMemory),
    }
}

/// What a stream with these tokens and this outline asks, with texts from loaders: first it is
/// flattened.
pub(crate) fn asked(
    alloc: Global,
    bytes: &[u8],
    tokens: &[Token],
    outline: Outline,
    loaders: &mut Vec<Box<dyn Loader>>,
) -> Result<Prepared, FlattenRefusal>
    requires { Fits bytes.now tokens.now }
    ensures tells { Tells bytes.now tokens.now outline
        (shelf (λ l. library l) (λ l. misses l) (λ l. failures l) loaders.old.items)
        (shelf (λ l. library l) (λ l. misses l) (λ l. failures l) loaders.new.items) result }
    ensures valid { IfOk result (λ p. IsPrepared p) }
    // What becomes of the loaders.
    ensures moved { Moved
        (shelf (λ l. library l) (λ l. misses l) (λ l. failures l) loaders.old.items)
        (shelf (λ l. library l) (λ l. misses l) (λ l. failures l) loaders.new.items) }
    ensures untouched { needs_loaders bytes.now tokens.now outline ≡ false
        → Untouched
        (shelf (λ l. library l) (λ l. misses l) (λ l. failures l) loaders.old.items)
        (shelf (λ l. library l) (λ l. misses l) (λ l. failures l) loaders.new.items) }
{
    match flatten(alloc, bytes, tokens, outline, loaders) {
        Ok(flat) => prepared_or(alloc, &flat),
        Err(why) => Err(why),
    }
}
