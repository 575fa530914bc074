//! A program flattened to the list of its module instances.

ghost use Rattle.std.specs.Prelude.{◌≡◌, ◌≤◌, ◌<◌, ◌+◌, ◌++◌, ◌∷◌, [], false, true, length, map, slice_get, IfOk, Some, None};
ghost use Rattle.std.specs.List.{list_any};
ghost use Rattle.elan_modules.specs.Sorts as sorts;
ghost use Rattle.elan_modules.specs.Modules as modules;
ghost use Rattle.elan_modules.specs.Visits as spec;
ghost use Rattle.elan_lexer.specs.Text.{Fits};
ghost use Rattle.elan_loaders.specs.Libraries.{first_told, SomeRose, EachRose, NoneFell};
ghost use Rattle.elan_modules.specs.declared.flat.LoadedText.{LoadedText as TextValue};
ghost use Rattle.elan_modules.specs.Fitting.{IsFitting, IsFlat};
ghost use Rattle.elan_modules.specs.Ordered.{IsOrdered};
ghost use Rattle.elan_modules.specs.Flattens.{AllTold, Gives, StopsAt};
ghost use Rattle.elan_modules.specs.Walks.{Walks, IsSound, IsAnswer, Comes, Lacks, stock, is_fault, is_absent};
ghost use Rattle.elan_modules.specs.Loads.{itself, texts_of, texts_in};

use crate::flat::{Flat, FlattenRefusal, LoadedText};
use crate::modules::{add_references, name_of, standard_of};
use crate::progress::Walk;
use crate::replacing::Replacements;
use crate::sorts::place_at;
use crate::visit::visit_all;
use crate::walk::Reference;
use elan_lexer::Token;
use elan_loaders::Loader;
use elan_numbers::Numbers;
use elan_syntax::{LplOutline, ModuleOutline, Outline, Span};
use elan_text::{Code, NoMemory, Place, Refusal};
use sqlite_items::Items;
use std::alloc::Global;

/// The module instances of a stream, given its tokens and its outline, with the texts that were loaded for them.
///
/// The references of the `LPL` import are followed, and those of each module before it is finished. A module's text is
/// the stream's own, else that of the first loader in the list that has it. After a refusal the loaders stand as their
/// fetches left them.
pub fn flatten(
    alloc: Global,
    bytes: &[u8],
    tokens: &[Token],
    outline: Outline,
    loaders: &mut Vec<Box<dyn Loader>>,
) -> Result<Flat, FlattenRefusal>
    // What is answered where each loader tells its library, where the stream needs no loaders, and for any libraries.
    ensures told { AllTold (map (λ l. library l) loaders.old.items) → Gives result
        (spec.flat_program (first_told (map (λ l. library l) loaders.old.items)) bytes.now tokens.now outline) }
    ensures alone { spec.needs_loaders bytes.now tokens.now outline ≡ false
        → Gives result (spec.flat_program spec.nobody bytes.now tokens.now outline) }
    ensures sound { (said : spec.Library) → IsSound said (map (λ l. library l) loaders.old.items)
        → Comes itself result (spec.flat_program said bytes.now tokens.now outline) }
    // What is answered for whatever the loaders gave, told or not: that of the walk over just these answers.
    ensures answered { (said : spec.Library)
        × IsAnswer (map (λ l. library l) loaders.old.items) said
        × StopsAt result (spec.flat_program said bytes.now tokens.now outline) }
    // What stands in the program, where the tokens are those of the stream.
    ensures flat { IfOk result (λ f. Fits bytes.now tokens.now → IsFlat f) }
    // In which order its instances stand: each one once, behind those that it imports.
    ensures ordered { IfOk result IsOrdered }
    // Why a loader's fault and a missing module are answered.
    ensures fault { is_fault result ≡ true
        → SomeRose (map (λ l. failures l) loaders.old.items) (map (λ l. failures l) loaders.new.items) }
    ensures needed { is_fault result ≡ true
        → spec.needs_loaders bytes.now tokens.now outline ≡ true }
    ensures absent { is_absent result ≡ true
        → EachRose (map (λ l. misses l) loaders.old.items) (map (λ l. misses l) loaders.new.items) }
    ensures lacking { is_absent result ≡ true
        → Lacks (map (λ l. library l) loaders.old.items) result }
    // What becomes of the loaders.
    ensures libraries { map (λ l. library l) loaders.new.items
        ≡ map (λ l. library l) loaders.old.items }
    ensures misses { NoneFell (map (λ l. misses l) loaders.old.items)
        (map (λ l. misses l) loaders.new.items) }
    ensures failures { NoneFell (map (λ l. failures l) loaders.old.items)
        (map (λ l. failures l) loaders.new.items) }
    ensures untouched { spec.needs_loaders bytes.now tokens.now outline ≡ false
        → (map (λ l. misses l) loaders.new.items ≡ map (λ l. misses l) loaders.old.items)
        × (map (λ l. failures l) loaders.new.items ≡ map (λ l. failures l) loaders.old.items) }
{
    flatten_with(alloc, bytes, tokens, outline, loaders.as_mut_slice())
}

/// The stream as the first text.
fn stream_of(
    alloc: Global,
    bytes: &[u8],
    tokens: &[Token],
    modules: Items<ModuleOutline>,
) -> Result<LoadedText, NoMemory>
    ensures { IfOk result (λ text. text ≡ spec.stream_with bytes.now tokens.now modules) }
{
    let bytes = Items::from_slice(alloc, bytes)?;
    let tokens = Items::from_slice(alloc, tokens)?;
    Ok(LoadedText {
        module: None,
        bytes,
        tokens,
        modules,
    })
}

/// Whether a name is one of these or that of a built-in module.
fn is_taken(before: &Numbers, name: &[u8]) -> bool
    ensures { result ≡ spec.is_taken before.now name.now }
{
    before.number_of(name).is_some() || standard_of(name).is_some()
}

/// The place of the first module whose name is taken.
#[tactic(auto, unfolding(crate::specs::Visits::named_twice), using(crate::proofs::Indexes::named_next))]
fn named_twice(alloc: Global, stream: &LoadedText) -> Result<Option<Place>, NoMemory>
    ensures { IfOk result (λ at. at ≡ spec.named_twice stream.now [] stream.now.modules) }
{
    let mut names = Numbers::new(alloc);
    let mut left = stream.modules.as_slice();
    'modules: while let [first, rest @ ..] = left {
        let name = name_of(stream, first);
        if is_taken(&names, name) {
            return Ok(Some(place_at(stream, first.name)));
        }
        names.add(alloc, name)?;
        left = rest;
    }
    Ok(None)
}

/// The references of the `LPL` import.
fn asked(alloc: Global, stream: &LoadedText, lpl: &LplOutline) -> Result<Items<Reference>, NoMemory>
    ensures { IfOk result (λ found. found
        ≡ modules.references_of stream.now [] [] lpl.now.imports) }
{
    let mut found = Items::new(alloc);
    let imports = lpl.imports.as_slice();
    let replacements = Replacements::new(alloc, &[], &[])?;
    add_references(alloc, &mut found, stream, &replacements, imports)?;
    Ok(found)
}

/// The flat program of a walk that has come to its end.
fn flat_of(lpl: LplOutline, query: Span, walk: Walk) -> Flat
    ensures value { result ≡ spec.flat_of lpl query walk }
    ensures flat { (stream : TextValue) → slice_get walk.texts 0 ≡ Some stream
        → IsFitting stream → IsFlat result }
{
    let (texts, done) = walk.into_parts();
    Flat {
        texts,
        instances: done,
        lpl,
        query,
    }
}

/// The walk of a stream, from the references of the `LPL` import.
#[tactic(auto, using(crate::proofs::EntryLemmas::hungry_still, crate::proofs::EntryLemmas::walks_error, crate::proofs::EntryLemmas::walks_given, crate::proofs::EntryLemmas::walks_twice, crate::proofs::EntryLemmas::walks_once))]
fn walked<L: Loader>(
    alloc: Global,
    stream: LoadedText,
    lpl: &LplOutline,
    loaders: &mut [L],
) -> Result<Walk, FlattenRefusal>
    ensures walks { Walks (λ library. spec.walked library stream lpl.now)
        (stock L.library L.misses L.failures loaders.old (stream ∷ []))
        (stock L.library L.misses L.failures loaders.new (texts_of result)) itself result }
    ensures first { IfOk result (λ walk. slice_get walk.texts 0 ≡ Some stream) }
{
    let twice = named_twice(alloc, &stream)?;
    if let Some(at) = twice {
        return Err(FlattenRefusal::Refused(Refusal {
            code: Code::E09,
            at,
            module: None,
        }));
    }
    let imports = asked(alloc, &stream, lpl)?;
    let mut walk = Walk::start(alloc, stream)?;
    match visit_all(alloc, &mut walk, loaders, &[], imports.as_slice()) {
        Ok(()) => Ok(walk),
        Err(why) => Err(why),
    }
}

/// The flat program of a stream, with loaders of one type.
#[tactic(auto, using(crate::proofs::EntryLemmas::hungry_still, crate::proofs::EntryLemmas::flat_then, crate::proofs::EntryLemmas::flat_ended, crate::proofs::EntryLemmas::flat_given, crate::proofs::BeginLemmas::stays_hungry))]
fn flatten_with<L: Loader>(
    alloc: Global,
    bytes: &[u8],
    tokens: &[Token],
    outline: Outline,
    loaders: &mut [L],
) -> Result<Flat, FlattenRefusal>
    ensures walks { Walks (λ library. spec.flat_program library bytes.now tokens.now outline)
        (stock L.library L.misses L.failures loaders.old
        (spec.stream_of bytes.now tokens.now outline ∷ []))
        (stock L.library L.misses L.failures loaders.new (texts_in result)) itself result }
    ensures flat { IfOk result (λ f. Fits bytes.now tokens.now → IsFlat f) }
{
    let Outline {
        modules,
        lpl,
        query,
    } = outline;
    let stream = stream_of(alloc, bytes, tokens, modules)?;
    match walked(alloc, stream, &lpl, loaders) {
        Ok(walk) => Ok(flat_of(lpl, query, walk)),
        Err(why) => Err(why),
    }
}
