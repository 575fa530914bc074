//! Instances that are begun.

ghost use Rattle.std.specs.Prelude.{◌≡◌, ◌≤◌, ◌+◌, true, false, length, map, Some, None, IfOk};
ghost use Rattle.elan_modules.specs.declared.flat.Origin.TheVariants.{Builtin, Text};
ghost use Rattle.elan_modules.specs.Modules as modules;
ghost use Rattle.elan_modules.specs.Visits as spec;
ghost use Rattle.elan_modules.specs.Finds.{Stands};
ghost use Rattle.elan_modules.specs.Fitting.{IsOriginOf};
ghost use Rattle.elan_modules.specs.Walking.{Keeps};
ghost use Rattle.elan_modules.specs.Walks.{Walks, Stays, Is, stock};
ghost use Rattle.elan_modules.specs.Loads.{HasOne, IsOwn, walk_with, begun_with, itself};

use crate::find::find;
use crate::flat::{FlattenRefusal, LoadedText, Origin, Standard};
use crate::load::{load, refused_at};
use crate::modules::{
    copy_owner, first_long, imports_of, parameter_count, parameters_of, sort_spans,
    standard_imports, standard_of,
};
use crate::opening::is_name;
use crate::progress::Walk;
use crate::replacing::Replacements;
use crate::walk::{Opening, Reference, Spot};
use elan_loaders::Loader;
use elan_syntax::ModuleOutline;
use elan_text::{Code, NoMemory, Place, Refusal};
use sqlite_items::Items;
use std::alloc::{AllocError, Global};

/// What a module of a text imports, with the arguments of a reference in place of its parameters.
#[tactic(auto, unfolding(crate::specs::Visits::text_imports))]
fn text_imports(
    alloc: Global,
    reference: &Reference,
    text: &LoadedText,
    outline: &ModuleOutline,
) -> Result<Items<Reference>, FlattenRefusal>
    ensures { Stays itself result (spec.text_imports reference.now text.now outline.now) }
{
    let parameters = parameters_of(alloc, text, outline.parameters.as_slice())?;
    if reference.args.len() != parameters.len() {
        return Err(refused_at(alloc, Code::E07, reference));
    }
    let spans = sort_spans(alloc, text, outline.sections.as_slice())?;
    let (parameters, args) = (parameters.as_slice(), reference.args.as_slice());
    let replacements = Replacements::new(alloc, parameters, args)?;
    match first_long(text, &replacements, spans.as_slice()) {
        Some(at) => Err(long_at(alloc, text, at)),
        None => {
            let found = imports_of(alloc, text, &replacements, outline.sections.as_slice())?;
            Ok(found)
        }
    }
}

/// The refusal of a sort expression that has too many names.
fn long_at(alloc: Global, text: &LoadedText, at: Place) -> FlattenRefusal
    ensures { Is (spec.long_at text.now at) result }
{
    match copy_owner(alloc, &text.module) {
        Ok(module) => FlattenRefusal::Refused(Refusal {
            code: Code::E14,
            at,
            module,
        }),
        Err(_) => FlattenRefusal::NoMemory,
    }
}

/// What a built-in module imports.
fn built_imports(
    alloc: Global,
    reference: &Reference,
    standard: Standard,
) -> Result<Items<Reference>, FlattenRefusal>
    ensures { Stays itself result (spec.built_imports reference.now standard) }
{
    if reference.args.len() != parameter_count(standard) {
        return Err(refused_at(alloc, Code::E07, reference));
    }
    let found = standard_imports(alloc, standard, reference)?;
    Ok(found)
}

/// The numbers of a spot as an origin.
fn origin_at(spot: Spot) -> Result<Origin, NoMemory>
    ensures { IfOk result (λ origin. origin ≡ Text spot.text spot.«module») }
{
    let text = u32::try_from(spot.text).map_err(|_| AllocError)?;
    let module = u32::try_from(spot.module).map_err(|_| AllocError)?;
    Ok(Origin::Text { text, module })
}

/// An instance of a built-in module.
#[tactic(auto, using(crate::proofs::BeginLemmas::stays_then, crate::proofs::BeginLemmas::stays_ended, crate::proofs::BeginLemmas::stays_hungry))]
fn begin_standard(
    alloc: Global,
    walk: &Walk,
    reference: &Reference,
    standard: Standard,
) -> Result<Opening, FlattenRefusal>
    ensures stays { Stays (begun_with walk.now) result
        (spec.begun_standard walk.now reference.now standard) }
    ensures origin { IfOk result (λ opening. opening.origin ≡ Builtin standard) }
{
    let imports = built_imports(alloc, reference, standard)?;
    Ok(Opening {
        origin: Origin::Builtin(standard),
        imports,
    })
}

/// An instance of a module that is there.
#[tactic(auto, using(crate::proofs::BeginLemmas::stays_then, crate::proofs::BeginLemmas::stays_ended, crate::proofs::BeginLemmas::stays_hungry))]
fn begin_found(
    alloc: Global,
    walk: &Walk,
    reference: &Reference,
    spot: Spot,
) -> Result<Opening, FlattenRefusal>
    requires { (found : modules.Found) × Stands walk.now.texts spot found }
    ensures stays { (found : modules.Found) → Stands walk.now.texts spot found
        → Stays (begun_with walk.now) result (spec.begun_text reference.now (walk.now, found)) }
    ensures origin { IfOk result (λ opening. opening.origin ≡ Text spot.text spot.«module») }
{
    let Some(text) = walk.texts().get(spot.text) else {
        unreachable!()
    };
    let Some(outline) = text.modules.get(spot.module) else {
        unreachable!()
    };
    let imports = text_imports(alloc, reference, text, outline)?;
    let origin = origin_at(spot)?;
    Ok(Opening { origin, imports })
}

/// An instance of a module that the loaders have.
fn begin_loaded<L: Loader>(
    alloc: Global,
    walk: &mut Walk,
    loaders: &mut [L],
    reference: &Reference,
) -> Result<Opening, FlattenRefusal>
    requires named { modules.is_name reference.now.name.bytes ≡ true }
    requires absent { modules.find 0 walk.old.texts reference.now.name.bytes ≡ None }
    ensures walks { Walks (λ library. spec.next
        (spec.fetched walk.old reference.now (library reference.now.name.bytes))
        (spec.begun_text reference.now))
        (stock L.library L.misses L.failures loaders.old walk.old.texts)
        (stock L.library L.misses L.failures loaders.new walk.new.texts)
        (begun_with walk.new) result }
    ensures kept { Keeps walk.old.texts walk.new.texts }
    ensures origin { IfOk result (λ opening.
        IsOriginOf walk.new.texts reference.now.name.bytes opening.origin) }
{
    let text = load(alloc, walk, loaders, reference)?;
    let opening = begin_new(alloc, walk, reference, &text)?;
    walk.add_text(text)?;
    Ok(opening)
}

/// An instance of the only module of a text that comes behind those that are there.
#[tactic(auto, using(crate::proofs::BeginLemmas::stays_then, crate::proofs::BeginLemmas::stays_ended, crate::proofs::BeginLemmas::stays_hungry))]
fn begin_new(
    alloc: Global,
    walk: &Walk,
    reference: &Reference,
    text: &LoadedText,
) -> Result<Opening, FlattenRefusal>
    requires { HasOne text.now.modules }
    ensures stays { Stays (begun_with (walk_with walk.now text.now).0) result
        (spec.begun_text reference.now (walk_with walk.now text.now)) }
    ensures origin { IfOk result (λ opening. opening.origin ≡ Text (length walk.now.texts) 0) }
{
    let [outline, ..] = text.modules.as_slice() else {
        unreachable!()
    };
    let imports = text_imports(alloc, reference, text, outline)?;
    let origin = origin_at(Spot {
        text: walk.texts().len(),
        module: 0,
    })?;
    Ok(Opening { origin, imports })
}

/// An instance of a module of a text.
fn begin_text<L: Loader>(
    alloc: Global,
    walk: &mut Walk,
    loaders: &mut [L],
    reference: &Reference,
) -> Result<Opening, FlattenRefusal>
    ensures walks { Walks (λ library. spec.next (spec.located library walk.old reference.now)
        (spec.begun_text reference.now))
        (stock L.library L.misses L.failures loaders.old walk.old.texts)
        (stock L.library L.misses L.failures loaders.new walk.new.texts)
        (begun_with walk.new) result }
    ensures kept { Keeps walk.old.texts walk.new.texts }
    ensures origin { IfOk result (λ opening.
        IsOriginOf walk.new.texts reference.now.name.bytes opening.origin) }
{
    match find(walk.texts(), reference.name.as_bytes()) {
        Some(spot) => begin_found(alloc, walk, reference, spot),
        None => {
            if is_name(reference.name.as_bytes()) {
                begin_loaded(alloc, walk, loaders, reference)
            } else {
                Err(refused_at(alloc, Code::E05, reference))
            }
        }
    }
}

/// The instance that a reference begins.
pub(crate) fn begin<L: Loader>(
    alloc: Global,
    walk: &mut Walk,
    loaders: &mut [L],
    reference: &Reference,
) -> Result<Opening, FlattenRefusal>
    ensures walks { Walks (λ library. spec.begun library walk.old reference.now)
        (stock L.library L.misses L.failures loaders.old walk.old.texts)
        (stock L.library L.misses L.failures loaders.new walk.new.texts)
        (begun_with walk.new) result }
    ensures kept { Keeps walk.old.texts walk.new.texts }
    ensures origin { IfOk result (λ opening.
        IsOriginOf walk.new.texts reference.now.name.bytes opening.origin) }
{
    match standard_of(reference.name.as_bytes()) {
        Some(standard) => begin_standard(alloc, walk, reference, standard),
        None => begin_text(alloc, walk, loaders, reference),
    }
}
