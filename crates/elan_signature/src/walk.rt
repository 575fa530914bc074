//! The walk through the instances, which ends at the first refusal.

ghost use Rattle.std.specs.Prelude.{◌≡◌, ◌≤◌, ◌∷◌, [], length, slice_get};
ghost use Rattle.elan_modules.specs.Modules.{parameters_of as parameters_in};
ghost use Rattle.elan_signature.specs.Declarations as declared;
ghost use Rattle.elan_signature.specs.Outcomes.{Gives, become, itself};
ghost use Rattle.elan_signature.specs.Walk as spec;

use crate::declare::{MOST, add_operators};
use crate::done::Done;
use crate::scope::{Scope, World};
use elan_modules::{
    Flat, Instance, LoadedText, Origin, Replacements, argument_spans, parameters_of,
};
use elan_syntax::{LplOutline, ModuleOutline, Section, Span, Vars};
use elan_text::{Code, Name, Stop};
use std::alloc::Global;

/// Looks whether each of these names a declared sort.
#[tactic(auto, unfolding(crate::specs::Walk::look_all))]
fn look_all(alloc: Global, scope: &Scope<'_>, spans: &[Span]) -> Result<(), Stop>
    ensures { Gives itself result (spec.look_all scope.now spans.now) }
{
    let mut left = spans;
    'spans: while let [span, rest @ ..] = left {
        scope.sort_at(alloc, *span)?;
        left = rest;
    }
    Ok(())
}

/// Looks whether each argument of these references names a declared sort.
#[tactic(auto, unfolding(crate::specs::Walk::look_arguments))]
fn look_arguments(alloc: Global, scope: &Scope<'_>, references: &[Span]) -> Result<(), Stop>
    ensures { Gives itself result (spec.look_arguments scope.now references.now) }
{
    let mut left = references;
    'references: while let [reference, rest @ ..] = left {
        let spans = argument_spans(alloc, scope.text(), *reference)?;
        look_all(alloc, scope, spans.as_slice())?;
        left = rest;
    }
    Ok(())
}

/// Looks whether the sort of each of these variables is declared.
#[tactic(auto, unfolding(crate::specs::Walk::look_variables))]
fn look_variables(alloc: Global, scope: &Scope<'_>, vars: &[Vars]) -> Result<(), Stop>
    ensures { Gives itself result (spec.look_variables scope.now vars.now) }
{
    let mut left = vars;
    'vars: while let [declared, rest @ ..] = left {
        scope.sort_at(alloc, declared.sort)?;
        left = rest;
    }
    Ok(())
}

/// Whether a number is one of the first so many, where it is there.
fn is_one_of(count: usize, number: Option<usize>) -> bool
    ensures { result ≡ spec.is_one_of count number }
{
    match number {
        Some(number) => number < count,
        None => true,
    }
}

/// Looks whether no declared sort is one too many.
#[tactic(auto, unfolding(crate::specs::Walk::count_sorts))]
fn count_sorts(alloc: Global, scope: &Scope<'_>, spans: &[Span]) -> Result<(), Stop>
    ensures { Gives itself result (spec.count_sorts scope.now spans.now) }
{
    let mut left = spans;
    'spans: while let [span, rest @ ..] = left {
        if !is_one_of(MOST, scope.counted_at(alloc, *span)?) {
            return Err(scope.refusal(alloc, Code::E14, span.first));
        }
        left = rest;
    }
    Ok(())
}

/// Looks whether the sort of a section of rules and those of its variables are declared.
fn look_rules(alloc: Global, scope: &Scope<'_>, sort: Span, vars: &[Vars]) -> Result<(), Stop>
    ensures { Gives itself result (spec.look_rules scope.now sort vars.now) }
{
    scope.sort_at(alloc, sort)?;
    look_variables(alloc, scope, vars)
}

/// Looks whether the sort of a section of strategies is declared.
fn look_strategies(alloc: Global, scope: &Scope<'_>, sort: Span) -> Result<(), Stop>
    ensures { Gives itself result (spec.look_strategies scope.now sort) }
{
    scope.sort_at(alloc, sort)?;
    Ok(())
}

/// Walks through a section.
#[tactic(auto, unfolding(crate::specs::Walk::with_section))]
fn walk_section(
    alloc: Global,
    done: &mut Done,
    scope: &Scope<'_>,
    section: &Section,
) -> Result<(), Stop>
    ensures { Gives (become done.new) result (spec.with_section scope.now done.old section.now) }
{
    match section {
        Section::Imports(references) => look_arguments(alloc, scope, references.as_slice()),
        Section::Sorts(spans) => count_sorts(alloc, scope, spans.as_slice()),
        Section::Operators(all) => add_operators(alloc, done, scope, all.as_slice()),
        Section::Rules { sort, vars, .. } => look_rules(alloc, scope, *sort, vars.as_slice()),
        Section::Strategies { sort, .. } => look_strategies(alloc, scope, *sort),
    }
}

/// Walks through sections.
#[tactic(auto, unfolding(crate::specs::Walk::with_sections))]
fn walk_sections(
    alloc: Global,
    done: &mut Done,
    scope: &Scope<'_>,
    sections: &[Section],
) -> Result<(), Stop>
    ensures { Gives (become done.new) result (spec.with_sections scope.now done.old sections.now) }
{
    let mut left = sections;
    'sections: while let [section, rest @ ..] = left {
        walk_section(alloc, done, scope, section)?;
        left = rest;
    }
    Ok(())
}

/// Walks through a module of a text.
fn walk_module<'x>(
    alloc: Global,
    done: &mut Done,
    world: &'x World<'x>,
    text: &'x LoadedText,
    args: &'x [Name],
    outline: &ModuleOutline,
) -> Result<(), Stop>
    ensures { Gives (become done.new) result (spec.with_sections
        (declared.scope_of world.now text.now
        (parameters_in text.now outline.now.parameters) args.now)
        done.old outline.now.sections) }
{
    let parameters = parameters_of(alloc, text, outline.parameters.as_slice())?;
    let replacements = Replacements::new(alloc, parameters.as_slice(), args)?;
    let scope = world.scope(text, &replacements);
    walk_sections(alloc, done, &scope, outline.sections.as_slice())
}

/// Walks through an instance. A built-in one has no text.
fn walk_instance<'x>(
    alloc: Global,
    done: &mut Done,
    world: &'x World<'x>,
    instance: &'x Instance,
) -> Result<(), Stop>
    ensures { Gives (become done.new) result
        (spec.with_origin world.now instance.now done.old instance.now.origin) }
{
    let Origin::Text { text, module } = instance.origin else {
        return Ok(());
    };
    let Some(text) = world.texts().get(text as usize) else {
        return Ok(());
    };
    let Some(outline) = text.modules.get(module as usize) else {
        return Ok(());
    };
    walk_module(alloc, done, world, text, instance.args.as_slice(), outline)
}

/// Walks through instances.
#[tactic(auto, unfolding(crate::specs::Walk::with_instances))]
fn walk_instances<'x>(
    alloc: Global,
    done: &mut Done,
    world: &'x World<'x>,
    instances: &'x [Instance],
) -> Result<(), Stop>
    ensures { Gives (become done.new) result
        (spec.with_instances world.now done.old instances.now) }
{
    let mut left = instances;
    'instances: while let [instance, rest @ ..] = left {
        walk_instance(alloc, done, world, instance)?;
        left = rest;
    }
    Ok(())
}

/// Looks at the sorts of the `LPL` text.
#[tactic(auto, unfolding(crate::specs::Walk::look_lpl))]
fn look_lpl(alloc: Global, scope: &Scope<'_>, lpl: &LplOutline) -> Result<(), Stop>
    ensures { Gives itself result (spec.look_lpl scope.now lpl.now) }
{
    scope.sort_at(alloc, lpl.query_sort)?;
    scope.sort_at(alloc, lpl.result_sort)?;
    look_arguments(alloc, scope, lpl.imports.as_slice())
}

/// Looks at the `LPL` text, which stands in the first text and has no parameters.
fn look_stream<'x>(alloc: Global, world: &'x World<'x>, lpl: &LplOutline) -> Result<(), Stop>
    ensures { Gives itself result
        (spec.look_stream world.now lpl.now (slice_get world.now.texts 0)) }
{
    match world.texts().first() {
        None => Ok(()),
        Some(text) => {
            let replacements = Replacements::new(alloc, &[], &[])?;
            look_lpl(alloc, &world.scope(text, &replacements), lpl)
        }
    }
}

/// Walks through the instances and the `LPL` text of a flat program.
#[tactic(auto, unfolding(crate::specs::Walk::walked))]
pub(crate) fn walk<'x>(
    alloc: Global,
    done: &mut Done,
    world: &'x World<'x>,
    flat: &'x Flat,
) -> Result<(), Stop>
    ensures { Gives (become done.new) result (spec.walked flat.now world.now done.old) }
{
    walk_instances(alloc, done, world, flat.instances.as_slice())?;
    look_stream(alloc, world, &flat.lpl)
}
