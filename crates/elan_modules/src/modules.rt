//! Modules in their texts: where the module of a name is, what it imports and which sort expressions stand in it.

ghost use Rattle.std.specs.Prelude.{◌≡◌, ◌≤◌, ◌<◌, ◌++◌, ◌+◌, ◌∷◌, ℕ, List, length, IfOk, OnOk, Some, slice_get, map};
ghost use Rattle.std.specs.Option.{option_map};
ghost use Rattle.elan_modules.specs.Sorts as sorts;
ghost use Rattle.elan_modules.specs.Modules as spec;

use crate::flat::{LoadedText, Standard};
use crate::replacing::Replacements;
use crate::sorts::{argument_spans, is_long, place_at, word_at, written_by};
use crate::walk::Reference;
use elan_syntax::{ModuleOutline, OpDecl, Section, Span, Vars};
use elan_text::{Name, NoMemory, Place};
use sqlite_items::Items;
use std::alloc::Global;

/// The built-in module of a name.
pub(crate) fn standard_of(name: &[u8]) -> Option<Standard>
    ensures { result ≡ spec.standard_of name.now }
{
    if name == b"bool".as_slice() {
        Some(Standard::Bool)
    } else if name == b"int".as_slice() {
        Some(Standard::Int)
    } else if name == b"eq".as_slice() {
        Some(Standard::Eq)
    } else {
        None
    }
}

/// How many parameters a built-in module has.
pub(crate) fn parameter_count(standard: Standard) -> usize
    ensures { result ≡ spec.parameter_count standard }
{
    match standard {
        Standard::Bool | Standard::Int => 0,
        Standard::Eq => 1,
    }
}

/// A copy of the name of a loaded text.
pub fn copy_owner(alloc: Global, owner: &Option<Name>) -> Result<Option<Name>, NoMemory>
    ensures { IfOk result (λ copy. copy ≡ owner.now) }
{
    match owner {
        Some(name) => Ok(Some(name.copy(alloc)?)),
        None => Ok(None),
    }
}

/// What a built-in module imports, at the place of the reference to it.
pub(crate) fn standard_imports(
    alloc: Global,
    standard: Standard,
    reference: &Reference,
) -> Result<Items<Reference>, NoMemory>
    ensures { IfOk result (λ found. found ≡ spec.standard_imports standard reference.now) }
{
    let mut found = Items::new(alloc);
    match standard {
        Standard::Bool => {}
        Standard::Int | Standard::Eq => found.push(bool_at(alloc, reference)?)?,
    }
    Ok(found)
}

/// A reference to `bool` at the place of another one.
fn bool_at(alloc: Global, reference: &Reference) -> Result<Reference, NoMemory>
    ensures { IfOk result (λ r. r ≡ spec.bool_at reference.now) }
{
    let name = Name::new(alloc, b"bool")?;
    let module = copy_owner(alloc, &reference.module)?;
    Ok(Reference {
        name,
        args: Items::new(alloc),
        at: reference.at,
        module,
    })
}

/// The name of a module of a text.
pub(crate) fn name_of<'a>(text: &'a LoadedText, outline: &ModuleOutline) -> &'a [u8]
    ensures { result.now ≡ spec.name_of text.now outline.now }
{
    word_at(text, outline.name)
}

/// The names of the parameters with these token numbers.
pub fn parameters_of(
    alloc: Global,
    text: &LoadedText,
    numbers: &[u32],
) -> Result<Items<Name>, NoMemory>
    ensures { IfOk result (λ found. found ≡ spec.parameters_of text.now numbers.now) }
{
    let mut found = Items::new(alloc);
    'numbers: for number in numbers {
        found.push(Name::new(alloc, word_at(text, *number))?)?;
    }
    Ok(found)
}

/// The sort expressions of sections, in the order of the text.
pub(crate) fn sort_spans(
    alloc: Global,
    text: &LoadedText,
    sections: &[Section],
) -> Result<Items<Span>, NoMemory>
    ensures { IfOk result (λ found. found ≡ spec.sort_spans text.now sections.now) }
{
    let mut found = Items::new(alloc);
    let mut left = sections;
    'sections: while let [section, rest @ ..] = left {
        add_section(alloc, &mut found, text, section)?;
        left = rest;
    }
    Ok(found)
}

/// Adds the sort expressions of a section.
fn add_section(
    alloc: Global,
    found: &mut Items<Span>,
    text: &LoadedText,
    section: &Section,
) -> Result<(), NoMemory>
    ensures { OnOk result (found.new ≡ found.old ++ spec.section_sorts text.now section.now) }
{
    match section {
        Section::Imports(references) => add_arguments(alloc, found, text, references.as_slice()),
        Section::Sorts(sorts) => add_spans(found, sorts.as_slice()),
        Section::Operators(operators) => add_operators(found, operators.as_slice()),
        Section::Rules { sort, vars, .. } => add_variables(found, *sort, vars.as_slice()),
        Section::Strategies { sort, .. } => found.push(*sort),
    }
}

/// Adds the arguments of references.
fn add_arguments(
    alloc: Global,
    found: &mut Items<Span>,
    text: &LoadedText,
    references: &[Span],
) -> Result<(), NoMemory>
    ensures { OnOk result (found.new ≡ found.old ++ spec.argument_sorts text.now references.now) }
{
    let mut left = references;
    'references: while let [reference, rest @ ..] = left {
        found.append(argument_spans(alloc, text, *reference)?)?;
        left = rest;
    }
    Ok(())
}

/// Adds spans.
fn add_spans(found: &mut Items<Span>, spans: &[Span]) -> Result<(), NoMemory>
    ensures { OnOk result (found.new ≡ found.old ++ spans.now) }
{
    let mut left = spans;
    'spans: while let [span, rest @ ..] = left {
        found.push(*span)?;
        left = rest;
    }
    Ok(())
}

/// Adds the sort expressions of operators.
fn add_operators(found: &mut Items<Span>, operators: &[OpDecl]) -> Result<(), NoMemory>
    ensures { OnOk result (found.new ≡ found.old ++ spec.operator_sorts operators.now) }
{
    let mut left = operators;
    'operators: while let [operator, rest @ ..] = left {
        add_spans(found, operator.args.as_slice())?;
        found.push(operator.sort)?;
        left = rest;
    }
    Ok(())
}

/// Adds the sort of a section of rules and those of its variables.
fn add_variables(found: &mut Items<Span>, sort: Span, vars: &[Vars]) -> Result<(), NoMemory>
    ensures { OnOk result (found.new ≡ found.old ++ sort ∷ map (λ v. v.sort) vars.now) }
{
    found.push(sort)?;
    let mut left = vars;
    'vars: while let [declared, rest @ ..] = left {
        found.push(declared.sort)?;
        left = rest;
    }
    Ok(())
}

/// The place of the first sort expression that has too many names once the parameters are replaced.
#[tactic(auto, unfolding(crate::specs::Modules::first_long))]
pub(crate) fn first_long(
    text: &LoadedText,
    replacements: &Replacements<'_>,
    spans: &[Span],
) -> Option<Place>
    ensures { result ≡ spec.first_long text.now
        replacements.now.parameters replacements.now.sorts spans.now }
{
    let mut left = spans;
    'spans: while let [span, rest @ ..] = left {
        if is_long(text, replacements, *span) {
            return Some(place_at(text, span.first));
        }
        left = rest;
    }
    None
}

/// A reference with its arguments, once the parameters are replaced.
pub(crate) fn reference_of(
    alloc: Global,
    text: &LoadedText,
    replacements: &Replacements<'_>,
    span: Span,
) -> Result<Reference, NoMemory>
    ensures { IfOk result (λ r. r ≡ spec.reference_of text.now
        replacements.now.parameters replacements.now.sorts span) }
{
    let spans = argument_spans(alloc, text, span)?;
    let args = written_all(alloc, text, replacements, spans.as_slice())?;
    let name = Name::new(alloc, word_at(text, span.first))?;
    let module = copy_owner(alloc, &text.module)?;
    Ok(Reference {
        name,
        args,
        at: place_at(text, span.first),
        module,
    })
}

/// The written forms of sort expressions, with the parameters replaced.
fn written_all(
    alloc: Global,
    text: &LoadedText,
    replacements: &Replacements<'_>,
    spans: &[Span],
) -> Result<Items<Name>, NoMemory>
    ensures { IfOk result (λ names. names
        ≡ spec.written_all text.now replacements.now.parameters replacements.now.sorts spans.now) }
{
    let mut found = Items::new(alloc);
    let mut left = spans;
    'spans: while let [span, rest @ ..] = left {
        found.push(written_by(alloc, text, replacements, *span)?)?;
        left = rest;
    }
    Ok(found)
}

/// The references of sections, in the order of the text.
pub(crate) fn imports_of(
    alloc: Global,
    text: &LoadedText,
    replacements: &Replacements<'_>,
    sections: &[Section],
) -> Result<Items<Reference>, NoMemory>
    ensures { IfOk result (λ found. found
        ≡ spec.imports_of text.now replacements.now.parameters replacements.now.sorts sections.now) }
{
    let mut found = Items::new(alloc);
    let mut left = sections;
    'sections: while let [section, rest @ ..] = left {
        if let Section::Imports(spans) = section {
            add_references(alloc, &mut found, text, replacements, spans.as_slice())?;
        }
        left = rest;
    }
    Ok(found)
}

/// Adds the references of these spans.
pub(crate) fn add_references(
    alloc: Global,
    found: &mut Items<Reference>,
    text: &LoadedText,
    replacements: &Replacements<'_>,
    spans: &[Span],
) -> Result<(), NoMemory>
    ensures { OnOk result (found.new ≡ found.old ++ spec.references_of text.now
        replacements.now.parameters replacements.now.sorts spans.now) }
{
    let mut left = spans;
    'spans: while let [span, rest @ ..] = left {
        found.push(reference_of(alloc, text, replacements, *span)?)?;
        left = rest;
    }
    Ok(())
}
