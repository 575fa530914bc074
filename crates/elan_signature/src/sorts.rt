//! The sorts of a program in the order of their first declaration.

ghost use Rattle.std.specs.Prelude.{◌≡◌, OnOk, slice_get};
ghost use Rattle.elan_modules.specs.Modules as modules;
ghost use Rattle.elan_signature.specs.Sorts as spec;

use elan_modules::{
    Instance, LoadedText, Origin, Replacements, Standard, parameters_of, written_by,
};
use elan_numbers::Numbers;
use elan_syntax::{ModuleOutline, Section, Span};
use elan_text::{Name, NoMemory};
use std::alloc::Global;

/// Adds the sort of a built-in module.
fn add_built_in(alloc: Global, known: &mut Numbers, standard: Standard) -> Result<(), NoMemory>
    ensures { OnOk result (known.new ≡ spec.with_built_in known.old standard) }
{
    match standard {
        Standard::Bool => known.add(alloc, b"bool"),
        Standard::Int => known.add(alloc, b"int"),
        Standard::Eq => Ok(()),
    }
}

/// Adds the sorts of these sort expressions.
fn add_spans(
    alloc: Global,
    known: &mut Numbers,
    text: &LoadedText,
    replacements: &Replacements<'_>,
    spans: &[Span],
) -> Result<(), NoMemory>
    ensures { OnOk result (known.new ≡ spec.with_spans text.now
        replacements.now.parameters replacements.now.sorts known.old spans.now) }
{
    let mut left = spans;
    'spans: while let [span, rest @ ..] = left {
        let name = written_by(alloc, text, replacements, *span)?;
        known.add(alloc, name.as_bytes())?;
        left = rest;
    }
    Ok(())
}

/// Adds the sorts that sections declare.
fn add_sections(
    alloc: Global,
    known: &mut Numbers,
    text: &LoadedText,
    replacements: &Replacements<'_>,
    sections: &[Section],
) -> Result<(), NoMemory>
    ensures { OnOk result (known.new ≡ spec.with_sections text.now
        replacements.now.parameters replacements.now.sorts known.old sections.now) }
{
    let mut left = sections;
    'sections: while let [section, rest @ ..] = left {
        if let Section::Sorts(spans) = section {
            add_spans(alloc, known, text, replacements, spans.as_slice())?;
        }
        left = rest;
    }
    Ok(())
}

/// Adds the sorts that a module of a text declares.
fn add_module(
    alloc: Global,
    known: &mut Numbers,
    text: &LoadedText,
    args: &[Name],
    outline: &ModuleOutline,
) -> Result<(), NoMemory>
    ensures { OnOk result (known.new ≡ spec.with_sections text.now
        (modules.parameters_of text.now outline.now.parameters) args.now known.old
        outline.now.sections) }
{
    let parameters = parameters_of(alloc, text, outline.parameters.as_slice())?;
    let replacements = Replacements::new(alloc, parameters.as_slice(), args)?;
    add_sections(
        alloc,
        known,
        text,
        &replacements,
        outline.sections.as_slice(),
    )
}

/// Adds the sorts that a module of a text declares, where the two are there.
fn add_numbered(
    alloc: Global,
    known: &mut Numbers,
    texts: &[LoadedText],
    args: &[Name],
    text: u32,
    number: u32,
) -> Result<(), NoMemory>
    ensures { OnOk result (known.new
        ≡ spec.with_text args.now number known.old (slice_get texts.now text)) }
{
    let Some(text) = texts.get(text as usize) else {
        return Ok(());
    };
    let Some(outline) = text.modules.get(number as usize) else {
        return Ok(());
    };
    add_module(alloc, known, text, args, outline)
}

/// Adds the sorts that an instance declares.
fn add_instance(
    alloc: Global,
    known: &mut Numbers,
    texts: &[LoadedText],
    instance: &Instance,
) -> Result<(), NoMemory>
    ensures { OnOk result (known.new
        ≡ spec.with_origin texts.now known.old instance.now instance.now.origin) }
{
    match instance.origin {
        Origin::Builtin(standard) => add_built_in(alloc, known, standard),
        Origin::Text { text, module } => {
            add_numbered(alloc, known, texts, instance.args.as_slice(), text, module)
        }
    }
}

/// Adds the sorts that instances declare.
pub(crate) fn add_instances(
    alloc: Global,
    known: &mut Numbers,
    texts: &[LoadedText],
    instances: &[Instance],
) -> Result<(), NoMemory>
    ensures { OnOk result (known.new ≡ spec.with_instances texts.now known.old instances.now) }
{
    let mut left = instances;
    'instances: while let [instance, rest @ ..] = left {
        add_instance(alloc, known, texts, instance)?;
        left = rest;
    }
    Ok(())
}

/// Adds the sorts of the built-in modules among these instances.
pub(crate) fn add_built_ins(
    alloc: Global,
    known: &mut Numbers,
    instances: &[Instance],
) -> Result<(), NoMemory>
    ensures { OnOk result (known.new ≡ spec.with_built_ins known.old instances.now) }
{
    let mut left = instances;
    'instances: while let [instance, rest @ ..] = left {
        if let Origin::Builtin(standard) = instance.origin {
            add_built_in(alloc, known, standard)?;
        }
        left = rest;
    }
    Ok(())
}
