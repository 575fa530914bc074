//! Modules that loaders have. Instances and refusals of modules in the stream are cases of `elan_cases`.

use elan_lexer::tokens;
use elan_loaders::{Loader, MemoryLoader};
use elan_modules::{Flat, FlattenRefusal, Instance, Origin, flatten};
use elan_syntax::outline;
use elan_text::{Place, Refusal};
use std::alloc::Global;
use std::collections::BTreeMap;
use std::test::Fail;

const LIST: &[u8] =
    b"module list[X]\nsort list[X]; end\noperators global\n  nil : list[X];\n  @ . @ : (X list[X]) list[X] pri 5 assocRight;\nend\nend\n";

const CELL: &[u8] =
    b"module cell[X]\nsort cell[X]; end\noperators\nwrap(@) : (X) cell[X];\nend\nend\n";

const LPL: &[u8] = b"LPL q description\nquery of sort s\nresult of sort s\nimport ";

const REST: &[u8] = b"\nstart with (id) query\nend\na end\n";

/// A loader with one text that fails at its fetches of these numbers.
fn memory(alloc: Global, name: &str, text: &[u8], failing: &[u64]) -> Result<MemoryLoader, Fail> {
    let mut texts = BTreeMap::new(alloc);
    texts.insert(String::from_str(alloc, name)?, text.to_vec(alloc)?)?;
    Ok(MemoryLoader::new(alloc, texts, failing.to_vec(alloc)?))
}

/// What modules come to with this `LPL` import.
fn flat(
    alloc: Global,
    modules: &[u8],
    import: &[u8],
    loaders: &mut Vec<Box<dyn Loader>>,
) -> Result<Result<Flat, FlattenRefusal>, Fail> {
    let mut text = modules.to_vec(alloc)?;
    text.extend_from_slice(LPL)?;
    text.extend_from_slice(import)?;
    text.extend_from_slice(REST)?;
    if text.len() > 4_194_304 {
        return Err("the stream is too long".into());
    }
    let found = tokens(alloc, text.as_slice())
        .ok()
        .ok_or("there are tokens")?;
    let outline = outline(alloc, text.as_slice(), found.as_slice())
        .ok()
        .ok_or("there is an outline")?;
    Ok(flatten(alloc, text.as_slice(), found.as_slice(), outline, loaders))
}

/// An instance as `name[args]`, and behind it the numbers of its text and its module.
fn show(alloc: Global, instance: &Instance, into: &mut Vec<u8>) -> Result<(), Fail> {
    into.extend_from_slice(instance.name.as_bytes())?;
    for arg in instance.args.as_slice() {
        into.extend_from_slice(b"(")?;
        into.extend_from_slice(arg.as_bytes())?;
        into.extend_from_slice(b")")?;
    }
    let place = match instance.origin {
        Origin::Builtin(_) => String::from_str(alloc, "/- ")?,
        Origin::Text { text, module } => format!(in alloc; "/{text}.{module} ")?,
    };
    into.extend_from_slice(place.as_str().as_bytes())?;
    Ok(())
}

/// The instances, each with a space behind it, or the refusal.
fn shown(alloc: Global, answer: Result<Flat, FlattenRefusal>) -> Result<Vec<u8>, Fail> {
    let mut into = Vec::new(alloc);
    match answer {
        Ok(flat) => {
            for instance in flat.instances.as_slice() {
                show(alloc, instance, &mut into)?;
            }
        }
        Err(FlattenRefusal::Refused(refusal)) => show_refusal(alloc, &refusal, &mut into)?,
        Err(FlattenRefusal::LoaderFault) => into.extend_from_slice(b"loader fault")?,
        Err(FlattenRefusal::NoMemory) => into.extend_from_slice(b"no memory")?,
    }
    Ok(into)
}

/// A refusal as its code, its place and its module.
fn show_refusal(alloc: Global, refusal: &Refusal, into: &mut Vec<u8>) -> Result<(), Fail> {
    let Place { line, column } = refusal.at;
    let code = refusal.code;
    let text = format!(in alloc; "{code:?} {line}:{column}")?;
    into.extend_from_slice(text.as_str().as_bytes())?;
    if let Some(module) = &refusal.module {
        into.extend_from_slice(b" in ")?;
        into.extend_from_slice(module.as_bytes())?;
    }
    Ok(())
}

/// Two loaders, of which the first is asked first.
fn both(
    alloc: Global,
    first: MemoryLoader,
    second: MemoryLoader,
) -> Result<Vec<Box<dyn Loader>>, Fail> {
    let mut loaders: Vec<Box<dyn Loader>> = Vec::new(alloc);
    loaders.push(Box::new(alloc, first)?)?;
    loaders.push(Box::new(alloc, second)?)?;
    Ok(loaders)
}

/// What modules come to with these loaders, as text.
fn told(
    alloc: Global,
    modules: &[u8],
    import: &[u8],
    loaders: &mut Vec<Box<dyn Loader>>,
) -> Result<Vec<u8>, Fail> {
    let answer = flat(alloc, modules, import, loaders)?;
    shown(alloc, answer)
}

/// A module that needs lists of two sorts.
const USES: &[u8] = b"module use\nimport global int list[int] list[bool]; end\nend\n";

/// The names of the modules and the bytes of all texts but the first.
fn loaded(alloc: Global, flat: &Flat) -> Result<Vec<u8>, Fail> {
    let mut into = Vec::new(alloc);
    if let [_, rest @ ..] = flat.texts.as_slice() {
        for text in rest {
            if let Some(name) = &text.module {
                into.extend_from_slice(name.as_bytes())?;
            }
            into.extend_from_slice(text.bytes.as_slice())?;
        }
    }
    Ok(into)
}

#[test]
fn a_text_is_kept_with_the_name_of_its_module(rt: HostRuntime) -> Result<(), Fail> {
    let alloc = rt.alloc();
    let mut loaders = both(
        alloc,
        memory(alloc, "list", LIST, &[])?,
        memory(alloc, "list", CELL, &[1])?,
    )?;
    let flat = flat(alloc, USES, b"use", &mut loaders)?
        .ok()
        .ok_or("there is a flat program")?;
    let found = loaded(alloc, &flat)?;
    assert_eq!(rt;
        found.as_slice().split_at(4.min(found.len())),
        (b"list".as_slice(), LIST)
    );
    Ok(())
}

#[test]
fn the_first_loader_that_has_a_module_decides(rt: HostRuntime) -> Result<(), Fail> {
    let alloc = rt.alloc();
    // The second fetch of the first loader fails, and so does each one of the second.
    let mut loaders = both(
        alloc,
        memory(alloc, "list", LIST, &[2])?,
        memory(alloc, "list", CELL, &[1])?,
    )?;
    let rows = [
        b"bool/- int/- list(int)/1.0 list(bool)/1.0 use/0.0 ".as_slice(),
        b"loader fault",
    ];
    for wanted in rows {
        let found = told(alloc, USES, b"use", &mut loaders)?;
        assert_eq!(rt; found.as_slice(), wanted);
    }
    Ok(())
}

/// How often each loader lacked a module.
fn absences(alloc: Global, loaders: &[Box<dyn Loader>]) -> Result<Vec<u64>, Fail> {
    let mut all = Vec::new(alloc);
    for loader in loaders {
        all.push(loader.absences())?;
    }
    Ok(all)
}

#[test]
fn a_loader_is_asked_where_those_before_it_lack_the_module(rt: HostRuntime) -> Result<(), Fail> {
    let alloc = rt.alloc();
    let mut loaders = both(
        alloc,
        memory(alloc, "other", CELL, &[])?,
        memory(alloc, "cell", CELL, &[])?,
    )?;
    let stream = b"module top\nimport cell[s]; end\nsort s; end\nend\n".as_slice();
    let rows = [
        (
            stream,
            b"top".as_slice(),
            b"cell(s)/1.0 top/0.0 ".as_slice(),
        ),
        (stream, b"missing", b"E06 8:8"),
        (b"", b"other[s]", b"E05 1:8 in other"),
    ];
    for (modules, import, wanted) in rows {
        let found = told(alloc, modules, import, &mut loaders)?;
        assert_eq!(rt; found.as_slice(), wanted);
    }
    let found = absences(alloc, loaders.as_slice())?;
    assert_eq!(rt; found.as_slice(), [2, 1].as_slice());
    Ok(())
}

#[test]
fn texts_together_have_a_limit(rt: HostRuntime) -> Result<(), Fail> {
    let alloc = rt.alloc();
    // The stream has 92 bytes.
    let blank = vec![in alloc; b' '; 4_194_212]?;
    let longer = vec![in alloc; b' '; 4_194_213]?;
    let mut loaders = both(
        alloc,
        memory(alloc, "m", blank.as_slice(), &[])?,
        memory(alloc, "n", longer.as_slice(), &[])?,
    )?;
    let rows = [
        (b"m".as_slice(), b"E05 1:4194213 in m".as_slice()),
        (b"n", b"E01 1:1 in n"),
    ];
    for (import, wanted) in rows {
        let found = told(alloc, b"", import, &mut loaders)?;
        assert_eq!(rt; found.as_slice(), wanted);
    }
    Ok(())
}
