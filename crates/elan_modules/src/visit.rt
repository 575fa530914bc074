//! The visit of a reference: its instance is finished behind those that it imports.

ghost use Rattle.std.specs.Prelude.{◌≡◌, ◌≤◌, ◌<◌, ◌+◌, ◌-◌, ◌++◌, ◌∷◌, [], true, false, length, nat_le, IfOk, OnOk};
ghost use Rattle.std.specs.List.{list_any};
ghost use Rattle.elan_modules.specs.Visits as spec;
ghost use Rattle.elan_modules.specs.Walking.{Keeps};
ghost use Rattle.elan_modules.specs.Walks.{Walks, Stays, Is, stock};
ghost use Rattle.elan_modules.specs.Loads.{become};

use crate::begin::begin;
use crate::flat::FlattenRefusal;
use crate::load::refused_at;
use crate::progress::{Walk, copied};
use crate::walk::Reference;
use elan_loaders::Loader;
use elan_text::{Code, Name, NoMemory};
use sqlite_items::Items;
use std::alloc::Global;

/// How many instances there may be.
const MOST_INSTANCES: usize = 256;

/// Whether the name of a reference is on the path.
fn is_on(path: &[Name], reference: &Reference) -> bool
    ensures { result ≡ list_any (spec.is_named_by reference.now) path.now }
{
    match path {
        [] => false,
        [first, rest @ ..] => { reference.name == *first || is_on(rest, reference) }
    }
}

/// Whether so many instances on the path and finished are too many for one more.
fn is_full(on_path: usize, done: usize) -> bool
    ensures { result ≡ nat_le spec.most_instances (on_path + done) }
{
    on_path.saturating_add(done) >= MOST_INSTANCES
}

/// A path with a name behind it.
fn extended(alloc: Global, path: &[Name], name: &Name) -> Result<Items<Name>, NoMemory>
    ensures { IfOk result (λ longer. longer ≡ path.now ++ name.now ∷ []) }
{
    let mut longer = copied(alloc, path)?;
    longer.push(name.copy(alloc)?)?;
    Ok(longer)
}

/// Visits a reference on a path of names.
#[cycle(visits)]
pub(crate) fn visit<L: Loader>(
    alloc: Global,
    walk: &mut Walk,
    loaders: &mut [L],
    path: &[Name],
    reference: &Reference,
) -> Result<(), FlattenRefusal>
    ensures walks { Walks (λ library. spec.visit
        (256 - length path.now) library path.now walk.old reference.now)
        (stock L.library L.misses L.failures loaders.old walk.old.texts)
        (stock L.library L.misses L.failures loaders.new walk.new.texts)
        (become walk.new) result }
    ensures kept { Keeps walk.old.texts walk.new.texts }
{
    if is_on(path, reference) {
        return Err(refused_at(alloc, Code::E08, reference));
    }
    let done = walk.is_finished(alloc, reference)?;
    if done {
        return Ok(());
    }
    if is_full(path.len(), walk.finished()) {
        return Err(refused_at(alloc, Code::E14, reference));
    }
    complete(alloc, walk, loaders, path, reference)
}

/// Begins the instance of a reference, visits what it imports and finishes it.
#[cycle(visits)]
fn complete<L: Loader>(
    alloc: Global,
    walk: &mut Walk,
    loaders: &mut [L],
    path: &[Name],
    reference: &Reference,
) -> Result<(), FlattenRefusal>
    requires { length path.now < 256 }
    ensures walks { Walks (λ library. spec.next (spec.begun library walk.old reference.now)
        (spec.completed (spec.visit (256 - (length path.now + 1)) library) path.now reference.now))
        (stock L.library L.misses L.failures loaders.old walk.old.texts)
        (stock L.library L.misses L.failures loaders.new walk.new.texts)
        (become walk.new) result }
    ensures kept { Keeps walk.old.texts walk.new.texts }
{
    let opening = begin(alloc, walk, loaders, reference)?;
    let longer = extended(alloc, path, &reference.name)?;
    visit_all(
        alloc,
        walk,
        loaders,
        longer.as_slice(),
        opening.imports.as_slice(),
    )?;
    walk.finish(alloc, reference, opening.origin)?;
    Ok(())
}

/// Visits references one after the other.
#[cycle(visits)]
pub(crate) fn visit_all<L: Loader>(
    alloc: Global,
    walk: &mut Walk,
    loaders: &mut [L],
    path: &[Name],
    references: &[Reference],
) -> Result<(), FlattenRefusal>
    ensures walks { Walks (λ library. spec.visit_all
        (spec.visit (256 - length path.now) library) path.now walk.old references.now)
        (stock L.library L.misses L.failures loaders.old walk.old.texts)
        (stock L.library L.misses L.failures loaders.new walk.new.texts)
        (become walk.new) result }
    ensures kept { Keeps walk.old.texts walk.new.texts }
{
    let mut left = references;
    'references: while let [first, rest @ ..] = left {
        visit(alloc, walk, loaders, path, first)?;
        left = rest;
    }
    Ok(())
}
