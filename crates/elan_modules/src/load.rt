//! The text of a module, from the loaders.

ghost use Rattle.std.specs.Prelude.{◌≡◌, ◌≤◌, ◌+◌, true, false, length, map, nat_lt, IfOk, None};
ghost use Rattle.elan_modules.specs.Modules as modules;
ghost use Rattle.elan_modules.specs.Visits as spec;
ghost use Rattle.elan_modules.specs.Walks.{Walks, Stays, Is, stock};
ghost use Rattle.elan_modules.specs.Loads.{HasOne, IsOwn, walk_with, texts_with};

use crate::flat::{FlattenRefusal, LoadedText};
use crate::modules::copy_owner;
use crate::opening::open;
use crate::progress::Walk;
use crate::walk::Reference;
use elan_loaders::{Fetched, Loader, ask_all};
use elan_text::{Code, Name, Place, Refusal};
use std::alloc::Global;

/// How many bytes the texts may have together.
const MOST_BYTES: usize = 4_194_304;

/// Asks the loaders for the text of a reference, and opens it.
pub(crate) fn load<L: Loader>(
    alloc: Global,
    walk: &Walk,
    loaders: &mut [L],
    reference: &Reference,
) -> Result<LoadedText, FlattenRefusal>
    requires named { modules.is_name reference.now.name.bytes ≡ true }
    requires absent { modules.find 0 walk.now.texts reference.now.name.bytes ≡ None }
    ensures walks { Walks (λ library. spec.fetched walk.now reference.now
        (library reference.now.name.bytes))
        (stock L.library L.misses L.failures loaders.old walk.now.texts)
        (stock L.library L.misses L.failures loaders.new (texts_with walk.now.texts result))
        (walk_with walk.now) result }
    ensures one { IfOk result (λ text. HasOne text.modules) }
    ensures own { IfOk result (λ text. IsOwn reference.now.name text) }
{
    let Ok(name) = str::from_utf8(reference.name.as_bytes()) else {
        unreachable!()
    };
    let mut bytes = Vec::new(alloc);
    match ask_all(loaders, name, &mut bytes) {
        Fetched::Found => admit(alloc, walk, &reference.name, bytes),
        Fetched::Absent => Err(refused_at(alloc, Code::E06, reference)),
        Fetched::Failed => Err(FlattenRefusal::LoaderFault),
        Fetched::NoMemory => Err(FlattenRefusal::NoMemory),
    }
}

/// Opens the text of a name, unless all texts together are too long.
fn admit(
    alloc: Global,
    walk: &Walk,
    name: &Name,
    bytes: Vec<u8>,
) -> Result<LoadedText, FlattenRefusal>
    requires { modules.is_name name.now.bytes ≡ true }
    ensures stays { Stays (walk_with walk.now) result (spec.loaded walk.now name.now bytes.items) }
    ensures one { IfOk result (λ text. HasOne text.modules) }
    ensures own { IfOk result (λ text. IsOwn name.now text) }
{
    if is_past(walk.texts(), bytes.len()) {
        return Err(too_long(alloc, name));
    }
    open(alloc, name, bytes)
}

/// Whether these texts and so many bytes more are too long together.
fn is_past(texts: &[LoadedText], more: usize) -> bool
    ensures { result ≡ nat_lt spec.most_bytes (spec.total texts.now + more) }
{
    let Some(mut room) = MOST_BYTES.checked_sub(more) else {
        return true;
    };
    let mut left = texts;
    'texts: while let [text, rest @ ..] = left {
        match room.checked_sub(text.bytes.len()) {
            Some(smaller) => room = smaller,
            None => return true,
        }
        left = rest;
    }
    false
}

/// The refusal of a text of a name that makes all of them too long.
fn too_long(alloc: Global, name: &Name) -> FlattenRefusal
    ensures { Is (spec.too_long name.now) result }
{
    match name.copy(alloc) {
        Ok(module) => FlattenRefusal::Refused(Refusal {
            code: Code::E01,
            at: Place { line: 1, column: 1 },
            module: Some(module),
        }),
        Err(_) => FlattenRefusal::NoMemory,
    }
}

/// A refusal at the first token of a reference.
pub(crate) fn refused_at(alloc: Global, code: Code, reference: &Reference) -> FlattenRefusal
    ensures { Is (spec.refusal_at code reference.now) result }
{
    match copy_owner(alloc, &reference.module) {
        Ok(module) => FlattenRefusal::Refused(Refusal {
            code,
            at: reference.at,
            module,
        }),
        Err(_) => FlattenRefusal::NoMemory,
    }
}
