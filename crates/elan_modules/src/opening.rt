//! Loaded texts with their tokens and their outlines.

ghost use Rattle.std.specs.Prelude.{◌≡◌, ◌≤◌, ◌&&◌, true, length, IfOk, IfErr};
ghost use Rattle.std.specs.List.{list_all};
ghost use Rattle.elan_phrases.specs.Symbols.{is_unreserved as IsUnreserved};
ghost use Rattle.elan_modules.specs.declared.flat.FlattenRefusal.TheVariants.{NoMemory as OutOfMemory};
ghost use Rattle.elan_modules.specs.Modules as spec;
ghost use Rattle.elan_modules.specs.Openings.{InText, Opens};
ghost use Rattle.elan_modules.specs.Loads.{IsOwn};

use crate::flat::{FlattenRefusal, LoadedText};
use elan_lexer::{Token, tokens};
use elan_phrases::is_unreserved;
use elan_syntax::{ModuleOutline, module_outline};
use elan_text::{Name, NoMemory, Refusal, Stop};
use sqlite_items::Items;
use std::alloc::Global;

/// The text of the module of a name, with its tokens and its outline.
#[tactic(auto, using(crate::proofs::OpenedLemmas::opens_no_tokens, crate::proofs::OpenedLemmas::opens_no_outline, crate::proofs::OpenedLemmas::opens_found))]
pub(crate) fn open(alloc: Global, name: &Name, bytes: Vec<u8>) -> Result<LoadedText, FlattenRefusal>
    requires fits { length bytes.items ≤ 4194304 }
    requires unreserved { IsUnreserved name.now.bytes ≡ true }
    ensures opens { Opens (spec.opened name.now bytes.items) result }
    ensures own { IfOk result (λ text. IsOwn name.now text) }
{
    let found = match tokens(alloc, bytes.as_slice()) {
        Ok(found) => found,
        Err(stop) => return Err(refusal_in(alloc, name, stop)),
    };
    match module_outline(alloc, bytes.as_slice(), found.as_slice(), name) {
        Ok(outline) => loaded(alloc, name, bytes, found, outline),
        Err(stop) => Err(refusal_in(alloc, name, stop)),
    }
}

/// The text with these parts.
fn loaded(
    alloc: Global,
    name: &Name,
    bytes: Vec<u8>,
    tokens: Vec<Token>,
    outline: ModuleOutline,
) -> Result<LoadedText, FlattenRefusal>
    ensures ok { IfOk result (λ text. text
        ≡ spec.loaded_text name.now bytes.items tokens.items outline) }
    ensures err { IfErr result (λ e. e ≡ OutOfMemory) }
{
    let module = name.copy(alloc)?;
    let mut modules = Items::new(alloc);
    modules.push(outline)?;
    Ok(LoadedText {
        module: Some(module),
        bytes: Items::from_vec(bytes),
        tokens: Items::from_vec(tokens),
        modules,
    })
}

/// What stops the reading of the text of a module, as a refusal in it.
fn refusal_in(alloc: Global, name: &Name, stop: Stop) -> FlattenRefusal
    ensures { InText name.now stop result }
{
    match stop {
        Stop::Refused(refusal) => match name.copy(alloc) {
            Ok(module) => FlattenRefusal::Refused(Refusal {
                code: refusal.code,
                at: refusal.at,
                module: Some(module),
            }),
            Err(_) => FlattenRefusal::NoMemory,
        },
        Stop::NoMemory => FlattenRefusal::NoMemory,
    }
}

/// Whether a module can have this name.
#[tactic(auto, unfolding(crate::specs::Modules::is_name))]
pub(crate) fn is_name(name: &[u8]) -> bool
    ensures { result ≡ spec.is_name name.now }
{
    has_words(name) && is_unreserved(name)
}

/// Whether all bytes are letters, digits or `_`.
fn has_words(name: &[u8]) -> bool
    ensures { result ≡ list_all spec.is_word_byte name.now }
{
    let mut left = name;
    'bytes: while let [byte, rest @ ..] = left {
        if !byte.is_ascii_alphanumeric() && *byte != b'_' {
            return false;
        }
        left = rest;
    }
    true
}
