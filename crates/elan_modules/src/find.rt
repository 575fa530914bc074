//! Where the module of a name is.

ghost use Rattle.std.specs.Prelude.{◌≡◌, ◌≤◌, length, drop, slice_get};
ghost use Rattle.elan_modules.specs.Modules as spec;
ghost use Rattle.elan_modules.specs.Finds.{Finds, FindsIn};

use crate::flat::LoadedText;
use crate::modules::name_of;
use crate::walk::Spot;

/// Where the first module of a name is among these texts.
#[tactic(auto, unfolding(crate::specs::Modules::find), using(crate::proofs::FindLemmas::finds_here, crate::proofs::FindLemmas::finds_later))]
pub(crate) fn find(texts: &[LoadedText], name: &[u8]) -> Option<Spot>
    ensures { Finds texts.now result (spec.find 0 texts.now name.now) }
{
    let mut text = 0;
    let mut left = texts;
    'texts: while let [first, rest @ ..] = left {
        if let Some(module) = find_in(first, name) {
            return Some(Spot { text, module });
        }
        text += 1;
        left = rest;
    }
    None
}

/// The number of the first module of a name in a text.
#[tactic(auto, unfolding(crate::specs::Modules::find_in), using(crate::proofs::FindLemmas::found_at))]
fn find_in(text: &LoadedText, name: &[u8]) -> Option<usize>
    ensures { FindsIn text.now.modules result (spec.find_in text.now 0 text.now.modules name.now) }
{
    let mut module = 0;
    let mut left = text.modules.as_slice();
    'modules: while let [first, rest @ ..] = left {
        if name_of(text, first) == name {
            return Some(module);
        }
        module += 1;
        left = rest;
    }
    None
}
