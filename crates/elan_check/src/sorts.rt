//! Modules in their texts, and the sorts that sort expressions name.

ghost use Rattle.std.specs.Prelude.{◌≡◌, ◌<◌, ◌^◌, length, IfOk, Some};
ghost use Rattle.elan_names.specs.Groups.{KeyValue, under, by_name};
ghost use Rattle.elan_names.specs.Indexed.{keyed};
ghost use Rattle.elan_clauses.specs.Gives.{Gives};
ghost use Rattle.elan_check.specs.Laid as spec;
ghost use Rattle.elan_check.specs.SortIndex.{sort_key, AreSorts};

use elan_clauses::refused;
use elan_modules::{LoadedText, Replacements, written_by};
use elan_names::{Groups, Key, Keys, grouped, name_key};
use elan_program::Signature;
use elan_syntax::Span;
use elan_terms::SortId;
use elan_text::{Code, Name, NoMemory, Stop};
use std::alloc::Global;

/// A module in its text, with the sorts that stand for its parameters.
#[derive(Clone, Copy)]
pub(crate) struct Module<'a, 'b, 'c> {
    pub(crate) text: &'a LoadedText,
    pub(crate) replacements: &'b Replacements<'c>,
}

/// A signature with an index of its sorts.
#[derive(Clone, Copy)]
pub(crate) struct Sorts<'a> {
    pub(crate) signature: &'a Signature,
    pub(crate) index: &'a Groups,
    pub(crate) ghost indexed: { AreSorts index.now signature.now },
}

/// The name of a sort.
struct SortName;

impl Keys<Name> for SortName {
    ghost of = { sort_key };

    fn key(alloc: Global, name: &Name) -> Result<Option<Key>, NoMemory> {
        Ok(Some(name_key(alloc, name.as_bytes())?))
    }
}

/// The index of the sorts of a signature.
pub(crate) fn sort_index(alloc: Global, signature: &Signature) -> Result<Groups, NoMemory>
    requires { length signature.now.sorts < 2 ^ 32 }
    ensures { IfOk result (λ index. AreSorts index signature.now) }
{
    grouped::<Name, SortName>(alloc, signature.sorts.as_slice())
}

/// The first of these numbers as a sort.
fn first_sort(numbers: &[u32]) -> Option<SortId>
    ensures { result ≡ spec.first_sort numbers.now }
{
    match numbers {
        [] => None,
        [number, ..] => Some(SortId(*number)),
    }
}

/// The sort of a sort expression.
#[tactic(auto, using(crate::proofs::SortLemmas::sort_found), unfolding(crate::specs::Laid::sort_at))]
pub(crate) fn sort_at(
    alloc: Global,
    sorts: &Sorts<'_>,
    site: &Module<'_, '_, '_>,
    at: Span,
) -> Result<SortId, Stop>
    ensures { Gives result (spec.sort_at sorts.now.signature.now (spec.seen site.now) at) }
{
    let name = written_by(alloc, site.text, site.replacements, at)?;
    let key = name_key(alloc, name.as_bytes())?;
    match first_sort(sorts.index.find(&key)) {
        Some(sort) => Ok(sort),
        None => Err(refused(alloc, site.text, at.first, Code::E10)),
    }
}
