//! The keys of an index.

ghost use Rattle.std.specs.Prelude.{◌≡◌, IfOk, Some, None};
ghost use Rattle.elan_names.specs.Groups as spec;

use crate::groups::Key;
use elan_terms::SortId;
use elan_text::NoMemory;
use std::alloc::Global;

fn bytes_of(alloc: Global, word: &[u8]) -> Result<Vec<u8>, NoMemory>
    ensures { IfOk result (λ bytes. bytes.items ≡ word.now) }
{
    let mut bytes = Vec::new(alloc);
    bytes.extend_from_slice(word)?;
    Ok(bytes)
}

/// A name for whatever sort.
pub fn name_key(alloc: Global, word: &[u8]) -> Result<Key, NoMemory>
    ensures { IfOk result (λ key. spec.value_of key ≡ spec.by_name word.now) }
{
    Ok(Key {
        name: bytes_of(alloc, word)?,
        holes: None,
        sort: None,
    })
}

/// A name at a sort.
pub(crate) fn sorted_key(alloc: Global, word: &[u8], sort: SortId) -> Result<Key, NoMemory>
    ensures { IfOk result (λ key. spec.value_of key ≡ spec.by_sort word.now sort) }
{
    Ok(Key {
        name: bytes_of(alloc, word)?,
        holes: None,
        sort: Some(sort.0),
    })
}

/// A name with so many holes, for whatever sort.
pub(crate) fn counted_key(alloc: Global, word: &[u8], count: usize) -> Result<Key, NoMemory>
    ensures { IfOk result (λ key. spec.value_of key ≡ spec.by_holes word.now count) }
{
    Ok(Key {
        name: bytes_of(alloc, word)?,
        holes: Some(count),
        sort: None,
    })
}

/// A name with so many holes, at a sort.
pub(crate) fn prefix_key(
    alloc: Global,
    word: &[u8],
    count: usize,
    sort: SortId,
) -> Result<Key, NoMemory>
    ensures { IfOk result (λ key. spec.value_of key ≡ spec.by_prefix word.now count sort) }
{
    Ok(Key {
        name: bytes_of(alloc, word)?,
        holes: Some(count),
        sort: Some(sort.0),
    })
}
