//! The numbers of items under keys that are read from them.

ghost use Rattle.std.specs.Prelude.{◌≡◌, ◌<◌, ◌^◌, length, IfOk, Option};
ghost use Rattle.std.specs.Option.{option_map};
ghost use Rattle.elan_names.specs.Groups.{KeyValue, under, value_of};
ghost use Rattle.elan_names.specs.Indexed as spec;

use crate::groups::{Groups, Key};
use crate::heads::{Head, Label};
use crate::keys::{counted_key, name_key, prefix_key, sorted_key};
use crate::prefixes::prefix_at;
use elan_program::Operator;
use elan_text::NoMemory;
use std::alloc::Global;

/// Which key an item has.
pub trait Keys<T> {
    /// The key of an item, if it has one.
    ghost of: { T → Option KeyValue };

    /// The key of an item, if it has one.
    fn key(alloc: Global, item: &T) -> Result<Option<Key>, NoMemory>
        ensures { IfOk result (λ key. option_map value_of key ≡ of item.now) };
}

/// The numbers of items under their keys; the first item has the number 0.
pub fn grouped<T, K: Keys<T>>(alloc: Global, items: &[T]) -> Result<Groups, NoMemory>
    requires { length items.now < 2 ^ 32 }
    ensures { IfOk result (λ g. (key : KeyValue)
        → under g key ≡ spec.keyed K.of key 0 items.now) }
{
    let mut groups = Groups::new(alloc);
    let mut number: u32 = 0;
    'items: for item in items {
        groups.note(alloc, K::key(alloc, item)?, number)?;
        number += 1;
    }
    Ok(groups)
}

// ---- the keys of definitions

/// The name of a definition.
pub(crate) struct HeadName;

impl Keys<Head> for HeadName {
    ghost of = { spec.name_key };

    fn key(alloc: Global, head: &Head) -> Result<Option<Key>, NoMemory> {
        Ok(Some(name_key(alloc, head.name.as_bytes())?))
    }
}

/// The name and the sort of a definition.
pub(crate) struct HeadAt;

impl Keys<Head> for HeadAt {
    ghost of = { spec.head_key };

    fn key(alloc: Global, head: &Head) -> Result<Option<Key>, NoMemory> {
        Ok(Some(sorted_key(alloc, head.name.as_bytes(), head.sort)?))
    }
}

/// The name of a definition that has parameters.
pub(crate) struct WideName;

impl Keys<Head> for WideName {
    ghost of = { spec.wide_name_key };

    fn key(alloc: Global, head: &Head) -> Result<Option<Key>, NoMemory> {
        if 0 < head.parameters {
            Ok(Some(name_key(alloc, head.name.as_bytes())?))
        } else {
            Ok(None)
        }
    }
}

/// The name and the sort of a definition that has parameters.
pub(crate) struct WideAt;

impl Keys<Head> for WideAt {
    ghost of = { spec.wide_key };

    fn key(alloc: Global, head: &Head) -> Result<Option<Key>, NoMemory> {
        if 0 < head.parameters {
            Ok(Some(sorted_key(alloc, head.name.as_bytes(), head.sort)?))
        } else {
            Ok(None)
        }
    }
}

// ---- the keys of rules

/// The label of a rule.
pub(crate) struct LabelName;

impl Keys<Label> for LabelName {
    ghost of = { spec.label_key };

    fn key(alloc: Global, label: &Label) -> Result<Option<Key>, NoMemory> {
        match &label.name {
            None => Ok(None),
            Some(name) => Ok(Some(name_key(alloc, name.as_bytes())?)),
        }
    }
}

/// The label and the sort of a rule.
pub(crate) struct LabelAt;

impl Keys<Label> for LabelAt {
    ghost of = { spec.rule_key };

    fn key(alloc: Global, label: &Label) -> Result<Option<Key>, NoMemory> {
        match &label.name {
            None => Ok(None),
            Some(name) => Ok(Some(sorted_key(alloc, name.as_bytes(), label.sort)?)),
        }
    }
}

// ---- the keys of operators

/// The name of an operator and how many holes it has.
pub(crate) struct PrefixName;

impl Keys<Operator> for PrefixName {
    ghost of = { spec.prefix_key };

    fn key(alloc: Global, operator: &Operator) -> Result<Option<Key>, NoMemory> {
        match prefix_at(operator) {
            None => Ok(None),
            Some((word, count)) => Ok(Some(counted_key(alloc, word, count)?)),
        }
    }
}

/// The name of an operator, how many holes it has, and its sort.
pub(crate) struct PrefixAt;

impl Keys<Operator> for PrefixAt {
    ghost of = { spec.operator_key };

    fn key(alloc: Global, operator: &Operator) -> Result<Option<Key>, NoMemory> {
        match prefix_at(operator) {
            None => Ok(None),
            Some((word, count)) => Ok(Some(prefix_key(alloc, word, count, operator.sort)?)),
        }
    }
}
