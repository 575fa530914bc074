//! An index of the names of a program, and what is found in it.

ghost use Rattle.std.specs.Prelude.{◌≡◌, ◌<◌, ◌^◌, ◌||◌, length, IfOk};
ghost use Rattle.std.specs.List.{list_any};
ghost use Rattle.elan_names.specs.Names as spec;
ghost use Rattle.elan_names.specs.Indexed.{AreHeads, AreLabels, AreOperators, IsIndexOf};

use crate::groups::Groups;
use crate::heads::{Head, Label, Names};
use crate::keyed::{
    HeadAt, HeadName, LabelAt, LabelName, PrefixAt, PrefixName, WideAt, WideName, grouped,
};
use elan_program::Operator;
use elan_text::NoMemory;
use std::alloc::Global;

/// The numbers of definitions.
#[derive(Drop)]
pub(crate) struct HeadGroups {
    pub(crate) sorted: Groups,
    pub(crate) wide: Groups,
    pub(crate) named: Groups,
    pub(crate) wide_named: Groups,
}

/// The numbers of rules.
#[derive(Drop)]
pub(crate) struct LabelGroups {
    pub(crate) sorted: Groups,
    pub(crate) named: Groups,
}

/// The numbers of operators.
#[derive(Drop)]
pub(crate) struct OperatorGroups {
    pub(crate) sorted: Groups,
    pub(crate) counted: Groups,
}

/// An index of the rules, definitions and operators of a program, by which a name is found without
/// going through them.
#[derive(Drop)]
pub struct Index {
    pub(crate) heads: HeadGroups,
    pub(crate) labels: LabelGroups,
    pub(crate) operators: OperatorGroups,
}

fn head_groups(alloc: Global, heads: &[Head]) -> Result<HeadGroups, NoMemory>
    requires { length heads.now < 2 ^ 32 }
    ensures { IfOk result (λ g. AreHeads g heads.now) }
{
    let sorted = grouped::<Head, HeadAt>(alloc, heads)?;
    let wide = grouped::<Head, WideAt>(alloc, heads)?;
    let named = grouped::<Head, HeadName>(alloc, heads)?;
    let wide_named = grouped::<Head, WideName>(alloc, heads)?;
    Ok(HeadGroups {
        sorted,
        wide,
        named,
        wide_named,
    })
}

fn label_groups(alloc: Global, labels: &[Label]) -> Result<LabelGroups, NoMemory>
    requires { length labels.now < 2 ^ 32 }
    ensures { IfOk result (λ g. AreLabels g labels.now) }
{
    let sorted = grouped::<Label, LabelAt>(alloc, labels)?;
    let named = grouped::<Label, LabelName>(alloc, labels)?;
    Ok(LabelGroups { sorted, named })
}

fn operator_groups(alloc: Global, operators: &[Operator]) -> Result<OperatorGroups, NoMemory>
    requires { length operators.now < 2 ^ 32 }
    ensures { IfOk result (λ g. AreOperators g operators.now) }
{
    let sorted = grouped::<Operator, PrefixAt>(alloc, operators)?;
    let counted = grouped::<Operator, PrefixName>(alloc, operators)?;
    Ok(OperatorGroups { sorted, counted })
}

impl Index {
    /// The index of these names and operators, of each of which there are fewer than 4,294,967,296.
    /// It takes time and memory by their number and length.
    ///
    /// # Errors
    ///
    /// `NoMemory`.
    pub fn new(alloc: Global, names: &Names, operators: &[Operator]) -> Result<Index, NoMemory>
        requires labels { length names.now.labels < 2 ^ 32 }
        requires heads { length names.now.heads < 2 ^ 32 }
        requires operators { length operators.now < 2 ^ 32 }
        ensures { IfOk result (λ i. IsIndexOf i names.now operators.now) }
    {
        let heads = head_groups(alloc, names.heads.as_slice())?;
        let labels = label_groups(alloc, names.labels.as_slice())?;
        let operators = operator_groups(alloc, operators)?;
        Ok(Index {
            heads,
            labels,
            operators,
        })
    }
}
