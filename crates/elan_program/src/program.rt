//! Rules, named strategies and programs.

ghost use Rattle.std.specs.Prelude.{◌≡◌, ◌<◌, IfOk, IfSome, IfNone, None, Some, length, map, slice_get};
ghost use Rattle.std.specs.Option.{option_and_then};
ghost use Rattle.elan_program.specs.Extension as spec;
ghost use Rattle.elan_program.specs.Validity.{IsValid};

use crate::extending::{extensions, unlabelled};
use crate::{Signature, Strategy};
use elan_terms::{Pattern, SortId};
use elan_text::{Name, NoMemory};
use sqlite_items::Items;
use std::alloc::Global;
use std::marker::Model;

/// A condition of a rule.
#[derive(Debug, Drop)]
pub enum Clause {
    /// The pattern has to become `true`.
    If(Pattern),
    /// The strategy is applied to `of`, and each match of `left` in a result goes on.
    Where {
        left: Pattern,
        by: Strategy,
        of: Pattern,
    },
}

/// A rewrite rule. A rule without a label is tried wherever a term is normalised.
#[derive(Debug, Drop)]
pub struct Rule {
    pub label: Option<Name>,
    pub sort: SortId,
    pub left: Pattern,
    pub right: Pattern,
    pub clauses: Items<Clause>,
}

/// A strategy with a name. It is for terms of its sort, and so are the actuals of its parameters.
#[derive(Debug, Drop)]
pub struct Named {
    pub name: Name,
    pub sort: SortId,
    /// How many parameters it has.
    pub parameters: u32,
    pub body: Strategy,
}

/// What a program is made of: a signature with rules and named strategies, each known by its place
/// in its list.
#[derive(Debug, Drop)]
pub struct Parts {
    pub signature: Signature,
    pub rules: Items<Rule>,
    pub named: Items<Named>,
}

/// A valid program. Contracts see its parts.
///
/// docs/LANGUAGE.md says what is valid. The extension rule of each rule that has one, and the list
/// of the rules that normalising tries, are made once and kept.
#[derive(Debug, Drop)]
pub struct Program {
    parts: Parts,
    extensions: Items<Option<Rule>>,
    tried: Items<Rule>,
}

impl Model for Program {
    ghost use Rattle.std.specs.Prelude.{◌≡◌, map};
    ghost use Rattle.std.specs.Coded.{codes};
    ghost use Rattle.elan_terms.specs.contracts.tree.Pattern as pattern;
    ghost use Rattle.elan_program.specs.contracts.strategy.Strategy as strategy;
    ghost use Rattle.elan_program.specs.declared.program.Parts.{Parts};

    ghost Value = { Parts };

    ghost coded = { Prim.hlevel (codes, pattern.the_row.coded, strategy.the_row.coded) };

    ghost view = { λ p. p.parts };

    ghost use Rattle.elan_program.specs.Extension.{extension, unlabelled};
    ghost use Rattle.elan_program.specs.Validity.{IsValid};

    ghost invariant = { λ p. IsValid p.parts × (p.extensions ≡ map (extension p.parts.signature) p.parts.rules)
        × (p.tried ≡ unlabelled p.parts) };
}

impl Program {
    /// The program of valid parts. `Parts::is_valid` tells whether they are. The numbers of rules
    /// and of named strategies are their places in these lists.
    pub fn new(
        alloc: Global,
        signature: Signature,
        rules: Items<Rule>,
        named: Items<Named>,
    ) -> Result<Program, NoMemory>
        requires { IsValid record { signature = signature; rules = rules; named = named } }
        ensures { IfOk result
            (λ p. p ≡ record { signature = signature; rules = rules; named = named }) }
    {
        let extensions = extensions(alloc, &signature, rules.as_slice())?;
        let parts = Parts {
            signature,
            rules,
            named,
        };
        let tried = unlabelled(alloc, &parts)?;
        Ok(Program {
            parts,
            extensions,
            tried,
        })
    }

    /// The signature.
    pub fn signature(&self) -> &Signature
        ensures { result.now ≡ self.now.signature }
    {
        &self.parts.signature
    }

    /// The rules that the program was made with, in order.
    pub fn rules(&self) -> &[Rule]
        ensures { result.now ≡ self.now.rules }
    {
        self.parts.rules.as_slice()
    }

    /// The named strategies that the program was made with, in order.
    pub fn named(&self) -> &[Named]
        ensures { result.now ≡ self.now.named }
    {
        self.parts.named.as_slice()
    }

    /// What the program is made of, which is valid.
    pub fn parts(&self) -> &Parts
        ensures value { result.now ≡ self.now }
        ensures valid { IsValid self.now }
    {
        &self.parts
    }

    /// The extension rule of the rule of this number: `None` exactly where that rule has none.
    pub fn extension(&self, rule: u32) -> Option<&Rule>
        requires { rule < length self.now.rules }
        ensures found { IfSome result (λ r.
            option_and_then (spec.extension self.now.signature) (slice_get self.now.rules rule)
            ≡ Some r.now) }
        ensures absent { IfNone result
            (option_and_then (spec.extension self.now.signature)
            (slice_get self.now.rules rule) ≡ None) }
    {
        self.extensions.as_slice()[rule as usize].as_ref()
    }

    /// The unlabelled rules in the order in which they are tried, each with its extension rule
    /// directly after it.
    pub fn unlabelled(&self) -> &[Rule]
        ensures { result.now ≡ spec.unlabelled self.now }
    {
        self.tried.as_slice()
    }
}
