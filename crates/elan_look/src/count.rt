//! How many patterns of each kind stand under an operator.
ghost use Rattle.std.specs.Prelude.{◌≡◌, ◌↔◌, ◌+◌, IfOk, IsTrue};
ghost use Rattle.elan_look.specs.Nodes.{loose, loose_of, counted, none_counted, places_of, MayServe};

use crate::NoMemory;
use crate::sight::Sight;
use elan_shares::Places;
use elan_table::Name;
use elan_terms::{OpId, Pattern, PatternNode};
use std::alloc::AllocError;

/// How many of the patterns are the sought variable, another variable, and no variable. Those whose
/// values are all known are not counted.
#[derive(Drop)]
pub(crate) struct Counts {
    pub sought: usize,
    pub free: usize,
    pub others: usize,
}

fn next(count: usize) -> Result<usize, NoMemory>
    ensures { IfOk result (λ more. more ≡ count + 1) }
{
    match count.checked_add(1) {
        None => Err(AllocError),
        Some(more) => Ok(more),
    }
}

impl Counts {
    pub(crate) fn none() -> Counts
        ensures { result ≡ none_counted }
    {
        Counts {
            sought: 0,
            free: 0,
            others: 0,
        }
    }

    fn with_sought(self) -> Result<Counts, NoMemory>
        ensures { IfOk result (λ more. more ≡ record self { sought = self.sought + 1 }) }
    {
        let more = next(self.sought)?;
        Ok(Counts {
            sought: more,
            free: self.free,
            others: self.others,
        })
    }

    fn with_free(self) -> Result<Counts, NoMemory>
        ensures { IfOk result (λ more. more ≡ record self { free = self.free + 1 }) }
    {
        let more = next(self.free)?;
        Ok(Counts {
            sought: self.sought,
            free: more,
            others: self.others,
        })
    }

    fn with_other(self) -> Result<Counts, NoMemory>
        ensures { IfOk result (λ more. more ≡ record self { others = self.others + 1 }) }
    {
        let more = next(self.others)?;
        Ok(Counts {
            sought: self.sought,
            free: self.free,
            others: more,
        })
    }

    /// The patterns that were counted, as places.
    pub(crate) fn places(&self) -> Places
        ensures { result ≡ places_of self.now }
    {
        Places {
            sought: self.sought,
            free: self.free,
            others: self.others,
        }
    }

    /// Whether so many arguments may serve the patterns: each takes at least one, and one alone that
    /// is no variable.
    pub(crate) fn may_be_served(&self, many: usize) -> bool
        ensures { IsTrue result ↔ MayServe self.now many }
    {
        match many.checked_sub(self.others) {
            None => false,
            Some(rest) => {
                if self.sought == 0 && self.free == 0 {
                    rest == 0
                } else {
                    match rest.checked_sub(self.free) {
                        None => false,
                        Some(left) => self.sought <= left,
                    }
                }
            }
        }
    }
}

#[cycle(count)]
#[tactic(auto, using(elan_terms::proofs::WeightLemmas::falls))]
fn count_one<N: Name>(
    sight: &Sight<N>,
    op: OpId,
    pattern: &Pattern,
    counts: Counts,
) -> Result<Counts, NoMemory>
    ensures { IfOk result (λ more. more ≡ counted sight.now (loose_of sight.now op pattern.now) counts) }
{
    match &pattern.node {
        PatternNode::Var(number, _) => {
            if sight.is_given(pattern) {
                Ok(counts)
            } else if sight.is_sought(*number) {
                counts.with_sought()
            } else {
                counts.with_free()
            }
        }
        PatternNode::Int(_) => Ok(counts),
        PatternNode::App(f, args) => {
            if op.0 == f.0 {
                count_all(sight, op, args.as_slice(), counts)
            } else if sight.is_given(pattern) {
                Ok(counts)
            } else {
                counts.with_other()
            }
        }
    }
}

/// The counts with those of the patterns, where patterns that the operator heads give way to their
/// own.
#[cycle(count)]
#[tactic(auto, using(elan_terms::proofs::WeightLemmas::falls))]
pub(crate) fn count_all<N: Name>(
    sight: &Sight<N>,
    op: OpId,
    patterns: &[Pattern],
    counts: Counts,
) -> Result<Counts, NoMemory>
    ensures { IfOk result (λ more. more ≡ counted sight.now (loose sight.now op patterns.now) counts) }
{
    match patterns {
        [] => Ok(counts),
        [first, rest @ ..] => {
            let more = count_one(sight, op, first, counts)?;
            count_all(sight, op, rest, more)
        }
    }
}
