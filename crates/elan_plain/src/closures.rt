//! Strategies with the actuals in which their parameters are read.

ghost use Rattle.std.specs.Prelude.{◌≡◌, ℕ, None, Some, IfNone, IfSome, slice_get};
ghost use Rattle.elan_program.specs.declared.strategy.StrategyNode.TheVariants.{Param};
ghost use Rattle.elan_program.specs.Strategies.{made};
ghost use Rattle.elan_plain.specs.Closures.{closed, meant};

use elan_program::{Strategy, StrategyNode};

/// What stands for the parameters of a body. A call makes it. It names the actuals in which its own
/// strategies are read, so that neither a body nor an actual is copied.
#[derive(Clone, Copy)]
pub enum Actuals<'a> {
    /// Outside of bodies, where there are no parameters.
    Absent,
    /// These strategies, one for each parameter.
    Given {
        strategies: &'a [Strategy],
        read_in: &'a Actuals<'a>,
    },
}

/// A strategy with the actuals in which its parameters are read.
#[derive(Clone, Copy)]
pub struct Closure<'a> {
    pub strategy: &'a Strategy,
    pub actuals: &'a Actuals<'a>,
}

pub(crate) fn within<'a>(actuals: &'a Actuals<'a>, strategy: &'a Strategy) -> Closure<'a>
    ensures means { meant result ≡ closed actuals.now strategy.now }
    ensures strategy { result.strategy.now ≡ strategy.now }
{
    Closure { strategy, actuals }
}

fn actual<'a>(strategies: &'a [Strategy], number: u32) -> Option<&'a Strategy>
    ensures found { IfSome result (λ s. slice_get strategies.now number ≡ Some s.now) }
    ensures absent { IfNone result (slice_get strategies.now number ≡ None) }
{
    strategies.get(number as usize)
}

/// The closure of a parameter's actual, or of that one's actual, until there is none.
#[cycle(resolved)]
#[tactic(auto, using(crate::proofs::Closing::resolving))]
pub(crate) fn resolved<'a>(strategy: &'a Strategy, actuals: &'a Actuals<'a>) -> Closure<'a>
    ensures same { meant result ≡ closed actuals.now strategy.now }
    ensures absent { (number : ℕ) → result.strategy.now.node ≡ Param number
        → meant result ≡ made (Param number) }
{
    match &strategy.node {
        StrategyNode::Param(number) => match actuals {
            Actuals::Absent => within(actuals, strategy),
            Actuals::Given {
                strategies,
                read_in,
            } => match actual(strategies, *number) {
                None => within(actuals, strategy),
                Some(given) => resolved(given, read_in),
            },
        },
        _ => within(actuals, strategy),
    }
}
