//! Programs: signatures, rules, strategies, extension rules, built-in operations, and which programs are valid.
#![tactic(auto)]

mod copies;
mod extending;
mod patterns;
mod program;
mod shapes;
mod signature;
mod sound;
mod spelling;
mod strategy;
mod valid;

pub use copies::{copy_clause, copy_rule, copy_strategy};
pub use extending::extension;
pub use patterns::{pattern_sort, uses};
pub use program::{Clause, Named, Parts, Program, Rule};
pub use signature::{Assoc, Builtin, Operator, Piece, Signature, Truth};
pub use sound::{ac_fits, are_sound_operators, are_spelled, holes, int_fits, led_on, truth_fits};
pub use spelling::{is_name, is_spelled};
pub use strategy::{Scope, Strategy, StrategyNode};
