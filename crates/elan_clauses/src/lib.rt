//! Texts, strategies, rules and definitions of a program, checked one by one.
#![tactic(auto)]

mod bound;
mod bound_variables;
mod definitions;
mod reading;
mod refusing;
mod rules;
mod texts;
mod twice;

pub use bound::numbered_rule;
pub use bound_variables::BoundVariables;
pub use definitions::checked_definition;
pub use reading::{Read, Unread};
pub use refusing::{name_at, refused};
pub use rules::{checked_rule, strategy_in};
pub use texts::{Around, text_as};
pub use twice::{once_or, second_of};
