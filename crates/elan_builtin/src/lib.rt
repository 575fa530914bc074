//! The values of the built-in operations, from what their arguments are.
#![tactic(auto)]

mod operand;
mod reducing;

pub use operand::{Operand, Reduced};
pub use reducing::reduce;
