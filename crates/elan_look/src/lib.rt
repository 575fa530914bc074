//! A look ahead: where a variable of a pattern may have its next value, if the pattern is to be a term.
#![tactic(auto)]

mod ahead;
mod aim;
mod count;
mod low;
mod plan;
mod share;
mod sight;
mod sorts;
mod take;
mod walk;

pub use ahead::look;
pub use aim::Aim;
pub use low::Low;
pub use sight::Sight;

/// Memory ran out, as std says it.
pub type NoMemory = std::alloc::AllocError;
