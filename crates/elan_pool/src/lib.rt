//! A pool: one deque of spots for each worker.
#![tactic(auto)]

mod closing;
pub mod deques;
mod dock;
pub mod ends;
mod lane;
mod lines;
mod making;
pub mod memory;
pub mod pool;
pub mod pool_name;
pub mod rule;
pub mod seat;
mod side;
mod sitting;
