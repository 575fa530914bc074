//! The board: a search tree behind a lock, two progress words, and the seats of those who commit.
#![tactic(auto)]

pub mod board;
pub mod seat;
mod sitting;
mod stand;
mod watch;
pub mod words;
