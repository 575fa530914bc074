//! Texts of modules by their names: from memory, from the files of a folder, or from a list of such loaders.
#![tactic(auto)]

mod ask;
mod folder;
mod loader;
mod memory;

pub use ask::ask_all;
pub use folder::FolderLoader;
pub use loader::{Fetched, Loader};
pub use memory::MemoryLoader;
