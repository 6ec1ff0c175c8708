//! Who holds which file: at most one holder a file.
#![tactic(auto)]

mod holders;
mod locks;
mod memory;
#[cfg(test)]
mod tests;

pub use holders::{Group, Holders};
pub use locks::Locks;
pub use memory::NoMemory;
