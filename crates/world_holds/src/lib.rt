//! Which blob a store holds on the disk of a world.
#![tactic(auto)]

mod folder;

pub use folder::folder_gives;
