//! The store of one file an entry: a key's file lies under its name, and holds one item.
#![tactic(auto)]

mod get;
mod lookup;
mod put;
mod put_phase;
mod put_replies;
mod putting;

pub use get::{EntryFile, FolderGet, ForDriver, new_lookup};
pub use lookup::folder_get;
pub use put::FolderPut;
pub use put_phase::LOCK_TRIES;
pub use putting::folder_put;
