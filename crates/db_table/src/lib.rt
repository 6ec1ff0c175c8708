//! What the two files of a database hold, and what a seat remembers of the rows of an index.
#![tactic(auto)]

mod table;
mod usable;

pub use table::Table;
pub use usable::{agreed_head, entries_end, row_count};
