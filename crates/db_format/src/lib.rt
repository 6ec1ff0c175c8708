//! The two files of a database as bytes: heads, entries and rows of the index. Each reader gives the value exactly where the
//! bytes spell it, else the first thing that is wrong; each writer gives exactly the bytes, which read back. Nothing here
//! takes memory.
#![tactic(auto)]

mod entry;
mod head;
mod numbers;
mod refusal;
mod row;

pub use entry::{ENTRY_HEAD_LEN, EntryHead, read_entry, write_entry_head};
pub use head::{HEAD_LEN, Head, VERSION, read_head, write_head};
pub use refusal::DbRefusal;
pub use row::{IdxRow, ROW_LEN, key_hash, read_row, write_row};
