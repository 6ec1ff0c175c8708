//! Items as bytes: a driver's keys blob, what is known of the blob's making, a checksum, a size and the
//! blob itself. They are read from left to right, and the first field that is wrong is named; what is
//! written reads back.
#![tactic(auto)]

mod any;
mod error;
mod fields;
mod item;
mod refusal;
mod writing;

pub use any::{Owned, driver_of, read_any};
pub use error::ItemError;
pub use item::{Item, check_item, read_blob, read_item, take_blob};
pub use refusal::ItemRefusal;
pub use writing::{item_around, item_len, known_meta, write_item};
