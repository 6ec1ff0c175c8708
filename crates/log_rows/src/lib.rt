//! Logs as rows speak of them: places in a log, how many items there are of a kind, and a log that is spoilt.
#![tactic(auto)]

mod change;
mod count;
mod place;
mod spoiling;
mod what;

pub use change::{add_copies, copy_of};
pub use count::{Least, check_item, check_length};
pub use place::place_of;
pub use spoiling::spoil;
pub use what::{What, count_in, what_of};
