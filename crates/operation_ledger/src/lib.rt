//! What the rules ask of a log's past, carried along it by code: the names that files have had, and the
//! operations that seats are in. It tells of each item whether what it says was earned.
#![tactic(auto)]

mod earned;
mod entry;
mod given;
mod locks;
mod name_list;
mod names_had;
mod operation;
mod operations;
mod tables;
mod tries;

pub use names_had::NamesHad;
pub use operations::Operations;
