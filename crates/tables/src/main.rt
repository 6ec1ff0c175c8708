//! Tables of single functions: each row says what a function is given, and what it must give. Every row stands by
//! itself; [`TableStage`] says by which words a row begins. `tables FILE..` plays the rows of these files.
#![tactic(auto)]

mod damage;
mod databases;
mod drivers;
mod expect;
mod indexes;
mod items;
mod keys;
mod names;
mod remembered;
mod reports;
mod sums;
mod table;
mod texts;
mod variables;
mod words;

use crate::table::TableStage;
use row_text::play_files;
use std::process::ExitCode;

fn main(rt: HostRuntime) -> ExitCode {
    play_files::<TableStage>(&rt)
}
