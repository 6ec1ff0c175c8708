//! Plays calls of the program that are written as rows of text: over files in memory, what lies there before, what
//! fails and who goes on after a stop; and over real files in a folder of the case's own. `cases FILE..` prints each
//! row that doesn't hold, with what was wanted and what came, and the number of cases of each file.
//!
//! A case has no files, no variables, and process 0 calls. Words, `let`, `case`, `until` and `from` are
//! [`row_text`]'s, and so are BYTES and the NAMEs of files. The rows:
//!
//! | Row | What it says |
//! |---|---|
//! | `variable NAME is VALUE` | a variable of all calls of the case |
//! | `run WORDS [reads BYTES] ends STATUS [saying TEXT] [prints BYTES]` | a call of the program, its input, exit status, line on standard error and output; without `prints` the output is empty |
//! | `.. reads endless zeros`, `.. reads failing zeros N` | an input that never ends, or fails in place of its end |
//! | `root of WORDS is PATH [list PATH]`, `.. is none`, `.. ends STATUS` | what real files the words need |
//! | `file NAME holds BYTES` | another process wrote this new file |
//! | `then NAME holds BYTES`, `.. has N bytes`, `.. is absent` | what lies there now |
//! | `process N holds NAME`, `process N lets go` | another process has the lock of a file; one at most |
//! | `process N goes on` | from here on that process calls |
//! | `lock held for N tries` | the first tries of a lock in the next `run` find it held |
//! | `fail call N [after N bytes] [for memory]` | a file call of the next `run` fails: its number, from 0 on |
//! | `fail each of N calls [after N bytes] [for memory]` | the case is played once for each, and once more to see that there is no other |
//! | `fail read N`, `fail write N`, `slow output` | what the input and the output of the next `run` do |
//! | `stop after N items`, `stop after each item` | the last `run` stops there and the next process goes on; with `each` the case is played once for each place |
//! | `made N KIND [answered REPLY]` | so many own log items of the last `run` |
//! | `asked Put`, `asked Get`, `asked nothing`, `asked limit N`, `asked sources N`, `asked key KEY`, `asked driver ID GPU FLAGS` | what the last `run` asked the store |
//! | `evicted KEY of ID GPU FLAGS` | what the last `run` told of an entry that goes |
//! | `real NAME` | from here on the files are real, and lie in the folder `case-NAME`, emptied before and after |
//! | `lies PATH holds BYTES`, `.. is folder`, `.. is locked`, `.. is free`, `.. is gone` | makes that so, below the case's folder |
//! | `then lies PATH holds BYTES`, `.. has N bytes`, `.. is folder`, `.. is absent` | what lies there now |
#![tactic(auto)]

mod folder;
mod kind;
mod looks;
mod places;
mod request;
mod row_files;
mod seat;
mod setting;
mod sink;
mod stage;
mod wanted;
mod zeros;

use crate::stage::CaseStage;
use row_text::play_files;
use std::process::ExitCode;

fn main(rt: HostRuntime) -> ExitCode {
    play_files::<CaseStage>(&rt)
}
