//! Plays tests of schedules and logs, which are written as rows of text: `plays FILE ..`.
//!
//! A case begins on an empty disk. Its rows give seats requests and let them step, let calls fail and processes stop
//! (`seat`, `step`, `fail`, `stop`, `offer`, `take`, `clock`, `install`, `list`), draw a schedule by its number
//! (`drawn`, `mixed`), let a seat of one's own act between the turns (`own`, `pass`), or tell items that nobody made
//! (`told`). Then they say what came of it: `ends SEAT ANSWER`, `verdict ..`, `has N ..`, `item PLACE is ITEM`,
//! `file NAME ..`, `gives ..`. `spoil ..` changes the log as it was played, `also ..` changes it further.
//!
//! Other cases make calls by hand (`files`, `call`, `fault`, `time`, `halt`, `made`), or feed a machine (`machine`,
//! `asks`, `done`).
#![tactic(auto)]

mod built;
mod counts;
mod crowd;
mod disk;
mod hand;
mod machine;
mod scene;
mod stage;
mod turns;
mod verdicts;

use crate::stage::Plays;
use row_text::play_files;
use std::process::ExitCode;

fn main(rt: HostRuntime) -> ExitCode {
    play_files::<Plays>(&rt)
}
