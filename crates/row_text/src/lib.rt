//! Tests that are written as rows of text: files of cases, each of which is a title and rows that are played one
//! after the other. A program of tests says by [`Stage`] what its rows do, and [`play_files`] is its `main`.
//!
//! A line is a row, a comment (`#`), or blank. `case TITLE` begins a case, and `let NAME be WORDS` gives a name to
//! words, for which it stands as a whole word in the lines below. Words stand between blanks; what is in `"..."`
//! is one word. A case is played once, or in rounds where one of its rows asks for them; `until N` and `from N`
//! before a row say in which rounds it is played.
#![tactic(auto)]

mod book;
mod compare;
mod names;
mod play;
mod player;
mod sentence;
mod stage;
mod word;
mod wrong;

pub use compare::{equal, same, shown};
pub use names::{key_of, name_of, root_of};
pub use player::play_files;
pub use sentence::Sentence;
pub use stage::{Round, Stage};
pub use word::Word;
pub use wrong::Wrong;
