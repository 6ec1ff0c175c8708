//! What the words of a command line say: the command, its options and its positional words, and what these ask
//! for.
#![tactic(auto)]

mod command;
mod fit;
mod number;
mod option_list;
mod parsing;
mod reading;
mod row;
mod word;

pub use command::Command;
pub use number::number_of_text;
pub use option_list::{OptionList, OptionPair};
pub use reading::{WordsRefusal, read_words};
pub use word::Word;
