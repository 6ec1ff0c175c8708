//! What the program says: the status that each call ends with and its text, and the bytes that each
//! answer prints. An answer that is a blob or one word needs no text made for it: [`status_of`] and
//! [`word_of`] take no memory, and a blob is written from its own bytes.
#![tactic(auto)]

mod fault;
mod lines;
mod outcome;
mod printed;
mod settings_lines;
mod status;

pub use fault::fault_text;
pub use outcome::status_of;
pub use printed::{answer_text, key_line, word_of};
pub use settings_lines::settings_text;
pub use status::Status;
