//! What seats ask of files, what they are told, and the log of all of it. The definitions of `specs/`
//! say what a log means: the disk after it, which logs can be, and what a seat may ask at a place.
#![tactic(auto)]

mod call;
mod item;
mod known;
mod note;
mod reply;
mod ticket;

pub use call::Call;
pub use item::LogItem;
pub use known::request_known;
pub use note::Note;
pub use reply::Reply;
pub use ticket::Ticket;
