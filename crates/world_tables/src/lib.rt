//! What a world is made of: files in memory with their names, who has them open and locked, and the log
//! of what was done to them, in pieces.
#![tactic(auto)]

mod book;
mod file;
mod find;
mod legal;
mod listing;
mod locks;
mod names;
mod parts;
mod piece;
mod replies;
mod room;
mod tables;

pub use book::{Book, len_of_piece};
pub use find::file_in;
pub use locks::LockHolder;
pub use names::{FolderPlace, KeyPlace, Names};
pub use parts::{NamedFile, OpenSlot};
pub use piece::{Piece, Run};
pub use replies::bytes_in;
pub use room::{answer_in_room, install_in_room, list_in_room};
pub use tables::Tables;
