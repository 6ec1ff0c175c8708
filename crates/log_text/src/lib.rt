//! Logs as words: calls, replies, notes, requests, answers and items are read from the words of a row, and told in
//! the same words.
//!
//! An item reads as its seat, its kind, and what it says: `1.0 OpenNew 0 FolderLock a9 answered Done`,
//! `1.0 Byte 3 at 28 is 63`, `1.0 End Hit "abc"`, `Stop 1`. What isn't said is the usual: root 0, the layout of
//! folders, the driver `d` for the GPU `g`, a limit of 1,000 bytes.
#![tactic(auto)]

mod answer;
mod bytes;
mod call;
mod driver;
mod item;
mod kind;
mod lists;
mod note;
mod reply;
mod request;
mod seat;
mod store;
mod words;

pub use answer::{answer_of, answer_text};
pub use bytes::blob_of;
pub use call::{call_of, call_text};
pub use item::{item_of, text_of};
pub use kind::{Kind, kind_of, kind_of_call, seat_of};
pub use reply::{reply_of, reply_text};
pub use request::{request_of, request_text};
pub use seat::{process_of, who_of};
