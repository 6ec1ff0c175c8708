//! The values that every layer of the cache speaks of: keys, drivers, stores, seats, names of files,
//! requests and answers. Contracts see each of them as a plain value: a list of bytes, a list of keys,
//! a driver's id, GPU name and flags.
#![tactic(auto)]

mod answer;
mod bytes;
mod driver;
mod front;
mod key;
mod key_list;
mod limits;
mod memory;
mod meta;
mod name;
mod request;
mod row;
mod row_list;
mod seat;
mod store;
mod text;
mod text_list;

pub use answer::Answer;
pub use bytes::Bytes;
pub use driver::{Driver, DriverError, blob_len, driver_blob, is_driver_text};
pub use front::front_len;
pub use key::{BadKey, Key};
pub use key_list::KeyList;
pub use limits::{KEY_LEN, MAX_BLOB, MAX_DRIVER_TEXT, MAX_ITEM, MAX_KEYS};
pub use memory::NoMemory;
pub use meta::Meta;
pub use name::Name;
pub use request::{Request, RoPlan};
pub use row::Row;
pub use row_list::RowList;
pub use seat::Who;
pub use store::{Layout, Store};
pub use text::Text;
pub use text_list::TextList;
