//! Files that a seat calls, the streams beside them, and machines that are driven over files.
//!
//! [`Files`] is all that the cache sees of a disk: one seat makes [`Call`](file_log::Call)s and gets
//! replies. A [`Machine`] says call by call what an operation does; [`operate`] tells its Begin, makes its
//! calls, and tells its End. [`Source`] and [`Sink`] are where a blob comes from and where it goes.
#![tactic(auto)]

mod files;
mod machine;
mod operation;
mod sink;
mod source;
mod took;

pub use files::Files;
pub use machine::{Machine, Step};
pub use operation::{drive, operate};
pub use sink::Sink;
pub use source::Source;
pub use took::Took;
