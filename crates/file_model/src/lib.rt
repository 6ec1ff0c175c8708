//! A world: files in memory, all that was done to them, and a clock. What was done is kept as a log of
//! items, and the files are what that log leaves of the files that were there at first.
#![tactic(auto)]

mod jobs;
mod legal;
mod operations;
mod queues;
mod replay;
mod seen;
mod step;
mod world;

pub use legal::first_illegal;
pub use replay::disk_of;
pub use seen::Seen;
pub use step::{Fate, Progress};
pub use world::World;
