//! All operations: [`run_op`] does any request over any files.
#![tactic(auto)]

mod get;
mod large;
mod operation;
mod put;
mod state;

pub use operation::run_op;
pub use state::SeatState;
