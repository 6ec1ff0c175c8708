//! Schedules played on one world: seats do requests in turns, one item of the log a step, while calls fail
//! and processes are stopped where the schedule says so. [`play`] gives the world that a schedule comes to.
//! A [`Stage`] plays turn by turn, between which a seat of the caller's own may call.
#![tactic(auto)]

mod built;
mod failing;
mod jobs;
mod offer;
mod operation;
mod outsider;
mod playing;
mod seats;
mod stage;
mod step;
mod turn;

pub use playing::play;
pub use stage::Stage;
pub use turn::Turn;
