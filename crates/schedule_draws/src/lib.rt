//! Schedules drawn from a number: the same seed gives the same schedule, on every machine.
//!
//! [`Draws`] is a linear congruential generator. [`schedule`] draws the turns of three processes with two seats
//! each on two folder stores.
#![tactic(auto)]

mod drawing;
mod draws;
mod requests;

pub use drawing::schedule;
pub use draws::Draws;
