//! The top calls of the program: [`run`] does all that a command asks for.
#![tactic(auto)]

mod admission;
mod driver;
mod key;
mod keys;
mod operation;
mod overrides;
mod plan;
mod printing;
mod reading;
mod request;
mod round_trip;
mod settings;
mod top;
mod words;

pub use plan::plan_of;
pub use round_trip::{RoundTrip, put_then_get};
pub use top::run;
