//! What crosses crates: a lookup, and a put and a lookup, by the top call over files in memory, whose contracts
//! are their outcomes.
#![tactic(auto)]

mod premises;
mod round_trip;

pub use premises::abc_is_found;
pub use round_trip::abc_is_put_and_found;

#[cfg(test)]
mod met;
