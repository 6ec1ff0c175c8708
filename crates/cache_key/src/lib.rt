//! Keys: made of a driver and some content, and as texts of 40 hexadecimal digits, two for each byte.
#![tactic(auto)]

mod compute;
mod digits;
#[cfg(test)]
mod tests;

pub use compute::compute_key;
pub use digits::{key_of_text, key_text};
