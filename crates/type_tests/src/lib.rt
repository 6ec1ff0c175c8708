//! Tests of values that are copied into memory of their own. What the values are is said by the rows of `tables`.
#![tactic(auto)]

#[cfg(test)]
mod options;
#[cfg(test)]
mod values;
