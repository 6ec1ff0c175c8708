//! A test of the names that files have had in a log, which no log alone can show.
#![tactic(auto)]

#[cfg(test)]
mod names;
