//! Tests of worlds, of files over a world to which read-only databases were brought, and of streams that fail where they are told to.
#![tactic(auto)]

#[cfg(test)]
mod memory;
#[cfg(test)]
mod worlds;
