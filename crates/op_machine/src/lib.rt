//! The machine of any request that is served: [`Op`].
#![tactic(auto)]

mod given;
mod op;

pub use given::Given;
pub use op::Op;
