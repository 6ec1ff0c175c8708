//! Files and streams in memory, which fail where a test wants them to.
#![tactic(auto)]

mod acts;
mod allowed;
mod failing;
mod files;
mod lone;
mod plan;
mod sink;
mod source;
mod stopped;

pub use files::MemFiles;
pub use lone::LoneFiles;
pub use plan::Fault;
pub use sink::MemSink;
pub use source::MemSource;
