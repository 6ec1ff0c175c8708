//! Real files, standard input and standard output, as the cache sees them.
#![tactic(auto)]

mod fault;
mod first_fault;
mod host_files;
mod host_sink;
mod host_source;
mod opened;
mod opening;
mod reason;
mod seat;
mod system;

pub use first_fault::FirstFault;
pub use host_files::HostFiles;
pub use host_sink::HostSink;
pub use host_source::HostSource;
pub use reason::Reason;
