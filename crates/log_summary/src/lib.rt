//! What the rules among seats ask of a log's past, carried along the log as one value, and that this value
//! tells just what the log says. No code calls this law.
#![tactic(auto)]

ghost use Rattle.log_summary.specs.Telling.{SummariesTell};

/// The summary of each log that begins on an empty disk tells the log: the files that names have had, the
/// puts that began, the operations and Evicts that are open, and whether all was calm.
pub fn summaries_tell()
    ensures { SummariesTell }
{}
