ghost use Rattle.std.specs.Prelude.{◌≡◌, ◌++◌, IfOk, decimal};
ghost use Rattle.report_text.specs.Statuses.{text_of};

use crate::status::Status;
use cache_types::{NoMemory, Text};
use std::alloc::Global;

/// A text and a number behind it.
fn numbered(alloc: Global, text: &str, number: u64) -> Result<Text, NoMemory>
    ensures { IfOk result (λ line. line ≡ text.now ++ decimal number) }
{
    let line = format!(in alloc; "{text}{number}")?;
    Ok(Text::from_string(line))
}

/// What is said of an operation that isn't in a history as it was answered.
fn other_history(alloc: Global, thread: u64, at: u64) -> Result<Text, NoMemory>
    ensures { IfOk result (λ line. line ≡ text_of (Status.OtherHistory thread at)) }
{
    let line = format!(in alloc; "other history: thread {thread} at {at}")?;
    Ok(Text::from_string(line))
}

/// What the program says of a status on standard error, with no newline. Nothing for `Ok`.
pub fn fault_text(alloc: Global, status: &Status) -> Result<Text, NoMemory>
    ensures { IfOk result (λ text. text ≡ text_of status.now) }
{
    match status {
        Status::Ok => Text::of(alloc, ""),
        Status::Miss => Text::of(alloc, "miss"),
        Status::Usage => Text::of(
            alloc,
            "usage: key, put, get, mark, has, list, verify, trim, settings, batch or drill",
        ),
        Status::BadKey => Text::of(alloc, "bad key"),
        Status::Busy => Text::of(alloc, "busy"),
        Status::ReadFault => Text::of(alloc, "read fault"),
        Status::WriteFault => Text::of(alloc, "write fault"),
        Status::FilesFault => Text::of(alloc, "files fault"),
        Status::TooLarge(n) => numbered(alloc, "too large: ", *n),
        Status::Off => Text::of(alloc, "cache is off"),
        Status::NoMemory => Text::of(alloc, "no memory"),
        Status::Damaged => Text::of(alloc, "damaged"),
        Status::NoRoot => Text::of(alloc, "no cache folder"),
        Status::Foreign => Text::of(alloc, "not a Foz database"),
        Status::TooManyReadOnly(n) => numbered(alloc, "too many read-only databases: ", *n),
        Status::BrokenLog(at) => numbered(alloc, "broken log at ", *at),
        Status::BadLine(line) => numbered(alloc, "bad line ", *line),
        Status::NotBuilt => Text::of(alloc, "layout not built"),
        Status::OtherHistory(thread, at) => other_history(alloc, *thread, *at),
    }
}
