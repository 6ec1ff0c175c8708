use cache_types::Who;
use file_log::{Call, LogItem, Reply};

/// What an item is called in rows: its call for one that was answered, and else its own name.
pub fn kind_of(item: &LogItem) -> &'static str {
    match item {
        LogItem::Begin { .. } => "Begin",
        LogItem::Byte { .. } => "Byte",
        LogItem::Failed { .. } => "Failed",
        LogItem::Evict { .. } => "Evict",
        LogItem::End { .. } => "End",
        LogItem::Stop { .. } => "Stop",
        LogItem::Did { call, .. } => kind_of_call(call),
        _ => "other",
    }
}

fn kind_of_call(call: &Call) -> &'static str {
    match call {
        Call::OpenOld { .. } => "OpenOld",
        Call::OpenNew { .. } => "OpenNew",
        Call::TryLock { .. } => "TryLock",
        Call::Length { .. } => "Length",
        Call::ReadAt { .. } => "ReadAt",
        Call::WriteAt { .. } => "WriteAt",
        Call::Cut { .. } => "Cut",
        Call::Rename { .. } => "Rename",
        Call::Remove { .. } => "Remove",
        Call::ListFolder { .. } => "ListFolder",
        Call::Now => "Now",
        Call::Pause => "Pause",
        Call::Close { .. } => "Close",
        Call::Tell(_) => "Tell",
    }
}

/// All that an item can be called.
const KINDS: [&str; 18] = [
    "Begin",
    "Byte",
    "Failed",
    "Evict",
    "End",
    "OpenOld",
    "OpenNew",
    "TryLock",
    "Length",
    "ReadAt",
    "WriteAt",
    "Cut",
    "Rename",
    "Remove",
    "ListFolder",
    "Now",
    "Pause",
    "Close",
];

/// Whether items can be called so.
pub fn is_kind(text: &str) -> bool {
    KINDS.iter().any(|kind| *kind == text)
}

/// Whether rows can ask for such a reply.
pub fn is_reply(text: &str) -> bool {
    ["Done", "Held", "Missing"]
        .iter()
        .any(|reply| *reply == text)
}

/// Whether an item is a call that was answered so.
pub fn has_reply(item: &LogItem, text: &str) -> bool {
    match item {
        LogItem::Did { reply, .. } => reply_text(reply) == text,
        _ => false,
    }
}

fn reply_text(reply: &Reply) -> &'static str {
    match reply {
        Reply::Held => "Held",
        Reply::Missing => "Missing",
        Reply::Done => "Done",
        _ => "other",
    }
}

/// Whether an item is this process's.
pub fn is_own(item: &LogItem, process: u32) -> bool {
    match who_of(item) {
        Some(who) => who.process == process,
        None => false,
    }
}

fn who_of(item: &LogItem) -> Option<Who> {
    match item {
        LogItem::Begin { who, .. } => Some(*who),
        LogItem::Did { who, .. } => Some(*who),
        LogItem::Byte { who, .. } => Some(*who),
        LogItem::Failed { who, .. } => Some(*who),
        LogItem::Evict { who, .. } => Some(*who),
        LogItem::End { who, .. } => Some(*who),
        _ => None,
    }
}
