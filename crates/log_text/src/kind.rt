use cache_types::Who;
use file_log::{Call, LogItem};

/// What an item of a log tells, and for a call which one.
#[derive(Clone, Copy, PartialEq, Eq)]
pub enum Kind {
    Queued,
    Taken,
    Begin,
    OpenOld,
    OpenNew,
    TryLock,
    Length,
    ReadAt,
    WriteAt,
    Cut,
    Rename,
    Remove,
    ListFolder,
    Now,
    Pause,
    Close,
    Tell,
    Byte,
    Failed,
    Evict,
    End,
    Stop,
    Install,
    SetList,
}

/// All kinds.
const ALL: [Kind; 24] = [
    Kind::Queued,
    Kind::Taken,
    Kind::Begin,
    Kind::OpenOld,
    Kind::OpenNew,
    Kind::TryLock,
    Kind::Length,
    Kind::ReadAt,
    Kind::WriteAt,
    Kind::Cut,
    Kind::Rename,
    Kind::Remove,
    Kind::ListFolder,
    Kind::Now,
    Kind::Pause,
    Kind::Close,
    Kind::Tell,
    Kind::Byte,
    Kind::Failed,
    Kind::Evict,
    Kind::End,
    Kind::Stop,
    Kind::Install,
    Kind::SetList,
];

impl Kind {
    /// The kind that a word says.
    pub fn of_word(word: &str) -> Option<Kind> {
        ALL.iter().copied().find(|kind| kind.word() == word)
    }

    /// The word that says it.
    pub fn word(self) -> &'static str {
        match self {
            Kind::Queued => "Queued",
            Kind::Taken => "Taken",
            Kind::Begin => "Begin",
            Kind::OpenOld => "OpenOld",
            Kind::OpenNew => "OpenNew",
            Kind::TryLock => "TryLock",
            Kind::Length => "Length",
            Kind::ReadAt => "ReadAt",
            Kind::WriteAt => "WriteAt",
            Kind::Cut => "Cut",
            Kind::Rename => "Rename",
            Kind::Remove => "Remove",
            Kind::ListFolder => "ListFolder",
            Kind::Now => "Now",
            Kind::Pause => "Pause",
            Kind::Close => "Close",
            Kind::Tell => "Tell",
            Kind::Byte => "Byte",
            Kind::Failed => "Failed",
            Kind::Evict => "Evict",
            Kind::End => "End",
            Kind::Stop => "Stop",
            Kind::Install => "Install",
            Kind::SetList => "SetList",
        }
    }
}

/// The kind of an item.
pub fn kind_of(item: &LogItem) -> Kind {
    match item {
        LogItem::Queued { .. } => Kind::Queued,
        LogItem::Taken { .. } => Kind::Taken,
        LogItem::Begin { .. } => Kind::Begin,
        LogItem::Did { call, .. } => kind_of_call(call),
        LogItem::Byte { .. } => Kind::Byte,
        LogItem::Failed { .. } => Kind::Failed,
        LogItem::Evict { .. } => Kind::Evict,
        LogItem::End { .. } => Kind::End,
        LogItem::Stop { .. } => Kind::Stop,
        LogItem::Install { .. } => Kind::Install,
        LogItem::SetList { .. } => Kind::SetList,
    }
}

/// The kind of the item that a call makes.
pub fn kind_of_call(call: &Call) -> Kind {
    match call {
        Call::OpenOld { .. } => Kind::OpenOld,
        Call::OpenNew { .. } => Kind::OpenNew,
        Call::TryLock { .. } => Kind::TryLock,
        Call::Length { .. } => Kind::Length,
        Call::ReadAt { .. } => Kind::ReadAt,
        Call::WriteAt { .. } => Kind::WriteAt,
        Call::Cut { .. } => Kind::Cut,
        Call::Rename { .. } => Kind::Rename,
        Call::Remove { .. } => Kind::Remove,
        Call::ListFolder { .. } => Kind::ListFolder,
        Call::Now => Kind::Now,
        Call::Pause => Kind::Pause,
        Call::Close { .. } => Kind::Close,
        Call::Tell(_) => Kind::Tell,
    }
}

/// The seat whose item it is, if it is one's.
pub fn seat_of(item: &LogItem) -> Option<Who> {
    match item {
        LogItem::Taken { who, .. } => Some(*who),
        LogItem::Begin { who, .. } => Some(*who),
        LogItem::Did { who, .. } => Some(*who),
        LogItem::Byte { who, .. } => Some(*who),
        LogItem::Failed { who, .. } => Some(*who),
        LogItem::Evict { who, .. } => Some(*who),
        LogItem::End { who, .. } => Some(*who),
        _ => None,
    }
}
