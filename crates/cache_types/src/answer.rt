ghost use Rattle.std.specs.Prelude.{◌≡◌, IfOk, IsOk};
ghost use Rattle.cache_types.specs.Answers.{IsSmall};

use crate::bytes::Bytes;
use crate::key_list::KeyList;
use crate::memory::NoMemory;
use crate::row_list::RowList;
use std::alloc::Global;

/// What an operation ends with.
#[derive(Debug)]
pub enum Answer {
    /// The blob that was looked up.
    Hit(Bytes),
    /// No asked store gave a blob.
    Miss,
    /// The blob was put.
    Stored,
    /// The store held the key for the driver already.
    Kept,
    /// The key is marked.
    Yes,
    /// The key isn't marked.
    No,
    /// The key was marked.
    Marked,
    /// The keys that are held.
    Keys(KeyList),
    /// What was found.
    Rows(RowList),
    /// So many entries were removed.
    Trimmed(u64),
    /// So many bytes are too many.
    TooLarge(u64),
    /// A file is no Foz database.
    Foreign,
    /// Another seat held a lock through all tries.
    Busy,
    /// A call of the files failed.
    FilesFault,
    /// Memory ran out.
    NoMemory,
}

impl Drop for Answer {
    fn drop(self) {
        match self {
            Answer::Hit(_hit) => {}
            Answer::Miss => {}
            Answer::Stored => {}
            Answer::Kept => {}
            Answer::Yes => {}
            Answer::No => {}
            Answer::Marked => {}
            Answer::Keys(_keys) => {}
            Answer::Rows(_rows) => {}
            Answer::Trimmed(_) => {}
            Answer::TooLarge(_) => {}
            Answer::Foreign => {}
            Answer::Busy => {}
            Answer::FilesFault => {}
            Answer::NoMemory => {}
        }
    }
}

impl Answer {
    /// The same in memory of its own. An answer that carries no list takes none, so its copy is never
    /// refused.
    pub fn copy(&self, alloc: Global) -> Result<Answer, NoMemory>
        ensures same { IfOk result (λ a. a ≡ self.now) }
        ensures small { IsSmall self.now → IsOk result }
    {
        match self {
            Answer::Hit(blob) => Ok(Answer::Hit(blob.copy()?)),
            Answer::Miss => Ok(Answer::Miss),
            Answer::Stored => Ok(Answer::Stored),
            Answer::Kept => Ok(Answer::Kept),
            Answer::Yes => Ok(Answer::Yes),
            Answer::No => Ok(Answer::No),
            Answer::Marked => Ok(Answer::Marked),
            Answer::Keys(keys) => Ok(Answer::Keys(keys.copy()?)),
            Answer::Rows(rows) => Ok(Answer::Rows(rows.copy(alloc)?)),
            Answer::Trimmed(n) => Ok(Answer::Trimmed(*n)),
            Answer::TooLarge(n) => Ok(Answer::TooLarge(*n)),
            Answer::Foreign => Ok(Answer::Foreign),
            Answer::Busy => Ok(Answer::Busy),
            Answer::FilesFault => Ok(Answer::FilesFault),
            Answer::NoMemory => Ok(Answer::NoMemory),
        }
    }
}
