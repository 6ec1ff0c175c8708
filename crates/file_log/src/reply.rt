ghost use Rattle.std.specs.Prelude.{◌≡◌, IfOk};

use cache_types::{Bytes, KeyList, NoMemory};

/// What a call is answered.
#[derive(Debug, Drop)]
pub enum Reply {
    /// It is done.
    Done,
    /// The name has no file.
    Missing,
    /// Another seat has the lock.
    Held,
    /// These bytes stand there.
    Got(Bytes),
    /// A length, or the clock's number.
    Number(u64),
    /// These entries stand there.
    Keys(KeyList),
    /// It failed. A write may have written some of its bytes.
    Failed,
    /// There was no memory for it. A write may have written some of its bytes.
    NoMemory,
}

impl Reply {
    /// The same in memory of its own.
    pub fn copy(&self) -> Result<Reply, NoMemory>
        ensures { IfOk result (λ r. r ≡ self.now) }
    {
        match self {
            Reply::Done => Ok(Reply::Done),
            Reply::Missing => Ok(Reply::Missing),
            Reply::Held => Ok(Reply::Held),
            Reply::Got(bytes) => Ok(Reply::Got(bytes.copy()?)),
            Reply::Number(n) => Ok(Reply::Number(*n)),
            Reply::Keys(keys) => Ok(Reply::Keys(keys.copy()?)),
            Reply::Failed => Ok(Reply::Failed),
            Reply::NoMemory => Ok(Reply::NoMemory),
        }
    }
}
