ghost use Rattle.std.specs.Prelude.{◌≡◌, IfOk};
ghost use Rattle.file_log.specs.Fits.{CallFits};

use crate::known::name_known;
use crate::note::Note;
use cache_types::{Bytes, Name, NoMemory};
use std::alloc::Global;

/// What a seat asks of the files. A slot is one of eight, 0 to 7, and stands for an open file; places
/// and lengths are in bytes.
#[derive(Debug, Drop)]
pub enum Call {
    /// The slot stands for the file that the name has. `Missing` where the name has none.
    OpenOld { slot: u8, name: Name },
    /// The same; a name without a file gets a new empty one.
    OpenNew { slot: u8, name: Name },
    /// The seat gets the file's lock. `Held` where another seat has it.
    TryLock { slot: u8 },
    /// The file's length.
    Length { slot: u8 },
    /// The bytes from a place on, so many or up to the file's end.
    ReadAt { slot: u8, at: u64, n: u64 },
    /// Writes bytes from a place on, one after another. A gap before them becomes zero bytes.
    WriteAt { slot: u8, at: u64, bytes: Bytes },
    /// A longer file is cut to so many bytes; another stays.
    Cut { slot: u8, n: u64 },
    /// The file of one name gets the other name in its place. No fault where it has none.
    Rename { from: Name, to: Name },
    /// The name has no file any more.
    Remove { name: Name },
    /// The keys of all entries in the folder of this byte, ascending.
    ListFolder { root: u32, byte: u8 },
    /// The clock's number.
    Now,
    /// Waits a little, for a lock that is held.
    Pause,
    /// Empties the slot, and frees the lock that was taken through it.
    Close { slot: u8 },
    /// Tells a note to the log.
    Tell(Note),
}

impl Call {
    /// What is known of every call: the names that it speaks of are names.
    pub fn known(&self)
        ensures { CallFits self.now }
    {
        match self {
            Call::OpenOld { slot: _, name } => name_known(name),
            Call::OpenNew { slot: _, name } => name_known(name),
            Call::Rename { from, to } => {
                name_known(from);
                name_known(to);
            }
            Call::Remove { name } => name_known(name),
            _ => {}
        }
    }

    /// The same in memory of its own.
    pub fn copy(&self, alloc: Global) -> Result<Call, NoMemory>
        ensures { IfOk result (λ c. c ≡ self.now) }
    {
        match self {
            Call::OpenOld { slot, name } => Ok(Call::OpenOld {
                slot: *slot,
                name: name.copy()?,
            }),
            Call::OpenNew { slot, name } => Ok(Call::OpenNew {
                slot: *slot,
                name: name.copy()?,
            }),
            Call::TryLock { slot } => Ok(Call::TryLock { slot: *slot }),
            Call::Length { slot } => Ok(Call::Length { slot: *slot }),
            Call::ReadAt { slot, at, n } => Ok(Call::ReadAt {
                slot: *slot,
                at: *at,
                n: *n,
            }),
            Call::WriteAt { slot, at, bytes } => Ok(Call::WriteAt {
                slot: *slot,
                at: *at,
                bytes: bytes.copy()?,
            }),
            Call::Cut { slot, n } => Ok(Call::Cut { slot: *slot, n: *n }),
            Call::Rename { from, to } => {
                let from = from.copy()?;
                let to = to.copy()?;
                Ok(Call::Rename { from, to })
            }
            Call::Remove { name } => Ok(Call::Remove { name: name.copy()? }),
            Call::ListFolder { root, byte } => Ok(Call::ListFolder {
                root: *root,
                byte: *byte,
            }),
            Call::Now => Ok(Call::Now),
            Call::Pause => Ok(Call::Pause),
            Call::Close { slot } => Ok(Call::Close { slot: *slot }),
            Call::Tell(note) => Ok(Call::Tell(note.copy(alloc)?)),
        }
    }
}
