use cache_types::{Answer, Driver};

/// How often a put asks for its folder's lock before it gives up.
pub const LOCK_TRIES: u8 = 64;

/// Which of the two looks at the entry it is: the first, without the lock, ends a put that has nothing to do;
/// the second, under the lock, tells what will be replaced.
#[derive(Clone, Copy, Debug, PartialEq, Eq)]
pub(crate) enum Look {
    First,
    Second,
}

/// The files that are open besides the entry's.
#[derive(Clone, Copy, Debug, PartialEq, Eq)]
pub(crate) enum Besides {
    Nothing,
    Lock,
    LockAndTemp,
}

/// How far a put has come. From the temporary file on, `entry` says whether the entry's file is open.
#[derive(Debug, Drop)]
pub(crate) enum PutPhase {
    /// It asks for the entry's file.
    Opening(Look),
    /// It asks for the file's length.
    Measuring(Look),
    /// It asks for all bytes of the file, so many.
    Reading(Look, u64),
    /// It asks for the first bytes of a file that is too long for an item.
    ReadingFront,
    /// It closes the file after the first look.
    Leaving,
    /// It asks for the folder's lock file.
    OpeningLock,
    /// It asks for the lock; where another seat holds it, it asks so often again.
    Locking { again: u8 },
    /// It pauses before it asks for the lock, and then so often again.
    Pausing { again: u8 },
    /// It tells that the entry of this driver goes.
    Evicting(Driver),
    /// It has told that.
    Evicted,
    /// It asks for the temporary file.
    Making { entry: bool },
    /// It cuts what the temporary file may hold.
    Cutting { entry: bool },
    /// It writes the item.
    Writing { entry: bool },
    /// It gives the temporary file the entry's name.
    Renaming { entry: bool },
    /// It closes the entry's file, and then the files besides; this is its answer.
    ClosingEntry { answer: Answer, besides: Besides },
    /// It closes the temporary file, and then the lock file; this is its answer.
    ClosingTemp(Answer),
    /// It closes the lock file, which frees the lock; this is its answer.
    ClosingLock(Answer),
    /// This is its answer.
    Ended(Answer),
    /// Its answer was given.
    Spent,
}
