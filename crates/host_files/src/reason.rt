ghost use Rattle.std.specs.Prelude.{◌≡◌};
ghost use Rattle.std.specs.IoError.{raw_os_error};
ghost use Rattle.host_files.specs.Faults.{reason_of};

use std::fmt::{self, Display, Formatter};
use std::io;

/// The system's number for its want of memory.
pub const OUT_OF_MEMORY: i32 = 12;

/// The system's number for a folder where a file is wanted.
pub const IS_A_FOLDER: i32 = 21;

/// Why a call failed. It is displayed in the words that the system has for it, as `Permission denied`.
#[derive(Clone, Copy, Debug, PartialEq, Eq)]
pub enum Reason {
    /// The system refused, with this number of Linux for its errors.
    System(i32),
    /// The name that the call speaks of has no path.
    NoPath,
    /// What stands at the path is no plain file, but a pipe, a device or the like.
    NoPlainFile,
    /// The system took none of the bytes that were to be written.
    NothingWritten,
    /// Something that the system has no number for.
    Other,
}

impl Reason {
    /// Why a call of the system ended in this error.
    pub fn of(error: &io::Error) -> Reason
        ensures { result ≡ reason_of (raw_os_error error.now) }
    {
        match error.raw_os_error() {
            Some(number) => Reason::System(number),
            None => Reason::Other,
        }
    }
}

/// The system's words for an error that a call of files or streams may end in.
fn words_of(number: i32) -> Option<&'static str> {
    match number {
        1 => Some("Operation not permitted"),
        2 => Some("No such file or directory"),
        5 => Some("Input/output error"),
        9 => Some("Bad file descriptor"),
        11 => Some("Resource temporarily unavailable"),
        OUT_OF_MEMORY => Some("Cannot allocate memory"),
        13 => Some("Permission denied"),
        17 => Some("File exists"),
        18 => Some("Invalid cross-device link"),
        20 => Some("Not a directory"),
        IS_A_FOLDER => Some("Is a directory"),
        22 => Some("Invalid argument"),
        23 => Some("Too many open files in system"),
        24 => Some("Too many open files"),
        27 => Some("File too large"),
        28 => Some("No space left on device"),
        30 => Some("Read-only file system"),
        32 => Some("Broken pipe"),
        36 => Some("File name too long"),
        37 => Some("No locks available"),
        40 => Some("Too many levels of symbolic links"),
        116 => Some("Stale file handle"),
        122 => Some("Disk quota exceeded"),
        _ => None,
    }
}

impl Display for Reason {
    fn fmt<W: fmt::Write>(&self, f: &mut Formatter<W>) -> fmt::Result {
        match self {
            Reason::System(number) => match words_of(*number) {
                Some(words) => f.write_str(words),
                None => write!(f, "System error {number}"),
            },
            Reason::NoPath => f.write_str("No path has this name"),
            Reason::NoPlainFile => f.write_str("Not a regular file"),
            Reason::NothingWritten => f.write_str("Nothing was written"),
            Reason::Other => f.write_str("Input/output error"),
        }
    }
}

#[cfg(test)]
mod tests;
