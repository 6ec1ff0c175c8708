use std::fs::{File, OpenOptions};
use std::io;
use std::os::fd::AsRawFd;

/// The file that gives no bytes and takes all.
pub const NULL: &str = "/dev/null";

/// Holds the numbers of standard streams that are closed, as long as the result lives.
///
/// A file that is opened gets the least free number. Were that the one of standard output, a blob that is
/// printed would be written over the entry that it was read from; were it the one of standard input, an entry
/// would be read as the blob that is put. What is held can't be read where input is wanted, and can't be
/// written where output is.
pub fn hold(rt: &HostRuntime) -> io::Result<[Option<File>; 3]> {
    let mut held = [None, None, None];
    for slot in &mut held {
        let file = File::open(rt, NULL)?;
        match file.as_raw_fd() {
            0 => {
                drop(file);
                *slot = Some(OpenOptions::new().write(true).open(rt, NULL)?);
            }
            1 | 2 => *slot = Some(file),
            _ => break,
        }
    }
    Ok(held)
}
