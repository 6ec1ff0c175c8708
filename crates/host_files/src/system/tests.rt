use super::{cut, length, list, read, remove, rename, wait, write};
use crate::fault::Fault;
use crate::opening::open_lasting;
use std::cell::Cell;
use std::fs::{File, OpenOptions};
use std::rt::{Clock, Files as RealFiles};
use std::time::Duration;
use std::{fs, io};

/// A result in a word.
fn word<T: Drop>(done: Result<T, Fault>) -> &'static str {
    match done {
        Ok(_) => "done",
        Err(Fault::Failed(_)) => "failed",
        Err(Fault::NoMemory) => "no memory",
    }
}

/// What a writing is answered that a file of a path is opened for reading alone.
fn word_of_write<R: RealFiles<File = File>>(rt: &R, path: &str) -> &'static str {
    match File::open(rt, path) {
        Ok(file) => word(write(&file, 0, b"x")),
        Err(_) => "not opened",
    }
}

/// What a cut of such a file is answered.
fn word_of_cut<R: RealFiles<File = File>>(rt: &R, path: &str) -> &'static str {
    match File::open(rt, path) {
        Ok(file) => word(cut(&file, 1)),
        Err(_) => "not opened",
    }
}

/// What a reading is answered that a file of a path is opened for writing alone.
fn word_of_read(rt: HostRuntime, path: &str) -> &'static str {
    match OpenOptions::new().write(true).open(&rt, path) {
        Ok(file) => word(read(rt.alloc(), &file, 0, 3)),
        Err(_) => "not opened",
    }
}

/// What calls are answered that the system refuses, in a folder with a file.
fn refused_calls(rt: HostRuntime, folder: &str, index: &str, below: &str) -> [&'static str; 7] {
    [
        word(open_lasting(&rt, below)),
        word_of_write(&rt, index),
        word_of_cut(&rt, index),
        word_of_read(rt, index),
        word(rename(&rt, index, below)),
        word(remove(&rt, folder)),
        word(list(rt.alloc(), &rt, index, 7)),
    ]
}

/// A call that the system refuses is a fault, and changes nothing.
#[test]
fn refused_calls_are_faults(rt: HostRuntime) -> io::Result<()> {
    let folder = "refused_calls_are_faults";
    let index = "refused_calls_are_faults/index";
    let below = "refused_calls_are_faults/index/below";
    let _ = fs::remove_dir_all(&rt, folder);
    fs::create_dir(&rt, folder)?;
    fs::write(&rt, index, "abc")?;
    assert_eq!(rt; refused_calls(rt, folder, index, below), ["failed"; 7]);
    assert_eq!(rt; fs::read(&rt, index)?.as_slice(), b"abc".as_slice());
    fs::remove_dir_all(&rt, folder)
}

/// The longest file that ext4 has, in bytes.
const LONGEST: u64 = 17_592_186_040_320;

/// How long a file is after bytes were to be written across the longest file's end; 0 where the file system has longer files.
fn length_after_failure<R: RealFiles<File = File>>(rt: &R, path: &str) -> Option<u64> {
    let file = open_lasting(rt, path).ok()?;
    match write(&file, LONGEST - 3, b"uvwxyz") {
        Ok(()) => Some(0),
        Err(_) => length(&file).ok(),
    }
}

/// A writing that ends in a fault after some of its bytes gives the file its length back.
#[test]
fn failed_writing_leaves_the_length(rt: HostRuntime) -> io::Result<()> {
    let path = "failed_writing_leaves_the_length";
    fs::write(&rt, path, "abc")?;
    let left = length_after_failure(&rt, path);
    assert!(rt; left == Some(3) || left == Some(0), "{left:?}");
    fs::remove_file(&rt, path)
}

/// The second bytes of the keys that a listing gives, and how many it gives.
fn seconds(rt: HostRuntime, folder: &str) -> Option<[u8; 3]> {
    let keys = list(rt.alloc(), &rt, folder, 7).ok()?;
    match keys.as_slice() {
        [first, last] => Some([2, first.bytes[1], last.bytes[1]]),
        [] => Some([0, 0, 0]),
        _ => None,
    }
}

/// A listing skips what is no entry, and is ascending.
#[test]
fn lists_entries(rt: HostRuntime) -> io::Result<()> {
    let _ = fs::remove_dir_all(&rt, "lists_entries");
    assert_eq!(rt; seconds(rt, "lists_entries"), Some([0, 0, 0]));
    fs::create_dir(&rt, "lists_entries")?;
    let paths = [
        "lists_entries/lock",
        "lists_entries/AA070707070707070707070707070707070707",
        "lists_entries/07070707070707070707070707070707070707.tmp",
        "lists_entries/08070707070707070707070707070707070707",
        "lists_entries/06070707070707070707070707070707070707",
    ];
    for path in paths {
        fs::write(&rt, path, "")?;
    }
    assert_eq!(rt; seconds(rt, "lists_entries"), Some([2, 6, 8]));
    fs::remove_dir_all(&rt, "lists_entries")
}

/// A clock that stands still, and keeps how long it was slept by it.
#[derive(Drop)]
struct Slept(Cell<Duration>);

impl Clock for Slept {
    fn monotonic(&self) -> io::Result<Duration> {
        Ok(Duration::ZERO)
    }

    fn since_1970(&self) -> io::Result<Duration> {
        Ok(Duration::ZERO)
    }

    fn sleep(&self, duration: Duration) {
        self.0.set(self.0.get().saturating_add(duration));
    }
}

/// How long the pauses between 64 tries last in all, in microseconds.
fn all_sleeps() -> u128 {
    let clock = Slept(Cell::new(Duration::ZERO));
    for waits in 0..63 {
        wait(&clock, waits);
    }
    clock.0.get().as_micros()
}

#[test]
fn tries_last_half_a_second(rt: HostRuntime) {
    assert_eq!(rt; all_sleeps(), 522_750);
}

#[test]
fn sleeps_longer_after_each_wait(rt: HostRuntime) {
    let cases = [
        (0, 0),
        (3, 0),
        (4, 50),
        (5, 100),
        (6, 200),
        (7, 400),
        (8, 800),
        (9, 1_600),
        (10, 3_200),
        (11, 6_400),
        (12, 10_000),
        (13, 10_000),
        (u32::MAX, 10_000),
    ];
    for (waits, micros) in cases {
        let clock = Slept(Cell::new(Duration::ZERO));
        wait(&clock, waits);
        assert_eq!(rt; clock.0.get(), Duration::from_micros(micros));
    }
}
