ghost use Rattle.std.specs.Prelude.{IfOk};
ghost use Rattle.file_log.specs.Seat.{IsIdle};

mod calls;

use crate::{FirstFault, HostFiles};
use cache_types::{Bytes, Name, NoMemory, Text, TextList, Who};
use calls::{KEY, cut, look_up, make, pause_often, remove, rename, time};
use file_log::Reply;
use files_api::Files;
use path_names::Paths;
use std::alloc::Global;
use std::fs::File;
use std::rt::{Clock, Files as RealFiles};
use std::time::Duration;
use std::{fs, io};

const ME: Who = Who {
    process: 0,
    seat: 0,
};

/// The list of read-only databases that the files have.
const LIST: &str = "/sys/devices/system/cpu/online";

/// Two roots, a folder and a plain file in it, and a list that Linux lets nobody write, not even root.
fn paths_in(alloc: Global, folder: &str) -> Result<Paths, NoMemory> {
    let mut file = String::from_str(alloc, folder)?;
    file.push_str("/index")?;
    let roots = [Text::of(alloc, folder)?, Text::from_string(file)];
    Ok(Paths {
        roots: TextList::of(alloc, &roots)?,
        list: Some(Text::of(alloc, LIST)?),
    })
}

/// A seat's files under a folder.
fn files_in<R: RealFiles<File = File> + Clock + Drop>(
    alloc: Global,
    rt: R,
    folder: &str,
) -> Result<HostFiles<R>, NoMemory>
    ensures { IfOk result (λ f. IsIdle (⟦<HostFiles<R> as Files>⟧.seen f)) }
{
    HostFiles::new(alloc, rt, ME, paths_in(alloc, folder)?)
}

/// A folder of a test's own, in which the first root's index holds three bytes.
fn begin(rt: HostRuntime, folder: &str, index: &str) -> io::Result<()> {
    let _ = fs::remove_dir_all(&rt, folder);
    fs::create_dir(&rt, folder)?;
    fs::write(&rt, index, "abc")
}

/// A reply in a word.
fn word(reply: &Reply) -> &'static str {
    match reply {
        Reply::Done => "done",
        Reply::Missing => "missing",
        Reply::Held => "held",
        Reply::Got(bytes) if bytes.is_empty() => "nothing",
        Reply::Got(bytes) if bytes.as_slice() == b"abc".as_slice() => "abc",
        Reply::Got(_) => "another text",
        Reply::Failed => "failed",
        _ => "another",
    }
}

/// The number of a reply.
fn number(reply: &Reply) -> Option<u64> {
    match reply {
        Reply::Number(n) => Some(*n),
        _ => None,
    }
}

/// What a lookup under a folder finds in a name's file.
fn found(rt: HostRuntime, folder: &str, name: Name) -> &'static str {
    match files_in(rt.alloc(), rt, folder) {
        Ok(mut files) => word(&look_up(&mut files, name)),
        Err(_) => "no memory",
    }
}

/// What a writer is answered that writes a byte into a name's file, from the third on.
fn made(rt: HostRuntime, folder: &str, name: Name) -> &'static str {
    let Ok(bytes) = Bytes::of(rt.alloc(), b"a") else {
        return "no memory";
    };
    match files_in(rt.alloc(), rt, folder) {
        Ok(mut files) => word(&make(&mut files, name, 2, bytes)),
        Err(_) => "no memory",
    }
}

/// What a renaming under a folder is answered.
fn renamed(rt: HostRuntime, folder: &str, from: Name, to: Name) -> &'static str {
    match files_in(rt.alloc(), rt, folder) {
        Ok(mut files) => word(&rename(&mut files, from, to)),
        Err(_) => "no memory",
    }
}

/// How long the index under a folder is once it is cut to so many bytes.
fn length_cut(rt: HostRuntime, folder: &str, n: u64) -> Option<u64> {
    let mut files = files_in(rt.alloc(), rt, folder).ok()?;
    number(&cut(&mut files, Name::KeyIndex { root: 0 }, n))
}

/// What a removal under a folder is answered.
fn removed(rt: HostRuntime, folder: &str, name: Name) -> &'static str {
    match files_in(rt.alloc(), rt, folder) {
        Ok(mut files) => word(&remove(&mut files, name)),
        Err(_) => "no memory",
    }
}

#[test]
fn reads_what_stands_there(rt: HostRuntime) -> io::Result<()> {
    let folder = "reads_what_stands_there";
    begin(rt, folder, "reads_what_stands_there/index")?;
    fs::create_dir(&rt, "reads_what_stands_there/mesa_cache.db")?;
    let names = [
        (Name::KeyIndex { root: 0 }, "abc"),
        (Name::Idx { root: 0 }, "missing"),
        (Name::Db { root: 0 }, "failed"),
        (Name::KeyIndex { root: 1 }, "failed"),
        (Name::KeyIndex { root: 2 }, "failed"),
    ];
    for (name, want) in names {
        assert_eq!(rt; found(rt, folder, name), want);
    }
    fs::remove_dir_all(&rt, folder)
}

/// A failure as it is told to a person.
fn line_of(alloc: Global, fault: Option<&FirstFault>) -> Result<String, NoMemory> {
    match fault {
        Some(fault) => {
            let (path, reason) = (fault.path(), fault.reason());
            Ok(format!(in alloc; "{path}: {reason}")?)
        }
        None => Ok(String::from_str(alloc, "none")?),
    }
}

/// What is told of the first failure after a lookup under a folder.
fn why_not_found(rt: HostRuntime, folder: &str, name: Name) -> Result<String, NoMemory> {
    let mut files = files_in(rt.alloc(), rt, folder)?;
    let _found = look_up(&mut files, name);
    line_of(rt.alloc(), files.first_fault())
}

/// Whether a line is this one.
fn is_line(line: Result<String, NoMemory>, want: &str) -> bool {
    match line {
        Ok(line) => line.as_str() == want,
        Err(_) => false,
    }
}

/// A folder in an entry's place opens for reading, so that it is the slot whose length fails.
#[test]
fn first_failure_is_told(rt: HostRuntime) -> io::Result<()> {
    let folder = "first_failure_is_told";
    begin(rt, folder, "first_failure_is_told/index")?;
    fs::create_dir(&rt, "first_failure_is_told/mesa_cache.db")?;
    fs::create_dir_all(
        &rt,
        "first_failure_is_told/07/07070707070707070707070707070707070707",
    )?;
    let rows = [
        (Name::KeyIndex { root: 0 }, "none"),
        (
            Name::Entry { root: 0, key: KEY },
            "first_failure_is_told/07/07070707070707070707070707070707070707: Is a directory",
        ),
        (
            Name::Db { root: 0 },
            "first_failure_is_told/mesa_cache.db: Is a directory",
        ),
        (
            Name::KeyIndex { root: 1 },
            "first_failure_is_told/index/index: Not a directory",
        ),
        (Name::KeyIndex { root: 2 }, ": No path has this name"),
    ];
    for (name, want) in rows {
        assert!(rt; is_line(why_not_found(rt, folder, name), want), "{want}");
    }
    fs::remove_dir_all(&rt, folder)
}

#[test]
fn reads_what_cannot_be_written(rt: HostRuntime) -> io::Result<()> {
    if fs::metadata(&rt, LIST).is_err() {
        return Ok(());
    }
    assert_eq!(rt; found(rt, "no_folder", Name::List), "another text");
    Ok(())
}

/// The other opening has the lock before, and lets it go.
#[test]
fn locks_against_another_opening(rt: HostRuntime) -> io::Result<()> {
    let folder = "locks_against_another_opening";
    let index = "locks_against_another_opening/index";
    begin(rt, folder, index)?;
    let other = File::open(&rt, index)?;
    other.lock_shared()?;
    assert_eq!(rt; made(rt, folder, Name::KeyIndex { root: 0 }), "held");
    other.unlock()?;
    assert_eq!(rt; made(rt, folder, Name::KeyIndex { root: 0 }), "nothing");
    assert_eq!(rt; fs::read(&rt, index)?.as_slice(), b"aba".as_slice());
    fs::remove_dir_all(&rt, folder)
}

/// A cut never makes a file longer.
#[test]
fn cuts_what_is_longer(rt: HostRuntime) -> io::Result<()> {
    let folder = "cuts_what_is_longer";
    begin(rt, folder, "cuts_what_is_longer/index")?;
    assert_eq!(rt; length_cut(rt, folder, 5), Some(3));
    assert_eq!(rt; found(rt, folder, Name::KeyIndex { root: 0 }), "abc");
    assert_eq!(rt; length_cut(rt, folder, 0), Some(0));
    assert_eq!(rt; found(rt, folder, Name::KeyIndex { root: 0 }), "nothing");
    fs::remove_dir_all(&rt, folder)
}

#[test]
fn removes_what_is_there(rt: HostRuntime) -> io::Result<()> {
    let folder = "removes_what_is_there";
    begin(rt, folder, "removes_what_is_there/index")?;
    fs::create_dir(&rt, "removes_what_is_there/mesa_cache.db")?;
    let names = [
        (Name::KeyIndex { root: 0 }, "done"),
        (Name::Idx { root: 0 }, "done"),
        (Name::Db { root: 0 }, "failed"),
    ];
    for (name, want) in names {
        assert_eq!(rt; removed(rt, folder, name), want);
    }
    assert_eq!(rt; found(rt, folder, Name::KeyIndex { root: 0 }), "missing");
    assert_eq!(rt; found(rt, folder, Name::Db { root: 0 }), "failed");
    fs::remove_dir_all(&rt, folder)
}

/// Where the other name's folder isn't there, that is a fault, but where there is nothing to rename.
#[test]
fn renames_what_is_there(rt: HostRuntime) -> io::Result<()> {
    let folder = "renames_what_is_there";
    begin(rt, folder, "renames_what_is_there/index")?;
    let rows = [
        (
            Name::KeyIndex { root: 0 },
            Name::Entry { root: 0, key: KEY },
            "failed",
        ),
        (
            Name::Idx { root: 0 },
            Name::Entry { root: 0, key: KEY },
            "done",
        ),
        (Name::KeyIndex { root: 0 }, Name::Idx { root: 0 }, "done"),
    ];
    for (from, to, want) in rows {
        assert_eq!(rt; renamed(rt, folder, from, to), want);
    }
    assert_eq!(rt; found(rt, folder, Name::KeyIndex { root: 0 }), "missing");
    assert_eq!(rt; found(rt, folder, Name::Idx { root: 0 }), "abc");
    fs::remove_dir_all(&rt, folder)
}

#[test]
fn tells_the_time(rt: HostRuntime) -> io::Result<()> {
    let before = rt.since_1970()?.as_nanos();
    let now = match files_in(rt.alloc(), rt, "no_folder") {
        Ok(mut files) => number(&time(&mut files)).map(u128::from),
        Err(_) => None,
    };
    let after = rt.since_1970()?.as_nanos();
    assert!(rt; now >= Some(before) && now <= Some(after));
    Ok(())
}

/// Four pauses without a sleep, then 50, 100, 200, 400, 800, 1600, 3200 and 6400 microseconds.
#[test]
fn waits_longer_and_longer(rt: HostRuntime) -> io::Result<()> {
    let start = rt.monotonic()?;
    let paused = match files_in(rt.alloc(), rt, "no_folder") {
        Ok(mut files) => pause_often(&mut files),
        Err(_) => false,
    };
    let waited = rt.monotonic()?.saturating_sub(start);
    assert!(rt; paused && waited >= Duration::from_micros(12_750));
    Ok(())
}
