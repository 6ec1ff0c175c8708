use super::{open_lasting, open_temporary};
use crate::fault::Fault;
use crate::system::write;
use std::fs::{self, File};
use std::io;
use std::os::unix::fs::{MetadataExt, symlink};
use std::rt::Files as RealFiles;

/// What came of an opening and of writing three bytes into what was opened, in a word.
fn written(opened: Result<File, Fault>) -> &'static str {
    match opened {
        Ok(file) => match write(&file, 0, b"new") {
            Ok(()) => "written",
            Err(_) => "not written",
        },
        Err(_) => "not opened",
    }
}

/// The bits of a path's mode by which others than its user may do anything, and by which its user may.
fn mode_of<R: RealFiles>(rt: &R, path: &str) -> Option<u32> {
    match fs::symlink_metadata(rt, path) {
        Ok(found) => Some(found.mode() & 0o777),
        Err(_) => None,
    }
}

/// What is made is its user's alone, the folders too.
#[test]
fn made_for_one_user(rt: HostRuntime) -> io::Result<()> {
    let _ = fs::remove_dir_all(&rt, "made_for_one_user");
    assert_eq!(rt;
        written(open_lasting(&rt, "made_for_one_user/ab/lock")),
        "written"
    );
    assert_eq!(rt;
        written(open_temporary(&rt, "made_for_one_user/ab/cd.tmp")),
        "written"
    );
    let modes = [
        ("made_for_one_user", 0o700),
        ("made_for_one_user/ab", 0o700),
        ("made_for_one_user/ab/lock", 0o600),
        ("made_for_one_user/ab/cd.tmp", 0o600),
    ];
    for (path, mode) in modes {
        assert_eq!(rt; mode_of(&rt, path), Some(mode));
    }
    fs::remove_dir_all(&rt, "made_for_one_user")
}

/// Links to a file and to nothing, a temporary file that another put left, and a folder, in a folder of a test's own.
fn begin(rt: HostRuntime) -> io::Result<()> {
    let _ = fs::remove_dir_all(&rt, "no_link_is_written_through");
    fs::create_dir(&rt, "no_link_is_written_through")?;
    fs::write(&rt, "no_link_is_written_through/other", "other")?;
    symlink(&rt, "other", "no_link_is_written_through/to_other")?;
    symlink(&rt, "nothing", "no_link_is_written_through/to_nothing")?;
    fs::write(&rt, "no_link_is_written_through/left", "longer")?;
    fs::create_dir(&rt, "no_link_is_written_through/folder")
}

/// What stands in a file of that folder.
fn holds(rt: HostRuntime, path: &str, bytes: &[u8]) -> bool {
    match fs::read(&rt, path) {
        Ok(found) => found.as_slice() == bytes,
        Err(_) => false,
    }
}

/// A temporary file isn't written through a link, and a lasting one isn't made through one.
#[test]
fn no_link_is_written_through(rt: HostRuntime) -> io::Result<()> {
    begin(rt)?;
    let openings = [
        (
            written(open_temporary(&rt, "no_link_is_written_through/to_other")),
            "written",
        ),
        (
            written(open_lasting(&rt, "no_link_is_written_through/to_nothing")),
            "not opened",
        ),
        (
            written(open_temporary(&rt, "no_link_is_written_through/left")),
            "written",
        ),
        (
            written(open_temporary(&rt, "no_link_is_written_through/folder")),
            "not opened",
        ),
    ];
    for (got, want) in openings {
        assert_eq!(rt; got, want);
    }
    assert!(rt; holds(rt, "no_link_is_written_through/other", b"other"));
    assert!(rt; holds(rt, "no_link_is_written_through/to_other", b"new"));
    assert!(rt; holds(rt, "no_link_is_written_through/left", b"newger"));
    assert!(rt; fs::symlink_metadata(&rt, "no_link_is_written_through/nothing").is_err());
    fs::remove_dir_all(&rt, "no_link_is_written_through")
}
