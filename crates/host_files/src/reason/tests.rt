use crate::Reason;
use std::io;

/// Each reason in words; a number that has none is told itself.
#[test]
fn reasons_have_words(rt: HostRuntime) -> io::Result<()> {
    let rows = [
        (Reason::System(13), "Permission denied"),
        (Reason::System(28), "No space left on device"),
        (Reason::System(21), "Is a directory"),
        (Reason::System(99), "System error 99"),
        (Reason::NoPlainFile, "Not a regular file"),
        (Reason::Other, "Input/output error"),
    ];
    for (reason, words) in rows {
        assert_eq!(rt; format!(in rt.alloc(); "{reason}")?.as_str(), words);
    }
    Ok(())
}
