use cache_types::Text;
use host_files::{HostFiles, HostSink, HostSource, Reason};
use report_text::Status;
use std::alloc::Global;
use std::fmt::{self, Display, Formatter, Write};
use std::io;

/// The file of a call or the stream that failed.
#[derive(Drop)]
enum Place {
    /// The path that the call named; empty where it named none.
    Path(Text),
    /// Standard input.
    Input,
    /// Standard output.
    Output,
}

/// The first failure of a run: what the call that failed named, and why it failed. It is displayed in one line, as
/// `cache/a9/lock: Permission denied`.
#[derive(Drop)]
pub struct Failure {
    place: Place,
    reason: Reason,
}

impl Failure {
    /// A call of a path's file failed. None where there is no memory for the path.
    pub fn of_path(alloc: Global, path: &str, reason: Reason) -> Option<Failure> {
        match Text::of(alloc, path) {
            Ok(path) => Some(Failure {
                place: Place::Path(path),
                reason,
            }),
            Err(_) => None,
        }
    }

    /// A write to standard output failed.
    pub fn of_output(error: &io::Error) -> Failure {
        Failure {
            place: Place::Output,
            reason: Reason::of(error),
        }
    }

    /// The failure that a run's status tells of, where it tells of one.
    pub fn of_run(
        alloc: Global,
        status: Status,
        files: &HostFiles<HostRuntime>,
        source: &HostSource<HostRuntime>,
        out: &HostSink<HostRuntime>,
    ) -> Option<Failure> {
        match status {
            Status::FilesFault => {
                let first = files.first_fault()?;
                Failure::of_path(alloc, first.path(), first.reason())
            }
            Status::ReadFault => Some(Failure {
                place: Place::Input,
                reason: source.first_reason()?,
            }),
            Status::WriteFault => Some(Failure {
                place: Place::Output,
                reason: out.first_reason()?,
            }),
            _ => None,
        }
    }
}

impl Display for Failure {
    fn fmt<W: fmt::Write>(&self, f: &mut Formatter<W>) -> fmt::Result {
        let reason = self.reason;
        match &self.place {
            Place::Path(path) if path.as_str().is_empty() => write!(f, "{reason}"),
            Place::Path(path) => write!(f, "{}: {reason}", Shown(path.as_str())),
            Place::Input => write!(f, "standard input: {reason}"),
            Place::Output => write!(f, "standard output: {reason}"),
        }
    }
}

/// A text of the caller's within a line: a control character, which could end the line or drive a terminal, is displayed as `?`.
#[derive(Drop)]
pub struct Shown<'a>(pub &'a str);

impl Display for Shown<'_> {
    fn fmt<W: fmt::Write>(&self, f: &mut Formatter<W>) -> fmt::Result {
        for c in self.0.chars() {
            f.write_char(if c.is_control() { '?' } else { c })?;
        }
        Ok(())
    }
}
