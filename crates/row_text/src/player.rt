use crate::book::{Book, Case};
use crate::play::{Failed, play};
use crate::stage::Stage;
use crate::word::Short;
use std::process::ExitCode;
use std::{env, fs, io};

/// How many cases and rows there were, how many rounds they had, and how many cases failed.
#[derive(Clone, Copy)]
struct Tally {
    cases: u64,
    rows: u64,
    rounds: u64,
    failed: u64,
}

impl Tally {
    const NONE: Tally = Tally {
        cases: 0,
        rows: 0,
        rounds: 0,
        failed: 0,
    };

    const FAILED: Tally = Tally {
        failed: 1,
        ..Tally::NONE
    };

    fn and(self, other: Tally) -> Tally {
        Tally {
            cases: self.cases.saturating_add(other.cases),
            rows: self.rows.saturating_add(other.rows),
            rounds: self.rounds.saturating_add(other.rounds),
            failed: self.failed.saturating_add(other.failed),
        }
    }
}

/// Plays the cases of the files that the words of the command line name. It prints each row that doesn't hold with
/// its file and line, what was wanted and what came, then how many cases and rows each file has. The exit status is
/// 0 where all hold, else 1.
pub fn play_files<S: Stage>(rt: &HostRuntime) -> ExitCode {
    let Ok(tally) = play_all::<S>(rt) else {
        return ExitCode::FAILURE;
    };
    let told = tell(rt, "all", tally);
    if tally.failed == 0 && told.is_ok() {
        ExitCode::SUCCESS
    } else {
        ExitCode::FAILURE
    }
}

fn play_all<S: Stage>(rt: &HostRuntime) -> io::Result<Tally> {
    let mut tally = Tally::NONE;
    for file in env::args(rt)?.skip(1) {
        tally = tally.and(play_file::<S>(rt, file.as_str())?);
    }
    Ok(tally)
}

/// Plays the cases of a file.
fn play_file<S: Stage>(rt: &HostRuntime, file: &str) -> io::Result<Tally> {
    let text = match fs::read_to_string(rt, file) {
        Ok(text) => text,
        Err(error) => {
            println!(rt; "{file}: can't be read: {error}")?;
            return Ok(Tally::FAILED);
        }
    };
    let tally = play_text::<S>(rt, file, text.as_str())?;
    tell(rt, file, tally)?;
    Ok(tally)
}

/// Plays the cases of a text.
fn play_text<S: Stage>(rt: &HostRuntime, file: &str, text: &str) -> io::Result<Tally> {
    let book = match Book::read(rt.alloc(), text) {
        Ok(book) => book,
        Err(bad) => {
            println!(rt; "{file}:{}: {}", bad.line, bad.wrong.text())?;
            return Ok(Tally::FAILED);
        }
    };
    let mut tally = Tally::NONE;
    for case in &book.cases {
        tally = tally.and(play_case::<S>(rt, file, case, &book.shorts)?);
    }
    let rows = book.rows;
    Ok(Tally { rows, ..tally })
}

/// Plays a case, and prints where it fails.
fn play_case<S: Stage>(
    rt: &HostRuntime,
    file: &str,
    case: &Case,
    shorts: &[Short],
) -> io::Result<Tally> {
    let (last, failed) = match play::<S>(rt, &case.rows, shorts) {
        Ok(last) => (last, 0),
        Err(failed) => {
            report(rt, file, case, &failed)?;
            (failed.round, 1)
        }
    };
    Ok(Tally {
        cases: 1,
        rows: 0,
        rounds: last.saturating_add(1),
        failed,
    })
}

/// Prints a row that doesn't hold.
fn report(rt: &HostRuntime, file: &str, case: &Case, failed: &Failed) -> io::Result<()> {
    let round = failed.round;
    let wrong = failed.wrong.text();
    let title = case.title.as_str();
    match case.rows.as_slice().get(failed.place) {
        Some(row) => {
            println!(rt; "{file}:{}: case {title}, round {round}", row.line)?;
            println!(rt; "    {}", row.text)?;
        }
        None => println!(rt; "{file}:{}: case {title}", case.line)?,
    }
    println!(rt; "    {wrong}")
}

fn tell(rt: &HostRuntime, what: &str, tally: Tally) -> io::Result<()> {
    println!(rt;
        "{what}: {} cases, {} rows, {} rounds, {} failed",
        tally.cases, tally.rows, tally.rounds, tally.failed
    )
}
