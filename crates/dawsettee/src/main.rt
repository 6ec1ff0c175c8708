//! The program: it makes the real objects, does what the words ask for by [`run`](cache_main::run), says on
//! standard error what is wrong, and exits with the status's code.
#![tactic(auto)]

mod failure;
mod help;
mod streams;
mod variables;
mod why;

ghost use Rattle.std.specs.Prelude.{◌≡◌, IfOk, drop, map, string_bytes};
ghost use Rattle.std.specs.Process.{exit_status};
ghost use Rattle.cache_main.specs.Keys.{HasBadKey};
ghost use Rattle.cache_main.specs.Settings.{IsTurnedOff, IsUnbuilt};
ghost use Rattle.cache_main.specs.Top.{EndsExactly};
ghost use Rattle.cache_main.specs.Words.{asked, HasNoReading};
ghost use Rattle.report_text.specs.Statuses.{code_of};
ghost use Rattle.settings_read.specs.Variables.{texts_of};

use crate::failure::Failure;
use crate::help::{HELP, VERSION};
use crate::variables::variables_of;
use cache_main::{plan_of, run};
use cache_types::{NoMemory, Who};
use host_files::{HostFiles, HostSink, HostSource, Reason};
use path_names::Paths;
use report_text::{Status, fault_text};
use std::env;
use std::io::ErrorKind;
use std::process::ExitCode;

/// The one seat of this process.
const ME: Who = Who {
    process: 0,
    seat: 0,
};

/// How a run ended: its status, and of a fault the first failure, where there was memory to keep it.
#[derive(Drop)]
struct Ended {
    status: Status,
    failure: Option<Failure>,
}

impl Ended {
    /// A run that ended in this status, of which no more is to be said.
    fn plain(status: Status) -> Ended
        ensures { result.status ≡ status }
    {
        Ended {
            status,
            failure: None,
        }
    }
}

/// The arguments: the program's name and the words of the command line. Words that aren't UTF-8 have no reading.
fn arguments(rt: &HostRuntime) -> Result<Vec<String>, Status> {
    match env::args(rt) {
        Ok(args) => match args.collect(rt.alloc()) {
            Ok(all) => Ok(all),
            Err(_) => Err(Status::NoMemory),
        },
        Err(error) if error.kind() == ErrorKind::OutOfMemory => Err(Status::NoMemory),
        Err(_) => Err(Status::Usage),
    }
}

/// The words of the command line: all arguments but the first, which is the program's name.
fn words_of(args: &[String]) -> &[String]
    ensures { result.now ≡ drop 1 args.now }
{
    match args {
        [_name, words @ ..] => words,
        [] => &[],
    }
}

/// Does what the words ask for, over the real files under these paths.
fn serve(
    rt: &HostRuntime,
    words: &[String],
    vars: &[(String, String)],
    paths: Paths,
) -> Result<Ended, NoMemory>
    ensures usage { IfOk result (λ ended. EndsExactly ended.status Status.Usage (HasNoReading (asked (map string_bytes words.now)))) }
    ensures off { IfOk result (λ ended. EndsExactly ended.status Status.Off (IsTurnedOff (asked (map string_bytes words.now)) (texts_of vars.now))) }
    ensures not_built { IfOk result (λ ended. EndsExactly ended.status Status.NotBuilt (IsUnbuilt (asked (map string_bytes words.now)) (texts_of vars.now))) }
    ensures bad_key { IfOk result (λ ended. EndsExactly ended.status Status.BadKey (HasBadKey (asked (map string_bytes words.now)) (texts_of vars.now))) }
{
    let alloc = rt.alloc();
    let mut files = HostFiles::new(alloc, rt.clone()?, ME, paths)?;
    let mut source = HostSource::new(rt.clone()?);
    let mut out = HostSink::new(rt.clone()?);
    let status = run(alloc, words, vars, &mut files, &mut source, &mut out);
    let failure = Failure::of_run(alloc, status, &files, &source, &out);
    Ok(Ended { status, failure })
}

/// Prints a text, for `--help` and `--version`.
fn show(rt: &HostRuntime, text: &str) -> Ended
    ensures { result.status ≡ Status.Usage → ⊥ }
{
    match rt.write_all(text.as_bytes()) {
        Ok(()) => Ended::plain(Status::Ok),
        Err(error) => Ended {
            status: Status::WriteFault,
            failure: Some(Failure::of_output(&error)),
        },
    }
}

/// The text that the words ask for, where the only one asks for help or for the version.
fn text_for(words: &[String]) -> Option<&'static str> {
    let [word] = words else {
        return None;
    };
    match word.as_str() {
        "--help" | "-h" | "help" => Some(HELP),
        "--version" | "-V" => Some(VERSION),
        _ => None,
    }
}

/// What the words of the command line lead to. Help and the version are shown before anything is opened.
fn end_of(rt: &HostRuntime, words: &[String]) -> Ended
    ensures usage { result.status ≡ Status.Usage → HasNoReading (asked (map string_bytes words.now)) }
{
    match text_for(words) {
        Some(text) => show(rt, text),
        None => end_of_command(rt, words),
    }
}

/// What a command leads to, while the standard streams that are closed are held.
fn end_of_command(rt: &HostRuntime, words: &[String]) -> Ended
    ensures usage { result.status ≡ Status.Usage → HasNoReading (asked (map string_bytes words.now)) }
{
    match streams::hold(rt) {
        Ok(_held) => end_by_variables(rt, words),
        Err(error) => Ended {
            status: Status::FilesFault,
            failure: Failure::of_path(rt.alloc(), streams::NULL, Reason::of(&error)),
        },
    }
}

/// What a command leads to by the variables of the environment.
fn end_by_variables(rt: &HostRuntime, words: &[String]) -> Ended
    ensures usage { result.status ≡ Status.Usage → HasNoReading (asked (map string_bytes words.now)) }
{
    let Ok(vars) = variables_of(rt) else {
        return Ended::plain(Status::NoMemory);
    };
    let paths = match plan_of(rt.alloc(), words, &vars) {
        Ok(paths) => paths,
        Err(status) => return Ended::plain(status),
    };
    match serve(rt, words, &vars, paths) {
        Ok(ended) => ended,
        Err(_) => Ended::plain(Status::NoMemory),
    }
}

/// Says what is wrong in one line on standard error, and where it is wanted why, in another.
fn report(rt: &HostRuntime, words: &[String], ended: &Ended) {
    if ended.status == Status::Ok {
        return;
    }
    if let Ok(text) = fault_text(rt.alloc(), &ended.status) {
        let _told = rt.eprintln(text.as_str());
    }
    why::tell(rt, words, ended.status, ended.failure.as_ref());
}

/// Does what the arguments ask for, says what is wrong, and gives the status.
fn status_of(rt: &HostRuntime, args: &[String]) -> Status
    ensures usage { result ≡ Status.Usage → HasNoReading (asked (map string_bytes (drop 1 args.now))) }
{
    let words = words_of(args);
    let ended = end_of(rt, words);
    report(rt, words, &ended);
    ended.status
}

/// The program's exit status: the status's code.
fn exit_of(status: Status) -> ExitCode
    ensures { exit_status result ≡ code_of status }
{
    ExitCode::from(status.code())
}

fn main(rt: HostRuntime) -> ExitCode {
    match arguments(&rt) {
        Ok(args) => exit_of(status_of(&rt, &args)),
        Err(status) => {
            report(&rt, &[], &Ended::plain(status));
            exit_of(status)
        }
    }
}
