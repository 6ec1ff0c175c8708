ghost use Rattle.std.specs.Prelude.{◌≡◌, ◌+◌, ◌<◌, false, length, map, string_bytes, take, Ok, IfOk, IfSome};
ghost use Rattle.cache_main.specs.Words.{asked, HasNoReading};

use crate::failure::{Failure, Shown};
use cache_main::plan_of;
use cache_types::NoMemory;
use report_text::Status;
use std::alloc::Global;
use std::env::{self, VarError};
use std::io::{self, IsTerminal};

/// The variable that asks for the reason of a fault also where standard error is no terminal.
const EXPLAIN: &str = "DAWSETTEE_EXPLAIN";

/// What may have to stand behind words so that they are read as a command: a key, the value of an option, or both.
const ENDS: [&[&str]; 4] = [&["1"], &["1", "1"], &["folder"], &["folder", "1"]];

/// Whether the variable is set, and not empty.
fn is_set(rt: &HostRuntime) -> bool {
    match env::var(rt, EXPLAIN) {
        Ok(value) => !value.is_empty(),
        Err(VarError::NotUnicode) => true,
        Err(_) => false,
    }
}

/// Words with others behind them.
fn joined(alloc: Global, words: &[String], end: &[&str]) -> Result<Vec<String>, NoMemory> {
    let mut all = Vec::new(alloc);
    for word in words {
        all.push(word.clone()?)?;
    }
    for word in end {
        all.push(String::from_str(alloc, word)?)?;
    }
    Ok(all)
}

/// Whether words are read as a command that is served, as far as memory tells.
fn is_read(alloc: Global, words: &[String]) -> bool
    ensures { result ≡ false → HasNoReading (asked (map string_bytes words.now)) }
{
    !matches!(plan_of(alloc, words, &[]), Err(Status::Usage))
}

/// Whether words are read, or would be with some end.
fn can_go_on(alloc: Global, words: &[String]) -> Result<bool, NoMemory>
    ensures { result ≡ Ok false → HasNoReading (asked (map string_bytes words.now)) }
{
    if is_read(alloc, words) {
        return Ok(true);
    }
    for end in ENDS {
        if is_read(alloc, &joined(alloc, words, end)?) {
            return Ok(true);
        }
    }
    Ok(false)
}

/// The place of the first word with which words can't go on to be read. Where it is only that words are missing there is none.
fn place_of_unread(alloc: Global, words: &[String]) -> Result<Option<usize>, NoMemory>
    ensures within { IfOk result (λ found. IfSome found (λ at. at < length words.now)) }
    ensures unread { IfOk result (λ found. IfSome found (λ at. HasNoReading (asked (map string_bytes (take (at + 1) words.now))))) }
{
    for at in 0..words.len() {
        if !can_go_on(alloc, &words[..at + 1])? {
            return Ok(Some(at));
        }
    }
    Ok(None)
}

/// Names the word that gives the words no reading.
fn tell_words(rt: &HostRuntime, words: &[String]) -> io::Result<()> {
    match place_of_unread(rt.alloc(), words) {
        Ok(Some(0)) => eprintln!(rt;
            "dawsettee: '{}' is no command that is served; see dawsettee --help",
            Shown(&words[0])
        ),
        Ok(Some(at)) => eprintln!(rt;
            "dawsettee: '{}' can't stand there; see dawsettee --help",
            Shown(&words[at])
        ),
        _ => eprintln!(rt; "dawsettee: see dawsettee --help"),
    }
}

/// Says why a run ended in its status, in one line on standard error, where more is to be said than the status's text and standard
/// error is a terminal or the variable asks for it.
pub fn tell(rt: &HostRuntime, words: &[String], status: Status, failure: Option<&Failure>) {
    if !rt.stderr().is_terminal() && !is_set(rt) {
        return;
    }
    let _told = match (status, failure) {
        (_, Some(failure)) => eprintln!(rt; "dawsettee: {failure}"),
        (Status::Usage, None) => tell_words(rt, words),
        (Status::NotBuilt, None) => {
            eprintln!(rt; "dawsettee: the layout folder is built: --layout=folder")
        }
        _ => Ok(()),
    };
}
