ghost use Rattle.std.specs.Prelude.{◌≡◌, ◌⊎◌, ◌↔◌, IfOk, IfErr, IsTrue, Some, map, string_bytes};
ghost use Rattle.cache_main.specs.Top.{RefusesExactly};
ghost use Rattle.cache_main.specs.Words.{is_served as the_is_served, asked, HasNoReading, NeedsSettings};
ghost use Rattle.cmd_words.specs.Known.{IsKnown};

use cmd_words::{Command, Word, WordsRefusal, read_words};
use report_text::Status;
use std::alloc::Global;

/// Whether a command is served today.
fn is_served(word: Word) -> bool
    ensures { result ≡ the_is_served word }
{
    matches!(word, Word::Key | Word::Put | Word::Get | Word::Settings)
}

/// Whether a command needs settings.
pub fn needs_settings(word: Word) -> bool
    ensures { IsTrue result ↔ NeedsSettings word }
{
    !matches!(word, Word::Key)
}

/// The command that the words ask for.
///
/// # Errors
///
/// `Usage` exactly where they have no reading as one that is served; `NoMemory`.
pub fn read_command(alloc: Global, words: &[String]) -> Result<Command, Status>
    ensures asked { IfOk result (λ command. asked (map string_bytes words.now) ≡ Some command) }
    ensures served { IfOk result (λ command. IsTrue (the_is_served command.word)) }
    ensures known { IfOk result IsKnown }
    ensures usage { RefusesExactly result Status.Usage (HasNoReading (asked (map string_bytes words.now))) }
    ensures refused { IfErr result (λ status. (status ≡ Status.Usage) ⊎ (status ≡ Status.NoMemory)) }
{
    match read_words(alloc, words) {
        Ok(command) => {
            if is_served(command.word) {
                Ok(command)
            } else {
                Err(Status::Usage)
            }
        }
        Err(WordsRefusal::Usage) => Err(Status::Usage),
        Err(WordsRefusal::NoMemory) => Err(Status::NoMemory),
    }
}
