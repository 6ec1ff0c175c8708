ghost use Rattle.std.specs.Prelude.{◌≡◌, ◌∷◌, Some, None, Err, IfOk, map, string_bytes};
ghost use Rattle.cmd_words.specs.Known.{IsKnown};
ghost use Rattle.cmd_words.specs.Reading.{reading_of};

use crate::command::Command;
use crate::fit::is_fit;
use crate::parsing::parsed;
use crate::row::word_of;
use cache_types::NoMemory;
use std::alloc::Global;

/// Why words give no command.
#[derive(Clone, Copy, Debug, PartialEq, Eq)]
pub enum WordsRefusal {
    /// The words have no reading.
    Usage,
    /// Memory ran out.
    NoMemory,
}

impl From<NoMemory> for WordsRefusal {
    ghost use Rattle.std.specs.Prelude.{◌≡◌};
    ghost use Rattle.cmd_words.specs.declared.reading.WordsRefusal.TheVariants as refusals;

    ghost from_gives = { λ _ refusal. refusal ≡ refusals.NoMemory };

    fn from(_error: NoMemory) -> WordsRefusal {
        WordsRefusal::NoMemory
    }
}

/// The command with this first word and these behind it.
fn command_of(alloc: Global, first: &str, rest: &[String]) -> Result<Command, WordsRefusal>
    ensures reading { IfOk result (λ command. reading_of (first.now ∷ map string_bytes rest.now) ≡ Some command) }
    ensures usage { result ≡ Err WordsRefusal.Usage → reading_of (first.now ∷ map string_bytes rest.now) ≡ None }
    ensures known { IfOk result IsKnown }
{
    let Some(word) = word_of(first) else {
        return Err(WordsRefusal::Usage);
    };
    let command = parsed(alloc, word, rest)?;
    if is_fit(&command) {
        Ok(command)
    } else {
        Err(WordsRefusal::Usage)
    }
}

/// The command that words read as. The first is the command. Of the rest, up to a word `--`, `--name=value` and
/// `--name value` are options, where a value isn't empty and in the second form doesn't begin with a dash; any other
/// word that begins with a dash has no reading. All other words, and all after `--`, are positional. Each name
/// occurs at most once, and the options, the positional words and their values are those of the command's row in
/// the table of `specs/Table.antt`.
///
/// # Errors
///
/// `Usage` exactly where the words have no reading; `NoMemory`, which may also stand in its place.
pub fn read_words(alloc: Global, words: &[String]) -> Result<Command, WordsRefusal>
    ensures reading { IfOk result (λ command. reading_of (map string_bytes words.now) ≡ Some command) }
    ensures usage { result ≡ Err WordsRefusal.Usage → reading_of (map string_bytes words.now) ≡ None }
    ensures known { IfOk result IsKnown }
{
    match words {
        [first, rest @ ..] => command_of(alloc, first, rest),
        [] => Err(WordsRefusal::Usage),
    }
}
