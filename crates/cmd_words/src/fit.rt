ghost use Rattle.std.specs.Prelude.{◌≡◌, true, bytes_eq};
ghost use Rattle.std.specs.List.{list_all, list_any};
ghost use Rattle.cmd_words.specs.Options.{has_fit_value};
ghost use Rattle.cmd_words.specs.Parsed.{is_taken};
ghost use Rattle.cmd_words.specs.Reading.{has_fit_turns, is_fit};
ghost use Rattle.cmd_words.specs.Table.{row_of};

use crate::command::Command;
use crate::option_list::OptionPair;
use crate::row::{has_fit_places, has_option, is_fit_value, is_number_up_to};
use crate::word::Word;

/// A drill in threads has at most so many turns.
const MAX_THREAD_TURNS: u64 = 200;

/// Whether all options are a command's.
fn has_own_options(word: Word, options: &[OptionPair]) -> bool
    ensures { result ≡ list_all (λ option. list_any (bytes_eq option.name) (row_of word).options) options.now }
{
    options
        .iter()
        .all(|option| has_option(word, option.name.as_str()))
}

/// Whether an option has a value that it may have.
fn is_fit_option(option: &OptionPair) -> bool
    ensures { result ≡ has_fit_value option.now }
{
    is_fit_value(option.name.as_str(), option.value.as_str())
}

/// Whether all options have values that they may have.
fn has_fit_values(options: &[OptionPair]) -> bool
    ensures { result ≡ list_all has_fit_value options.now }
{
    options.iter().all(|option| is_fit_option(option))
}

/// Whether a drill has no more turns than its mode allows.
fn has_fit_turns(command: &Command) -> bool
    ensures { result ≡ has_fit_turns (record { options = command.now.options; places = command.now.places }) }
{
    if command.option("mode").unwrap_or("") != "threads" {
        return true;
    }
    is_number_up_to(MAX_THREAD_TURNS, command.key().unwrap_or(""))
}

/// Whether the options and the positional words are those of the command's row, where clap takes the options.
pub fn is_fit(command: &Command) -> bool
    requires { is_taken command.now.options ≡ true }
    ensures { result ≡ is_fit (row_of command.now.word) (record { options = command.now.options; places = command.now.places }) }
{
    has_own_options(command.word, command.options.as_slice())
        && has_fit_values(command.options.as_slice())
        && has_fit_places(command.word, command.places.as_slice())
        && has_fit_turns(command)
}
