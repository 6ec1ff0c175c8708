ghost use Rattle.std.specs.Prelude.{◌≡◌, bytes_eq};
ghost use Rattle.std.specs.List.{list_any};
ghost use Rattle.cmd_words.specs.Numbers.{is_number_up_to};
ghost use Rattle.cmd_words.specs.Options.{is_driver_text, is_meta, is_mode, is_number, has_fit_value};
ghost use Rattle.cmd_words.specs.Reading.{has_fit_places};
ghost use Rattle.cmd_words.specs.Table.{driver_options, store_options, row_of, word_of};

use crate::command::layout_of_text;
use crate::number::number_of_text;
use crate::word::Word;
use cache_types::Text;

/// A size is at most so many bytes: 1 TiB.
const MAX_SIZE: u64 = 1 << 40;

/// A drill has at most so many turns.
const MAX_TURNS: u64 = 20_000;

/// At most so many texts of keys stand in a meta.
const MAX_META: usize = 64;

/// The command that a first word is.
pub fn word_of(first: &str) -> Option<Word>
    ensures { result ≡ word_of first.now }
{
    match first {
        "key" => Some(Word::Key),
        "put" => Some(Word::Put),
        "get" => Some(Word::Get),
        "mark" => Some(Word::Mark),
        "has" => Some(Word::Has),
        "list" => Some(Word::List),
        "verify" => Some(Word::Verify),
        "trim" => Some(Word::Trim),
        "settings" => Some(Word::Settings),
        "batch" => Some(Word::Batch),
        "drill" => Some(Word::Drill),
        _ => None,
    }
}

/// Whether an option names a driver.
fn is_driver_option(name: &str) -> bool
    ensures { result ≡ list_any (bytes_eq name.now) driver_options }
{
    matches!(name, "id" | "gpu" | "flags")
}

/// Whether an option names a store.
fn is_store_option(name: &str) -> bool
    ensures { result ≡ list_any (bytes_eq name.now) store_options }
{
    matches!(name, "root" | "layout")
}

/// Whether a command has an option of this name.
pub fn has_option(word: Word, name: &str) -> bool
    ensures { result ≡ list_any (bytes_eq name.now) (row_of word).options }
{
    match word {
        Word::Key => is_driver_option(name),
        Word::Put => {
            is_driver_option(name) || is_store_option(name) || matches!(name, "limit" | "meta")
        }
        Word::Get | Word::List => is_driver_option(name) || is_store_option(name),
        Word::Mark | Word::Has | Word::Verify | Word::Trim => is_store_option(name),
        Word::Settings => false,
        Word::Batch => is_driver_option(name) || is_store_option(name) || name == "limit",
        Word::Drill => name == "mode",
    }
}

/// Whether a text spells a number of at most so much.
pub fn is_number_up_to(most: u64, text: &str) -> bool
    ensures { result ≡ is_number_up_to most text.now }
{
    match number_of_text(text) {
        Some(number) => number <= most,
        None => false,
    }
}

/// Whether a text spells a number.
fn is_number(text: &str) -> bool
    ensures { result ≡ is_number text.now }
{
    number_of_text(text).is_some()
}

/// Whether a text can stand in a driver: at most 255 bytes, none of them zero.
fn is_driver_text(text: &str) -> bool
    ensures { result ≡ is_driver_text text.now }
{
    cache_types::is_driver_text(text.as_bytes())
}

/// Whether a text has at most [`MAX_META`] pieces between commas.
fn is_meta(text: &str) -> bool
    ensures { result ≡ is_meta text.now }
{
    text.as_bytes().split(|byte| *byte == b',').count() <= MAX_META
}

/// Whether a text is a way to play a drill.
fn is_mode(text: &str) -> bool
    ensures { result ≡ is_mode text.now }
{
    matches!(text, "plain" | "rogue" | "threads")
}

/// Whether an option may have this value.
pub fn is_fit_value(name: &str, value: &str) -> bool
    ensures { result ≡ has_fit_value (record { name = name.now; value = value.now }) }
{
    match name {
        "id" | "gpu" => is_driver_text(value),
        "flags" => is_number(value),
        "root" => true,
        "layout" => layout_of_text(value).is_some(),
        "limit" => is_number_up_to(MAX_SIZE, value),
        "meta" => is_meta(value),
        "mode" => is_mode(value),
        _ => false,
    }
}

/// Whether the positional words are as many as the command has, and may be what they are.
pub fn has_fit_places(word: Word, places: &[Text]) -> bool
    ensures { result ≡ has_fit_places (row_of word).places places.now }
{
    match word {
        Word::Put | Word::Get | Word::Mark | Word::Has => places.len() == 1,
        Word::Trim => match places {
            [size] => is_number_up_to(MAX_SIZE, size.as_str()),
            _ => false,
        },
        Word::Drill => match places {
            [turns, seed] => {
                is_number_up_to(MAX_TURNS, turns.as_str()) && is_number(seed.as_str())
            }
            _ => false,
        },
        Word::Key | Word::List | Word::Verify | Word::Settings | Word::Batch => places.is_empty(),
    }
}
