ghost use Rattle.std.specs.Prelude.{◌≡◌, ◌++◌, ◌∷◌, [], Some, None, true, false, Err, IfOk, OnOk, map, string_bytes};
ghost use Rattle.clap.specs.Words.{app_of, with_rule, rows_of, found_of, matches_of, fault_of, kind_of};
ghost use Rattle.cmd_words.specs.Options.{has_no_repeat};
ghost use Rattle.cmd_words.specs.Parsed.{option_rule, bare_app, with_options, words_app, options_in, options_named, places_in, has_stray, taken_parts};

use crate::command::Command;
use crate::option_list::{OptionList, OptionPair};
use crate::reading::WordsRefusal;
use crate::word::Word;
use cache_types::{NoMemory, Text, TextList};
use clap::builder::ValueParser;
use clap::error::ErrorKind;
use clap::{Arg, ArgAction, ArgMatches, Command as Parser, Error};
use std::alloc::Global;

/// What clap calls the positional words.
const PLACES: &str = "places";

/// The options of all commands.
const OPTIONS: [&str; 8] = [
    "id", "gpu", "flags", "root", "layout", "limit", "meta", "mode",
];

/// Whether a word before any `--` begins with a single dash. Clap would take a lone dash for a positional word.
fn has_stray(words: &[String]) -> bool
    ensures { result ≡ has_stray (map string_bytes words.now) }
{
    let mut rest = words;
    while let [word, tail @ ..] = rest {
        match word.as_bytes() {
            [b'-', b'-'] => return false,
            [b'-', b'-', ..] => {}
            [b'-', ..] => return true,
            _ => {}
        }
        rest = tail;
    }
    false
}

/// Adds an option, which has one value that isn't empty, and is given once.
fn with_option<'a>(alloc: Global, parser: Parser<'a>, name: &'a str) -> Result<Parser<'a>, NoMemory>
    ensures { IfOk result (λ made. app_of made ≡ with_rule (app_of parser.entry) (option_rule name.entry.now)) }
{
    let option = Arg::new(alloc, name)
        .long(name)
        .action(ArgAction::Set)
        .value_parser(ValueParser::NonEmptyString);
    Ok(parser.arg(option)?)
}

/// Adds options to a parser, in this order.
fn with_options<'a>(
    alloc: Global,
    bare: Parser<'a>,
    names: &[&'a str],
) -> Result<Parser<'a>, NoMemory>
    ensures { IfOk result (λ made. app_of made ≡ with_options (app_of bare.entry) (map (λ name. name.now) names.now)) }
{
    let mut parser = bare;
    let mut rest = names;
    while let [name, tail @ ..] = rest {
        parser = with_option(alloc, parser, name)?;
        rest = tail;
    }
    Ok(parser)
}

/// A parser of no words, with no help, no version, and no program's name in front.
fn bare_parser<'a>(alloc: Global) -> Parser<'a>
    ensures { app_of result ≡ bare_app }
{
    Parser::new(alloc, "words")
        .no_binary_name(true)
        .disable_help_flag(true)
        .disable_version_flag(true)
}

/// A parser of the options of all commands, and of any number of positional words.
fn parser_of_words<'a>(alloc: Global) -> Result<Parser<'a>, NoMemory>
    ensures { IfOk result (λ made. app_of made ≡ words_app) }
{
    let parser = with_options(alloc, bare_parser(alloc), &OPTIONS)?;
    let places = Arg::new(alloc, PLACES).action(ArgAction::Append);
    Ok(parser.arg(places)?)
}

/// Why clap takes no words: memory ran out, or they are at fault.
fn refusal_of(error: &Error) -> WordsRefusal
    ensures { result ≡ WordsRefusal.Usage → kind_of error.now ≡ ErrorKind.OutOfMemory → ⊥ }
{
    match error.kind() {
        ErrorKind::OutOfMemory => WordsRefusal::NoMemory,
        _ => WordsRefusal::Usage,
    }
}

/// What clap finds in the words.
fn matches_of<'a>(alloc: Global, words: &'a [String]) -> Result<ArgMatches<'a>, WordsRefusal>
    ensures fits { IfOk result (λ found. fault_of words_app (map string_bytes words.entry.now) ≡ []) }
    ensures rows { IfOk result (λ found. rows_of (found_of found) ≡ matches_of words_app (map string_bytes words.entry.now)) }
    ensures usage { result ≡ Err WordsRefusal.Usage → fault_of words_app (map string_bytes words.entry.now) ≡ [] → ⊥ }
{
    match parser_of_words(alloc)?.try_get_matches_from(words) {
        Ok(found) => Ok(found),
        Err(error) => Err(refusal_of(&error)),
    }
}

/// Adds the option of this name that was found; the positional words are none.
fn add_option(
    alloc: Global,
    options: &mut OptionList,
    found: &ArgMatches,
    name: &str,
) -> Result<(), NoMemory>
    ensures { OnOk result (options.new ≡ options.old ++ options_named (rows_of (found_of found.now)) (name.now ∷ [])) }
{
    if name == PLACES {
        return Ok(());
    }
    let value = found.get_str(name).unwrap_or("");
    let name = Text::of(alloc, name)?;
    let value = Text::of(alloc, value)?;
    options.push(OptionPair { name, value })
}

/// The options that were found, in the order of the words.
fn options_in(alloc: Global, found: &ArgMatches) -> Result<OptionList, NoMemory>
    requires { has_no_repeat (options_in (rows_of (found_of found.now))) ≡ true }
    ensures { IfOk result (λ options. options ≡ options_in (rows_of (found_of found.now))) }
{
    let mut options = OptionList::new(alloc);
    for name in found.ids() {
        add_option(alloc, &mut options, found, name)?;
    }
    Ok(options)
}

/// The positional words that were found.
fn places_in(alloc: Global, found: &ArgMatches) -> Result<TextList, NoMemory>
    ensures { IfOk result (λ places. places ≡ places_in (rows_of (found_of found.now))) }
{
    let mut places = TextList::new(alloc);
    let Some(words) = found.get_strs(PLACES) else {
        return Ok(places);
    };
    for word in words {
        places.push(Text::of(alloc, word)?)?;
    }
    Ok(places)
}

/// The command with the options and the positional words that were found.
fn command_in(alloc: Global, word: Word, found: &ArgMatches) -> Result<Command, NoMemory>
    requires { has_no_repeat (options_in (rows_of (found_of found.now))) ≡ true }
    ensures word { IfOk result (λ command. command.word ≡ word) }
    ensures options { IfOk result (λ command. command.options ≡ options_in (rows_of (found_of found.now))) }
    ensures places { IfOk result (λ command. command.places ≡ places_in (rows_of (found_of found.now))) }
{
    let options = options_in(alloc, found)?;
    let places = places_in(alloc, found)?;
    Ok(Command {
        word,
        options,
        places,
    })
}

/// The command with the options and the positional words that stand behind its word. `Usage` exactly where these
/// can't be told apart, or an option is no command's, has no value or stands twice.
pub fn parsed(alloc: Global, word: Word, words: &[String]) -> Result<Command, WordsRefusal>
    ensures word { IfOk result (λ command. command.word ≡ word) }
    ensures parts { IfOk result (λ command. taken_parts (map string_bytes words.now) ≡ Some (record { options = command.options; places = command.places })) }
    ensures usage { result ≡ Err WordsRefusal.Usage → taken_parts (map string_bytes words.now) ≡ None }
{
    if has_stray(words) {
        return Err(WordsRefusal::Usage);
    }
    let found = matches_of(alloc, words)?;
    Ok(command_in(alloc, word, &found)?)
}
