use crate::expect::{number as wanted_number, optional_text, same_text};
use crate::texts::{text, texts_up_to};
use cache_types::{Layout, Text};
use cmd_words::{Command, OptionPair, Word, WordsRefusal, number_of_text, read_words};
use row_text::{Sentence, Wrong, equal};

/// The words that end those of a command line.
const ENDS: [&str; 3] = ["read", "have", "ask"];

/// `number TEXT is N`, or `is none`
pub fn number(row: &mut Sentence) -> Result<(), Wrong> {
    let spelled = text(row)?;
    row.wants("is")?;
    wanted_number(row, number_of_text(spelled.as_str()))
}

/// `words WORD.. read as COMMAND [with NAME VALUE ..] [at WORD..]`, `words WORD.. have no reading`,
/// `words WORD.. ask WHAT is VALUE`, or `is none`
pub fn words(row: &mut Sentence) -> Result<(), Wrong> {
    let words = texts_up_to(row, &ENDS)?;
    match read_words(row.alloc(), &words) {
        Ok(command) => reads(row, &command),
        Err(WordsRefusal::Usage) => has_none(row),
        Err(WordsRefusal::NoMemory) => Err(Wrong::NoMemory),
    }
}

fn has_none(row: &mut Sentence) -> Result<(), Wrong> {
    row.wants("have")?;
    row.wants("no")?;
    row.wants("reading")
}

fn reads(row: &mut Sentence, command: &Command) -> Result<(), Wrong> {
    if row.takes("ask") {
        return asks(row, command);
    }
    row.wants("read")?;
    row.wants("as")?;
    let wanted = row.text()?;
    same_text(row.alloc(), wanted.as_str(), name_of(command.word))?;
    let options = command.options.copy(row.alloc())?;
    has_options(row, options.as_slice())?;
    has_places(row, command.places.as_slice())
}

fn name_of(word: Word) -> &'static str {
    match word {
        Word::Key => "key",
        Word::Put => "put",
        Word::Get => "get",
        Word::Mark => "mark",
        Word::Has => "has",
        Word::List => "list",
        Word::Verify => "verify",
        Word::Trim => "trim",
        Word::Settings => "settings",
        Word::Batch => "batch",
        Word::Drill => "drill",
    }
}

/// `[with NAME VALUE ..]`: all options, in their order
fn has_options(row: &mut Sentence, options: &[OptionPair]) -> Result<(), Wrong> {
    if !row.takes("with") {
        return equal(row.alloc(), "options", 0, options.len() as u64);
    }
    for option in options {
        let name = row.text()?;
        same_text(row.alloc(), name.as_str(), option.name.as_str())?;
        let value = text(row)?;
        same_text(row.alloc(), value.as_str(), option.value.as_str())?;
    }
    Ok(())
}

/// `[at WORD..]`: all positional words, in their order
fn has_places(row: &mut Sentence, places: &[Text]) -> Result<(), Wrong> {
    if !row.takes("at") {
        return equal(row.alloc(), "positional words", 0, places.len() as u64);
    }
    for place in places {
        let wanted = text(row)?;
        same_text(row.alloc(), wanted.as_str(), place.as_str())?;
    }
    Ok(())
}

/// `WHAT is VALUE`, or `is none`, where WHAT is `id`, `gpu`, `flags`, `root`, `layout`, `limit`, `meta`, `key`, or
/// `option NAME`
fn asks(row: &mut Sentence, command: &Command) -> Result<(), Wrong> {
    let what = row.text()?;
    if what.as_str() == "option" {
        let name = row.text()?;
        row.wants("is")?;
        return optional_text(row, command.option(name.as_str()));
    }
    row.wants("is")?;
    match what.as_str() {
        "flags" => wanted_number(row, Some(command.flags())),
        "limit" => wanted_number(row, command.limit()),
        "id" | "gpu" | "root" | "meta" | "key" | "layout" => {
            optional_text(row, text_asked(command, what.as_str()))
        }
        _ => Err(Wrong::of(row.alloc(), "nothing such is asked")),
    }
}

fn text_asked<'a>(command: &'a Command, what: &str) -> Option<&'a str> {
    match what {
        "id" => Some(command.id()),
        "gpu" => Some(command.gpu()),
        "root" => command.root(),
        "meta" => command.meta(),
        "key" => command.key(),
        "layout" => Some(layout_name(command.layout()?)),
        _ => None,
    }
}

/// The word of a layout.
pub fn layout_name(layout: Layout) -> &'static str {
    match layout {
        Layout::Folder => "folder",
        Layout::Database => "database",
        Layout::Foz => "foz",
    }
}
