use crate::answer::{answer_of, push_answer};
use crate::driver::{driver_of, push_driver};
use crate::request::{push_request, request_of};
use crate::store::{push_store, store_of};
use crate::words::Words;
use cache_types::{Driver, Key, Store};
use file_log::Note;
use row_text::{Sentence, Wrong, key_of};

/// Takes a note: `Begin REQUEST`, `Evict KEY [root N] [layout WORD] [id WORD]` or `End ANSWER`.
pub(crate) fn note_of(row: &mut Sentence) -> Result<Note, Wrong> {
    let word = row.text()?;
    match word.as_str() {
        "Begin" => Ok(Note::Begin(request_of(row)?)),
        "Evict" => evict(row),
        "End" => Ok(Note::End(answer_of(row)?)),
        _ => Err(Wrong::Found(format!(in row.alloc(); "no note is '{word}'")?)),
    }
}

fn evict(row: &mut Sentence) -> Result<Note, Wrong> {
    let key = key_of(row)?;
    let store = store_of(row)?;
    let driver = driver_of(row)?;
    Ok(Note::Evict { store, driver, key })
}

pub(crate) fn push_note(words: &mut Words, note: &Note) -> Result<(), Wrong> {
    match note {
        Note::Begin(request) => {
            words.word("Begin")?;
            push_request(words, request)
        }
        Note::Evict { store, driver, key } => {
            words.word("Evict")?;
            push_evict(words, *store, driver, key)
        }
        Note::End(answer) => {
            words.word("End")?;
            push_answer(words, answer)
        }
    }
}

/// What is about to go.
pub(crate) fn push_evict(
    words: &mut Words,
    store: Store,
    driver: &Driver,
    key: &Key,
) -> Result<(), Wrong> {
    words.key(key)?;
    push_store(words, store)?;
    push_driver(words, driver)
}
