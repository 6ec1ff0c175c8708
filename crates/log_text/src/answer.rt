use crate::bytes::blob_of;
use crate::lists::{keys_of, push_keys, push_rows, rows_of};
use crate::words::Words;
use cache_types::Answer;
use row_text::{Sentence, Wrong};
use std::alloc::Global;

/// Takes an answer, as `Miss`, `Hit "abc"` or `TooLarge 16777217`.
pub fn answer_of(row: &mut Sentence) -> Result<Answer, Wrong> {
    let word = row.text()?;
    match word.as_str() {
        "Hit" => Ok(Answer::Hit(blob_of(row)?)),
        "Keys" => Ok(Answer::Keys(keys_of(row)?)),
        "Rows" => Ok(Answer::Rows(rows_of(row)?)),
        "Trimmed" => Ok(Answer::Trimmed(row.number()?)),
        "TooLarge" => Ok(Answer::TooLarge(row.number()?)),
        word => plain(row.alloc(), word),
    }
}

/// The answer that a word says alone.
fn plain(alloc: Global, word: &str) -> Result<Answer, Wrong> {
    match word {
        "Miss" => Ok(Answer::Miss),
        "Stored" => Ok(Answer::Stored),
        "Kept" => Ok(Answer::Kept),
        "Yes" => Ok(Answer::Yes),
        "No" => Ok(Answer::No),
        "Marked" => Ok(Answer::Marked),
        "Foreign" => Ok(Answer::Foreign),
        "Busy" => Ok(Answer::Busy),
        "FilesFault" => Ok(Answer::FilesFault),
        "NoMemory" => Ok(Answer::NoMemory),
        _ => Err(Wrong::Found(format!(in alloc; "no answer is '{word}'")?)),
    }
}

/// An answer in the words of a row.
pub fn answer_text(alloc: Global, answer: &Answer) -> Result<String, Wrong> {
    let mut words = Words::new(alloc);
    push_answer(&mut words, answer)?;
    Ok(words.into_text())
}

pub(crate) fn push_answer(words: &mut Words, answer: &Answer) -> Result<(), Wrong> {
    words.word(word_of(answer))?;
    match answer {
        Answer::Hit(blob) => words.bytes(blob.as_slice()),
        Answer::Keys(keys) => push_keys(words, keys.as_slice()),
        Answer::Rows(rows) => push_rows(words, rows.as_slice()),
        Answer::Trimmed(count) => words.number(*count),
        Answer::TooLarge(count) => words.number(*count),
        _ => Ok(()),
    }
}

fn word_of(answer: &Answer) -> &'static str {
    match answer {
        Answer::Hit(_) => "Hit",
        Answer::Miss => "Miss",
        Answer::Stored => "Stored",
        Answer::Kept => "Kept",
        Answer::Yes => "Yes",
        Answer::No => "No",
        Answer::Marked => "Marked",
        Answer::Keys(_) => "Keys",
        Answer::Rows(_) => "Rows",
        Answer::Trimmed(_) => "Trimmed",
        Answer::TooLarge(_) => "TooLarge",
        Answer::Foreign => "Foreign",
        Answer::Busy => "Busy",
        Answer::FilesFault => "FilesFault",
        Answer::NoMemory => "NoMemory",
    }
}
