use crate::bytes::blob_of;
use crate::lists::{keys_of, push_keys};
use crate::words::Words;
use file_log::Reply;
use row_text::{Sentence, Wrong};
use std::alloc::Global;

/// Takes a reply, as `Done`, `Number 29` or `Got "abc"`.
pub fn reply_of(row: &mut Sentence) -> Result<Reply, Wrong> {
    let word = row.text()?;
    match word.as_str() {
        "Got" => Ok(Reply::Got(blob_of(row)?)),
        "Number" => Ok(Reply::Number(row.number()?)),
        "Keys" => Ok(Reply::Keys(keys_of(row)?)),
        word => plain(row.alloc(), word),
    }
}

/// The reply that a word says alone.
fn plain(alloc: Global, word: &str) -> Result<Reply, Wrong> {
    match word {
        "Done" => Ok(Reply::Done),
        "Missing" => Ok(Reply::Missing),
        "Held" => Ok(Reply::Held),
        "Failed" => Ok(Reply::Failed),
        "NoMemory" => Ok(Reply::NoMemory),
        _ => Err(Wrong::Found(format!(in alloc; "no reply is '{word}'")?)),
    }
}

/// A reply in the words of a row.
pub fn reply_text(alloc: Global, reply: &Reply) -> Result<String, Wrong> {
    let mut words = Words::new(alloc);
    push_reply(&mut words, reply)?;
    Ok(words.into_text())
}

pub(crate) fn push_reply(words: &mut Words, reply: &Reply) -> Result<(), Wrong> {
    words.word(word_of(reply))?;
    match reply {
        Reply::Got(bytes) => words.bytes(bytes.as_slice()),
        Reply::Number(number) => words.number(*number),
        Reply::Keys(keys) => push_keys(words, keys.as_slice()),
        _ => Ok(()),
    }
}

fn word_of(reply: &Reply) -> &'static str {
    match reply {
        Reply::Done => "Done",
        Reply::Missing => "Missing",
        Reply::Held => "Held",
        Reply::Got(_) => "Got",
        Reply::Number(_) => "Number",
        Reply::Keys(_) => "Keys",
        Reply::Failed => "Failed",
        Reply::NoMemory => "NoMemory",
    }
}
