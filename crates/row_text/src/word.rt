use crate::wrong::Wrong;
use std::alloc::Global;

/// A word of a row, or what stands in quotes.
#[derive(Drop)]
pub struct Word {
    /// The word, without quotes.
    pub text: String,
    /// Whether it stood in quotes.
    pub quoted: bool,
}

impl Word {
    /// The same in memory of its own.
    fn copy(&self) -> Result<Word, Wrong> {
        Ok(Word {
            text: self.text.clone()?,
            quoted: self.quoted,
        })
    }

    /// Whether it is this word, out of quotes.
    pub fn is(&self, text: &str) -> bool {
        !self.quoted && self.text.as_str() == text
    }
}

/// A name for words, which stand in its place in the rows below.
#[derive(Drop)]
pub(crate) struct Short {
    pub(crate) name: String,
    pub(crate) words: Vec<Word>,
}

/// The words of a line. What stands in quotes is one word, and a name stands for its words.
pub(crate) fn words_of(alloc: Global, line: &str, shorts: &[Short]) -> Result<Vec<Word>, Wrong> {
    let mut words = Vec::new(alloc);
    let mut quoted = false;
    for piece in line.split('"') {
        if quoted {
            push_quoted(alloc, &mut words, piece)?;
        } else {
            push_words(alloc, &mut words, piece, shorts)?;
        }
        quoted = !quoted;
    }
    if quoted {
        return Ok(words);
    }
    Err(Wrong::of(alloc, "a quote isn't closed"))
}

fn push_quoted(alloc: Global, words: &mut Vec<Word>, piece: &str) -> Result<(), Wrong> {
    let text = String::from_str(alloc, piece)?;
    words.push(Word { text, quoted: true })?;
    Ok(())
}

/// Adds the words of a text without quotes.
fn push_words(
    alloc: Global,
    words: &mut Vec<Word>,
    piece: &str,
    shorts: &[Short],
) -> Result<(), Wrong> {
    for text in piece.split_whitespace() {
        match find(shorts, text) {
            None => words.push(Word {
                text: String::from_str(alloc, text)?,
                quoted: false,
            })?,
            Some(short) => push_copies(words, &short.words)?,
        }
    }
    Ok(())
}

fn push_copies(words: &mut Vec<Word>, more: &[Word]) -> Result<(), Wrong> {
    for word in more {
        words.push(word.copy()?)?;
    }
    Ok(())
}

fn find<'a>(shorts: &'a [Short], name: &str) -> Option<&'a Short> {
    shorts.iter().find(|short| short.name.as_str() == name)
}
