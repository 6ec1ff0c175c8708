use cache_types::Bytes;
use row_text::{Sentence, Word, Wrong};
use std::alloc::Global;

/// The most zeros that a row may ask for.
const MOST_ZEROS: u64 = 1 << 26;

/// Whether bytes can stand in quotes.
pub(crate) fn is_plain(bytes: &[u8]) -> bool {
    bytes
        .iter()
        .all(|byte| *byte >= 32 && *byte < 127 && *byte != b'"')
}

/// Takes bytes: a text in quotes, hexadecimal digits as one word, or `zeros` and a number.
pub fn blob_of(row: &mut Sentence) -> Result<Bytes, Wrong> {
    if row.takes("zeros") {
        let count = row.number()?;
        return zeros(row.alloc(), count);
    }
    let word = row.next()?;
    of_word(row.alloc(), &word)
}

fn of_word(alloc: Global, word: &Word) -> Result<Bytes, Wrong> {
    let text = word.text.as_str();
    if word.quoted {
        return Ok(Bytes::of(alloc, text.as_bytes())?);
    }
    match hex::decode(alloc, text) {
        Ok(bytes) => Ok(Bytes::from_vec(bytes)),
        Err(_) => Err(Wrong::Found(format!(in alloc;
            "'{text}' are no bytes: hexadecimal digits, a text in quotes, or zeros and a number"
        )?)),
    }
}

fn zeros(alloc: Global, count: u64) -> Result<Bytes, Wrong> {
    if count > MOST_ZEROS {
        return Err(Wrong::of(alloc, "so many zeros are too many"));
    }
    let mut bytes = Vec::new(alloc);
    bytes.resize(count as usize, 0)?;
    Ok(Bytes::from_vec(bytes))
}
