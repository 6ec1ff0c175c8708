use row_text::{Sentence, Wrong};
use std::alloc::Global;

/// Takes the next word as a text, in which `\` and two hexadecimal digits stand for a character below 128.
pub fn text(row: &mut Sentence) -> Result<String, Wrong> {
    let word = row.text()?;
    spelled(row.alloc(), word.as_str())
}

/// Takes the next words as texts, up to one of the words that end them.
pub fn texts_up_to(row: &mut Sentence, ends: &[&str]) -> Result<Vec<String>, Wrong> {
    let mut texts = Vec::new(row.alloc());
    for _ in 0..u64::MAX {
        if row.is_empty() || ends.iter().any(|end| row.has(end)) {
            break;
        }
        texts.push(text(row)?)?;
    }
    Ok(texts)
}

fn spelled(alloc: Global, word: &str) -> Result<String, Wrong> {
    let mut text = String::new(alloc);
    let mut plain = true;
    for piece in word.split('\\') {
        if plain {
            text.push_str(piece)?;
        } else {
            push_piece(alloc, &mut text, piece)?;
        }
        plain = false;
    }
    Ok(text)
}

/// Adds the character that two digits stand for, and what follows them.
fn push_piece(alloc: Global, text: &mut String, piece: &str) -> Result<(), Wrong> {
    let Some((digits, rest)) = piece.split_at_checked(2) else {
        return Err(Wrong::of(alloc, "two digits are wanted behind a '\\'"));
    };
    text.push(character(alloc, digits)?)?;
    text.push_str(rest)?;
    Ok(())
}

fn character(alloc: Global, digits: &str) -> Result<char, Wrong> {
    let mut bytes = [0; 1];
    match hex::decode_to_slice(digits, &mut bytes) {
        Ok(()) if bytes[0] < 128 => Ok(char::from(bytes[0])),
        _ => Err(Wrong::of(alloc, "two digits below 80 are wanted behind a '\\'")),
    }
}
