use crate::drivers::taken;
use crate::expect::same_text;
use crate::texts::text;
use cache_key::{compute_key, key_of_text, key_text};
use cache_types::Key;
use report_text::key_line;
use row_text::{Sentence, Wrong, same, shown};
use std::alloc::Global;

/// `key TEXT is BYTES`, or `is none`
pub fn key(row: &mut Sentence) -> Result<(), Wrong> {
    let spelled = text(row)?;
    row.wants("is")?;
    if row.takes("none") {
        return no_key(row.alloc(), spelled.as_str());
    }
    let wanted = row.bytes()?;
    match key_of_text(spelled.as_str()) {
        Ok(key) => same(row.alloc(), &wanted, &key.bytes),
        Err(_) => Err(Wrong::of(row.alloc(), "it is no key")),
    }
}

fn no_key(alloc: Global, spelled: &str) -> Result<(), Wrong> {
    match key_of_text(spelled) {
        Ok(key) => {
            let got = shown(alloc, &key.bytes)?;
            Err(Wrong::Found(format!(in alloc; "got {got}")?))
        }
        Err(_) => Ok(()),
    }
}

/// `digits of BYTES is TEXT`, of the 20 bytes of a key; what `key` prints is that line
pub fn digits(row: &mut Sentence) -> Result<(), Wrong> {
    row.wants("of")?;
    let key = taken_key(row)?;
    row.wants("is")?;
    let wanted = text(row)?;
    let alloc = row.alloc();
    same_text(alloc, wanted.as_str(), key_text(alloc, &key)?.as_str())?;
    let line = format!(in alloc; "{wanted}\n")?;
    same(alloc, line.as_bytes(), key_line(alloc, &key)?.as_slice())
}

/// Takes the 20 bytes of a key.
fn taken_key(row: &mut Sentence) -> Result<Key, Wrong> {
    let bytes = row.bytes()?;
    match bytes.as_slice().first_chunk::<20>() {
        Some(first) if bytes.len() == 20 => Ok(Key { bytes: *first }),
        _ => Err(Wrong::of(row.alloc(), "20 bytes are wanted")),
    }
}

/// `sum for ID GPU FLAGS of BYTES is KEY`
pub fn sum(row: &mut Sentence) -> Result<(), Wrong> {
    row.wants("for")?;
    let driver = taken(row)?;
    row.wants("of")?;
    let content = row.bytes()?;
    row.wants("is")?;
    let wanted = row.bytes()?;
    let key = compute_key(row.alloc(), &driver, &content)?;
    same(row.alloc(), &wanted, &key.bytes)
}
