use crate::bytes::{blob_of, is_plain};
use crate::words::Words;
use cache_types::Driver;
use row_text::{Sentence, Wrong};
use std::alloc::Global;

/// The id of the driver that rows have where they name none.
const USUAL: &str = "d";

/// What follows the id in the blob of a driver for the GPU `g` without flags.
const TAIL: [u8; 12] = *b"\0g\0\x08\0\0\0\0\0\0\0\0";

/// Takes `[id WORD]`, or `driver` and the driver's blob.
pub(crate) fn driver_of(row: &mut Sentence) -> Result<Driver, Wrong> {
    if row.takes("driver") {
        return of_blob(row);
    }
    if row.takes("id") {
        let id = row.text()?;
        return of_id(row.alloc(), id.as_str());
    }
    of_id(row.alloc(), USUAL)
}

fn of_id(alloc: Global, id: &str) -> Result<Driver, Wrong> {
    match Driver::new(alloc, id, "g", 0) {
        Ok(driver) => Ok(driver),
        Err(_) => Err(Wrong::of(alloc, "no driver has this id")),
    }
}

fn of_blob(row: &mut Sentence) -> Result<Driver, Wrong> {
    let blob = blob_of(row)?;
    match Driver::of_front(blob) {
        Some(driver) => Ok(driver),
        None => Err(Wrong::of(row.alloc(), "a driver's blob is wanted")),
    }
}

pub(crate) fn push_driver(words: &mut Words, driver: &Driver) -> Result<(), Wrong> {
    let blob = driver.blob();
    match id_of(blob) {
        None => push_blob(words, blob),
        Some(id) if id == USUAL.as_bytes() => Ok(()),
        Some(id) => push_id(words, id),
    }
}

/// The id in the blob of a driver for the GPU `g` without flags, where it can stand in quotes.
fn id_of(blob: &[u8]) -> Option<&[u8]> {
    let id = blob.strip_prefix(&[1u8])?.strip_suffix(&TAIL)?;
    if is_plain(id) { Some(id) } else { None }
}

fn push_id(words: &mut Words, id: &[u8]) -> Result<(), Wrong> {
    words.word("id")?;
    words.bytes(id)
}

fn push_blob(words: &mut Words, blob: &[u8]) -> Result<(), Wrong> {
    words.word("driver")?;
    words.digits(blob)
}
