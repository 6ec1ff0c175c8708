use crate::damage::refused;
use crate::drivers::{first_of, taken};
use crate::expect::{holds, same_number, same_text};
use cache_types::{Bytes, Driver, Key, KeyList, MAX_BLOB, MAX_KEYS, Meta};
use item_frame::{
    ItemError, ItemRefusal, check_item, driver_of, item_len, read_any, read_blob, read_item,
    take_blob, write_item,
};
use row_text::{Sentence, Wrong, equal, key_of, same};
use std::alloc::Global;

/// `item of ID GPU FLAGS [with KEY..] holds BLOB is BYTES`, or `is refused TooLarge N`, `is refused TooManyKeys N`;
/// `item BYTES reads for ID GPU FLAGS [with KEY..] as BLOB`, `item BYTES reads behind N [with KEY..] as BLOB`: for
/// the driver of the first N bytes;
/// `item BYTES is refused REFUSAL for ID GPU FLAGS`, `item BYTES is refused REFUSAL for any`: whatever the driver
pub fn item(row: &mut Sentence) -> Result<(), Wrong> {
    if row.takes("of") {
        return made(row);
    }
    let bytes = row.bytes()?;
    if row.takes("reads") {
        return reads(row, &bytes);
    }
    row.wants("is")?;
    row.wants("refused")?;
    refused(row, &bytes)
}

/// Takes `[with KEY..]`, up to a word that ends the keys.
fn meta_of(row: &mut Sentence, end: &str) -> Result<Meta, Wrong> {
    if !row.takes("with") {
        return Ok(Meta::Unknown);
    }
    let mut keys = KeyList::new(row.alloc());
    for _ in 0..u64::MAX {
        if row.is_empty() || row.has(end) {
            break;
        }
        keys.push(key_of(row)?)?;
    }
    Ok(Meta::Glsl(keys))
}

fn made(row: &mut Sentence) -> Result<(), Wrong> {
    let driver = taken(row)?;
    let meta = meta_of(row, "holds")?;
    row.wants("holds")?;
    let blob = row.bytes()?;
    row.wants("is")?;
    if row.takes("refused") {
        return no_item(row, &driver, &meta, &blob);
    }
    let wanted = row.bytes()?;
    is_written(row.alloc(), &driver, &meta, &blob, &wanted)
}

fn no_item(row: &mut Sentence, driver: &Driver, meta: &Meta, blob: &[u8]) -> Result<(), Wrong> {
    let (what, count) = match write_item(row.alloc(), driver, meta, blob) {
        Ok(_) => ("none", 0),
        Err(ItemError::TooLarge(count)) => ("TooLarge", count),
        Err(ItemError::TooManyKeys(count)) => ("TooManyKeys", count),
        Err(ItemError::NoMemory) => return Err(Wrong::NoMemory),
    };
    let wanted = row.text()?;
    same_text(row.alloc(), wanted.as_str(), what)?;
    equal(row.alloc(), what, row.number()?, count)
}

fn is_written(
    alloc: Global,
    driver: &Driver,
    meta: &Meta,
    blob: &[u8],
    wanted: &[u8],
) -> Result<(), Wrong> {
    match write_item(alloc, driver, meta, blob) {
        Ok(item) => same(alloc, wanted, item.as_slice())?,
        Err(_) => return Err(Wrong::of(alloc, "there is no such item")),
    }
    let len = length_of(driver, meta, blob.len());
    same_number(alloc, Some(wanted.len() as u64), len)
}

/// The length of an item that there can be.
fn length_of(driver: &Driver, meta: &Meta, blob_len: usize) -> Option<u64> {
    if blob_len > MAX_BLOB {
        return None;
    }
    match meta {
        Meta::Unknown => Some(item_len(driver, meta, blob_len as u64)),
        Meta::Glsl(keys) if keys.as_slice().len() <= MAX_KEYS => {
            Some(item_len(driver, meta, blob_len as u64))
        }
        Meta::Glsl(_) => None,
    }
}

/// What an item is wanted to hold.
#[derive(Drop)]
struct Held {
    meta: Meta,
    blob: Vec<u8>,
}

/// Takes `[with KEY..] as BLOB`.
fn held_of(row: &mut Sentence) -> Result<Held, Wrong> {
    let meta = meta_of(row, "as")?;
    row.wants("as")?;
    let blob = row.bytes()?;
    Ok(Held { meta, blob })
}

impl Held {
    /// Refuses an item that holds something else.
    fn is_in(&self, alloc: Global, meta: &Meta, blob: &[u8]) -> Result<(), Wrong> {
        same(alloc, &self.blob, blob)?;
        holds(
            alloc,
            "such metas",
            true,
            keys_in(meta) == keys_in(&self.meta),
        )
    }
}

fn keys_in(meta: &Meta) -> Option<&[Key]> {
    match meta {
        Meta::Unknown => None,
        Meta::Glsl(keys) => Some(keys.as_slice()),
    }
}

fn reads(row: &mut Sentence, bytes: &[u8]) -> Result<(), Wrong> {
    if row.takes("behind") {
        let len = row.number()?;
        let held = held_of(row)?;
        return reads_behind(row.alloc(), bytes, len, &held);
    }
    row.wants("for")?;
    let driver = taken(row)?;
    let held = held_of(row)?;
    reads_for(row.alloc(), bytes, &driver, &held)
}

fn reads_for(alloc: Global, bytes: &[u8], driver: &Driver, held: &Held) -> Result<(), Wrong> {
    holds(alloc, "items", true, check_item(driver, bytes).is_ok())?;
    match read_blob(alloc, driver, bytes) {
        Ok(blob) => same(alloc, &held.blob, blob.as_slice())?,
        Err(refusal) => return Err(told(alloc, refusal)),
    }
    match take_blob(driver, Bytes::of(alloc, bytes)?) {
        Ok(blob) => same(alloc, &held.blob, blob.as_slice())?,
        Err(refusal) => return Err(told(alloc, refusal)),
    }
    match read_item(alloc, driver, bytes) {
        Ok(item) => held.is_in(alloc, &item.meta, item.blob.as_slice()),
        Err(refusal) => Err(told(alloc, refusal)),
    }
}

fn reads_behind(alloc: Global, bytes: &[u8], len: u64, held: &Held) -> Result<(), Wrong> {
    same_number(alloc, Some(len), driver_of(bytes))?;
    let front = first_of(alloc, bytes, len)?;
    match read_any(alloc, bytes) {
        Ok(owned) => {
            same(alloc, front, owned.driver.blob())?;
            held.is_in(alloc, &owned.item.meta, owned.item.blob.as_slice())
        }
        Err(refusal) => Err(told(alloc, refusal)),
    }
}

fn told(alloc: Global, refusal: ItemRefusal) -> Wrong {
    match format!(in alloc; "got {}", crate::damage::name_of(refusal)) {
        Ok(text) => Wrong::Found(text),
        Err(_) => Wrong::NoMemory,
    }
}
