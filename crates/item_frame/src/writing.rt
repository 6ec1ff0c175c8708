ghost use Rattle.std.specs.Prelude.{◌≡◌, ◌+◌, ◌*◌, ◌↔◌, ◌<◌, ◌≤◌, ◌++◌, List, ℕ, length, IfOk, OnOk, IsErrOf};
ghost use Rattle.std.specs.Int.{w32, to_le_bytes};
ghost use Rattle.std.specs.List.{flat_map, AllByRecursion};
ghost use Rattle.item_frame.specs.Item.{meta_bytes, payload_bytes, item_of, IsMeta, ReadsAs};
ghost use Rattle.item_frame.specs.Writing.{key_count};

use crate::error::ItemError;
use byteorder::{ByteOrder, LittleEndian};
use cache_types::{Bytes, Driver, KEY_LEN, Key, MAX_BLOB, MAX_ITEM, MAX_KEYS, Meta, NoMemory};
use crc_small::crc32;
use std::alloc::Global;

/// How many keys a meta has.
fn count_of(meta: &Meta) -> usize
    ensures { result ≡ key_count meta.now }
{
    match meta {
        Meta::Unknown => 0,
        Meta::Glsl(keys) => keys.as_slice().len(),
    }
}

/// What is known of the keys of a slice: each has all its bytes.
fn known_keys(keys: &[Key])
    ensures { AllByRecursion (λ key. length key.bytes ≡ KEY_LEN) keys.now }
{
    let mut rest = keys;
    while let [key, tail @ ..] = rest {
        key.known();
        rest = tail;
    }
}

/// What is known of a meta: it can stand in an item unless it has too many keys.
pub fn known_meta(meta: &Meta)
    ensures { key_count meta.now ≤ MAX_KEYS → IsMeta meta.now }
{
    match meta {
        Meta::Unknown => {}
        Meta::Glsl(keys) => known_keys(keys.as_slice()),
    }
}

/// How many bytes a meta takes in an item.
fn meta_len(meta: &Meta) -> u64
    requires { IsMeta meta.now }
    ensures len { result ≡ length (meta_bytes meta.now) }
    ensures short { result ≤ 8 + KEY_LEN * MAX_KEYS }
{
    match meta {
        Meta::Unknown => 4,
        Meta::Glsl(keys) => 8 + (KEY_LEN * keys.as_slice().len()) as u64,
    }
}

/// The length in bytes of the item of a driver, a meta of at most [`MAX_KEYS`] keys and a blob of so many
/// bytes, at most [`MAX_BLOB`]. It takes no memory.
pub fn item_len(driver: &Driver, meta: &Meta, blob_len: u64) -> u64
    requires blob { blob_len ≤ MAX_BLOB }
    requires keys { key_count meta.now ≤ MAX_KEYS }
    ensures len { (blob : List ℕ) → length blob ≡ blob_len → result ≡ length (item_of driver.now meta.now blob) }
    ensures most { result ≤ MAX_ITEM }
{
    known_meta(meta);
    driver.blob().len() as u64 + meta_len(meta) + 8 + blob_len
}

/// A number as it stands in an item.
fn number_bytes(number: u32) -> [u8; 4]
    ensures { result ≡ to_le_bytes w32 number }
{
    let mut bytes = [0; 4];
    LittleEndian::write_u32(&mut bytes, number);
    bytes
}

fn put_keys(item: &mut Vec<u8>, keys: &[Key]) -> Result<(), NoMemory>
    ensures { OnOk result (item.new.items ≡ item.old.items ++ flat_map (λ key. key.bytes) keys.now) }
{
    for key in keys {
        item.extend_from_slice(&key.bytes)?;
    }
    Ok(())
}

fn put_meta(item: &mut Vec<u8>, meta: &Meta) -> Result<(), NoMemory>
    requires { key_count meta.now ≤ MAX_KEYS }
    ensures { OnOk result (item.new.items ≡ item.old.items ++ meta_bytes meta.now) }
{
    match meta {
        Meta::Unknown => item.extend_from_slice(&number_bytes(0))?,
        Meta::Glsl(keys) => {
            item.extend_from_slice(&number_bytes(1))?;
            item.extend_from_slice(&number_bytes(keys.as_slice().len() as u32))?;
            put_keys(item, keys.as_slice())?;
        }
    }
    Ok(())
}

/// Adds the checksum and the size of a blob.
fn put_sum(item: &mut Vec<u8>, blob: &[u8]) -> Result<(), NoMemory>
    requires { length blob.now ≤ MAX_BLOB }
    ensures { OnOk result (item.new.items ++ blob.now ≡ item.old.items ++ payload_bytes blob.now) }
{
    item.extend_from_slice(&number_bytes(crc32(blob)))?;
    item.extend_from_slice(&number_bytes(blob.len() as u32))?;
    Ok(())
}

/// Adds all that stands in front of a blob in its item.
fn put_head(item: &mut Vec<u8>, driver: &Driver, meta: &Meta, blob: &[u8]) -> Result<(), NoMemory>
    requires keys { key_count meta.now ≤ MAX_KEYS }
    requires blob { length blob.now ≤ MAX_BLOB }
    ensures { OnOk result (item.new.items ++ blob.now ≡ item.old.items ++ item_of driver.now meta.now blob.now) }
{
    item.extend_from_slice(driver.blob())?;
    put_meta(item, meta)?;
    put_sum(item, blob)
}

/// The item of a driver, a meta and a blob that there can be. It takes the blob's own memory where that has room in
/// front of the blob ([`Bytes::behind`]) for all that stands there in the item.
pub fn item_around(
    alloc: Global,
    driver: &Driver,
    meta: &Meta,
    blob: Bytes,
) -> Result<Bytes, NoMemory>
    requires keys { key_count meta.now ≤ MAX_KEYS }
    requires blob { length blob ≤ MAX_BLOB }
    ensures { IfOk result (λ item. item ≡ item_of driver.now meta.now blob) }
{
    let mut head = Vec::new(alloc);
    put_head(&mut head, driver, meta, blob.as_slice())?;
    blob.fronted(head.as_slice())
}

/// The bytes of an item that there can be.
fn spelled(alloc: Global, driver: &Driver, meta: &Meta, blob: &[u8]) -> Result<Vec<u8>, NoMemory>
    requires keys { key_count meta.now ≤ MAX_KEYS }
    requires blob { length blob.now ≤ MAX_BLOB }
    ensures { IfOk result (λ item. ReadsAs driver.now item.items meta.now blob.now) }
{
    known_meta(meta);
    let len = item_len(driver, meta, blob.len() as u64);
    let mut item = Vec::with_capacity(alloc, len as usize)?;
    put_head(&mut item, driver, meta, blob)?;
    item.extend_from_slice(blob)?;
    Ok(item)
}

/// The item of a driver, a meta and a blob.
///
/// # Errors
///
/// [`TooLarge`](ItemError::TooLarge) where the blob has more than [`MAX_BLOB`] bytes, else
/// [`TooManyKeys`](ItemError::TooManyKeys) where the meta has more than [`MAX_KEYS`] keys; `NoMemory`.
pub fn write_item(
    alloc: Global,
    driver: &Driver,
    meta: &Meta,
    blob: &[u8],
) -> Result<Bytes, ItemError>
    // What is written is the item, so it reads as this meta and blob.
    ensures written { IfOk result (λ item. item ≡ item_of driver.now meta.now blob.now) }
    ensures reads { IfOk result (λ item. ReadsAs driver.now item meta.now blob.now) }

    // It is refused exactly where the blob is too large, and then where there are too many keys.
    ensures large { (n : ℕ) → IsErrOf result (ItemError.TooLarge n) ↔ ((n ≡ length blob.now) × (MAX_BLOB < n)) }
    ensures many { (n : ℕ) → IsErrOf result (ItemError.TooManyKeys n)
        ↔ ((length blob.now ≤ MAX_BLOB) × (n ≡ key_count meta.now) × (MAX_KEYS < n)) }
{
    if blob.len() > MAX_BLOB {
        return Err(ItemError::TooLarge(blob.len() as u64));
    }
    let count = count_of(meta);
    if count > MAX_KEYS {
        return Err(ItemError::TooManyKeys(count as u64));
    }
    let bytes = spelled(alloc, driver, meta, blob)?;
    Ok(Bytes::from_vec(bytes))
}
