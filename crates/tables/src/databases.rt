use crate::expect::same_text;
use cache_types::Key;
use db_format::{
    DbRefusal, EntryHead, Head, IdxRow, ROW_LEN, key_hash, read_entry, read_head, read_row,
    write_entry_head, write_head, write_row,
};
use row_text::{Sentence, Wrong, equal, key_of, same};
use std::alloc::Global;

/// `head of IDENTITY is BYTES`, `head BYTES reads as VERSION IDENTITY`, `head BYTES is refused REFUSAL`
pub fn head(row: &mut Sentence) -> Result<(), Wrong> {
    if row.takes("of") {
        return written_head(row);
    }
    let bytes = row.bytes()?;
    match read_head(&bytes) {
        Ok(head) => reads_as_head(row, &head),
        Err(refusal) => is_refused(row, refusal),
    }
}

fn written_head(row: &mut Sentence) -> Result<(), Wrong> {
    let identity = row.number()?;
    row.wants("is")?;
    let wanted = row.bytes()?;
    same(row.alloc(), &wanted, &write_head(identity))
}

fn reads_as_head(row: &mut Sentence, head: &Head) -> Result<(), Wrong> {
    reads_as(row)?;
    has(row, "version", u64::from(head.version))?;
    has(row, "identity", head.identity)
}

/// `entry head of KEY SUM SIZE is BYTES`, `entry BYTES reads as KEY SUM SIZE`, `entry BYTES is refused REFUSAL`
pub fn entry(row: &mut Sentence) -> Result<(), Wrong> {
    if row.takes("head") {
        return written_entry_head(row);
    }
    let bytes = row.bytes()?;
    match read_entry(&bytes) {
        Ok(head) => reads_as_entry(row, &head),
        Err(refusal) => is_refused(row, refusal),
    }
}

fn written_entry_head(row: &mut Sentence) -> Result<(), Wrong> {
    row.wants("of")?;
    let key = key_of(row)?;
    let sum = row.number_u32()?;
    let size = row.number_u32()?;
    row.wants("is")?;
    let wanted = row.bytes()?;
    same(row.alloc(), &wanted, &write_entry_head(&key, sum, size))
}

fn reads_as_entry(row: &mut Sentence, head: &EntryHead) -> Result<(), Wrong> {
    reads_as(row)?;
    let key = key_of(row)?;
    same(row.alloc(), &key.bytes, &head.key.bytes)?;
    has(row, "sum", u64::from(head.sum))?;
    has(row, "size", u64::from(head.size))
}

/// `row of HASH SIZE ACCESS PLACE is BYTES`, `row BYTES reads as HASH SIZE ACCESS PLACE`
pub fn index_row(row: &mut Sentence) -> Result<(), Wrong> {
    if row.takes("of") {
        return written_row(row);
    }
    let bytes = row.bytes()?;
    match bytes.as_slice().first_chunk::<ROW_LEN>() {
        Some(whole) if bytes.len() == ROW_LEN => reads_as_row(row, &read_row(whole)),
        _ => Err(Wrong::of(row.alloc(), "28 bytes are wanted")),
    }
}

fn written_row(row: &mut Sentence) -> Result<(), Wrong> {
    let written = IdxRow {
        hash: row.number()?,
        size: row.number_u32()?,
        access: row.number()?,
        place: row.number()?,
    };
    row.wants("is")?;
    let wanted = row.bytes()?;
    same(row.alloc(), &wanted, &write_row(&written))
}

fn reads_as_row(row: &mut Sentence, read: &IdxRow) -> Result<(), Wrong> {
    reads_as(row)?;
    has(row, "hash", read.hash)?;
    has(row, "size", u64::from(read.size))?;
    has(row, "access", read.access)?;
    has(row, "place", read.place)
}

/// `hash of KEY is N`
pub fn hash(row: &mut Sentence) -> Result<(), Wrong> {
    row.wants("of")?;
    let key: Key = key_of(row)?;
    row.wants("is")?;
    has(row, "hash", key_hash(&key))
}

fn reads_as(row: &mut Sentence) -> Result<(), Wrong> {
    row.wants("reads")?;
    row.wants("as")
}

/// Takes the number that is wanted, and refuses another one.
fn has(row: &mut Sentence, what: &str, got: u64) -> Result<(), Wrong> {
    let wanted = row.number()?;
    equal(row.alloc(), what, wanted, got)
}

/// `is refused REFUSAL`, by the refusal's text
fn is_refused(row: &mut Sentence, refusal: DbRefusal) -> Result<(), Wrong> {
    let alloc: Global = row.alloc();
    let got = format!(in alloc; "{refusal}")?;
    row.wants("is")?;
    row.wants("refused")?;
    let wanted = row.text()?;
    same_text(alloc, wanted.as_str(), got.as_str())
}
