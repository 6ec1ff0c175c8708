use crc_small::{crc32, finish, start, update};
use row_text::{Sentence, Wrong, same};
use std::alloc::Global;

/// The first piece has at most so many bytes.
const LONGEST_PIECE: usize = 64;

/// `crc of BYTES is DIGITS`, the highest digit first: of all at once, and of two pieces
pub fn crc(row: &mut Sentence) -> Result<(), Wrong> {
    row.wants("of")?;
    let bytes = row.bytes()?;
    row.wants("is")?;
    let wanted = row.bytes()?;
    let alloc = row.alloc();
    same(alloc, &wanted, &crc32(&bytes).to_be_bytes())?;
    for len in 0..=bytes.len().min(LONGEST_PIECE) {
        in_pieces(alloc, &wanted, &bytes, len)?;
    }
    in_pieces(alloc, &wanted, &bytes, bytes.len() / 3)
}

fn in_pieces(alloc: Global, wanted: &[u8], bytes: &[u8], len: usize) -> Result<(), Wrong> {
    let Some((left, right)) = bytes.split_at_checked(len) else {
        return Err(Wrong::of(alloc, "there are fewer bytes"));
    };
    let sum = finish(update(update(start(), left), right));
    same(alloc, wanted, &sum.to_be_bytes())
}
