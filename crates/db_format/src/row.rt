ghost use Rattle.std.specs.Prelude.{◌≡◌, ◌↔◌};
ghost use Rattle.db_format.specs.Rows.{row_bytes, row_of, hash_of, RowFits, ReadsAsRow};

use crate::numbers::{first_u32, first_u64};
use byteorder::{ByteOrder, LittleEndian};
use cache_types::Key;

/// The length in bytes of a row.
pub const ROW_LEN: usize = 28;

/// A row of a database's index: where an entry stands, and what is known of it there.
#[derive(Clone, Copy, Debug, PartialEq, Eq)]
pub struct IdxRow {
    /// The hash of the entry's key.
    pub hash: u64,
    /// The length in bytes of the entry's item.
    pub size: u32,
    /// When the entry was put or found last, in nanoseconds since 1970.
    pub access: u64,
    /// The place of the entry's first byte in the database's file.
    pub place: u64,
}

impl IdxRow {
    /// What is known of every row: its numbers fit their bytes.
    pub fn known(&self)
        ensures { RowFits self.now }
    {
        let _hash = self.hash;
        let _size = self.size;
        let _access = self.access;
        let _place = self.place;
    }
}

/// The hash of a key: its first eight bytes as a number. Two keys may have one hash.
pub fn key_hash(key: &Key) -> u64
    ensures { result ≡ hash_of key.now }
{
    first_u64(&key.bytes)
}

/// The bytes of a row.
pub fn write_row(row: &IdxRow) -> [u8; ROW_LEN]
    ensures written { result ≡ row_bytes row.now }
    ensures reads { ReadsAsRow result row.now }
{
    row.known();
    let mut bytes = [0; ROW_LEN];
    LittleEndian::write_u64(&mut bytes, row.hash);
    LittleEndian::write_u32(&mut bytes[8..], row.size);
    LittleEndian::write_u64(&mut bytes[12..], row.access);
    LittleEndian::write_u64(&mut bytes[20..], row.place);
    bytes
}

/// The row that so many bytes are: any are one.
pub fn read_row(bytes: &[u8; ROW_LEN]) -> IdxRow
    ensures read { (row : IdxRow) → (result ≡ row) ↔ ReadsAsRow bytes.now row }
    ensures fields { result ≡ row_of bytes.now }
{
    fields_of(bytes)
}

/// The row's fields, from left to right.
fn fields_of(bytes: &[u8; ROW_LEN]) -> IdxRow
    ensures { result ≡ row_of bytes.now }
{
    IdxRow {
        hash: first_u64(bytes),
        size: first_u32(&bytes[8..]),
        access: first_u64(&bytes[12..]),
        place: first_u64(&bytes[20..]),
    }
}
