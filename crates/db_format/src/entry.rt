ghost use Rattle.std.specs.Prelude.{◌≡◌, ◌↔◌, ◌≤◌, ◌++◌, List, ℕ, length, take, Ok};
ghost use Rattle.crc_small.specs.Sum.{Sum};
ghost use Rattle.db_format.specs.Entries.{entry_head_bytes, entry_at, ReadsAsEntry};

use crate::numbers::first_u32;
use crate::refusal::DbRefusal;
use byteorder::{ByteOrder, LittleEndian};
use cache_types::Key;
use crc_small::crc32;

/// The length in bytes of what stands in front of an entry's item.
pub const ENTRY_HEAD_LEN: usize = 28;

/// What stands in front of an entry's item.
#[derive(Clone, Copy, Debug, PartialEq, Eq)]
pub struct EntryHead {
    /// What the item was put under.
    pub key: Key,
    /// The CRC-32 of the item.
    pub sum: u32,
    /// The length in bytes of the item.
    pub size: u32,
}

/// What stands in front of an item of a sum and a length.
pub fn write_entry_head(key: &Key, sum: u32, size: u32) -> [u8; ENTRY_HEAD_LEN]
    ensures written { result ≡ entry_head_bytes (record { key = key.now; sum = sum; size = size }) }
    ensures reads { (item rest : List ℕ) → Sum item ≡ sum → length item ≡ size
        → ReadsAsEntry (result ++ (item ++ rest)) (record { key = key.now; sum = sum; size = size }) }
{
    let mut bytes = [0; ENTRY_HEAD_LEN];
    LittleEndian::write_u32(&mut bytes[20..], sum);
    LittleEndian::write_u32(&mut bytes[24..], size);
    bytes[..20].copy_from_slice(&key.bytes);
    bytes
}

/// The head of the entry in front of some bytes, of which the whole entry has to be there.
///
/// # Errors
///
/// [`Short`](DbRefusal::Short) below 28 bytes, or below 28 and the item's length; then [`BadSum`](DbRefusal::BadSum)
/// where the sum isn't the CRC-32 of so many bytes after the head.
pub fn read_entry(bytes: &[u8]) -> Result<EntryHead, DbRefusal>
    // It is the head exactly where the bytes begin with its entry; else the first refusal that applies.
    ensures read { (head : EntryHead) → (result ≡ Ok head) ↔ ReadsAsEntry bytes.now head }
    ensures first { result ≡ entry_at bytes.now }
{
    entry_in_front(bytes)
}

/// The entry's fields, and whether its item is there and has the sum.
#[tactic(auto, unfolding(crate::specs::Entries::entry_at))]
fn entry_in_front(bytes: &[u8]) -> Result<EntryHead, DbRefusal>
    ensures { result ≡ entry_at bytes.now }
{
    if bytes.len() < ENTRY_HEAD_LEN {
        return Err(DbRefusal::Short);
    }
    let size = first_u32(&bytes[24..]);
    if bytes.len() < ENTRY_HEAD_LEN + size as usize {
        return Err(DbRefusal::Short);
    }
    let sum = first_u32(&bytes[20..]);
    let item = &bytes[ENTRY_HEAD_LEN..][..size as usize];
    if sum != crc32(item) {
        return Err(DbRefusal::BadSum);
    }
    let key = first_key(bytes);
    Ok(EntryHead { key, sum, size })
}

/// The key in front of some bytes.
fn first_key(bytes: &[u8]) -> Key
    requires { 20 ≤ length bytes.now }
    ensures { result ≡ record { bytes = take 20 bytes.now } }
{
    let mut key = [0; 20];
    key.copy_from_slice(&bytes[..20]);
    Key { bytes: key }
}
