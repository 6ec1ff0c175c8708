ghost use Rattle.std.specs.Prelude.{◌≡◌, ◌≢◌, ◌↔◌, Ok};
ghost use Rattle.db_format.specs.Heads.{head_bytes, head_at, ReadsAsHead};

use crate::numbers::{first_u32, first_u64};
use crate::refusal::DbRefusal;
use byteorder::{ByteOrder, LittleEndian};

/// The length in bytes of a head.
pub const HEAD_LEN: usize = 20;

/// The version of the format that is written.
pub const VERSION: u32 = 1;

/// `MESA_DB` and a zero byte.
const MAGIC: [u8; 8] = [77, 69, 83, 65, 95, 68, 66, 0];

/// The head of a database's file, and of its index.
#[derive(Clone, Copy, Debug, PartialEq, Eq)]
pub struct Head {
    /// The version of the format: 1.
    pub version: u32,
    /// The same in both files of a database, and never 0: two files that have another don't belong together.
    pub identity: u64,
}

/// The head of this version with an identity.
pub fn write_head(identity: u64) -> [u8; HEAD_LEN]
    ensures written { result ≡ head_bytes (record { version = 1; identity = identity }) }
    ensures reads { identity ≢ 0 → ReadsAsHead result (record { version = 1; identity = identity }) }
{
    let mut bytes = [0; HEAD_LEN];
    bytes[..8].copy_from_slice(&MAGIC);
    LittleEndian::write_u32(&mut bytes[8..], VERSION);
    LittleEndian::write_u64(&mut bytes[12..], identity);
    bytes
}

/// The head in front of a file's bytes.
///
/// # Errors
///
/// The first of these that applies: [`Short`](DbRefusal::Short) below 20 bytes, [`BadMagic`](DbRefusal::BadMagic),
/// [`BadVersion`](DbRefusal::BadVersion) for another than 1, [`BadIdentity`](DbRefusal::BadIdentity) for 0.
pub fn read_head(bytes: &[u8]) -> Result<Head, DbRefusal>
    // It is the head exactly where the bytes begin with it; else the first refusal that applies.
    ensures read { (head : Head) → (result ≡ Ok head) ↔ ReadsAsHead bytes.now head }
    ensures first { result ≡ head_at bytes.now }
{
    head_in_front(bytes)
}

/// The head's fields, from left to right.
#[tactic(auto, unfolding(crate::specs::Heads::head_at))]
fn head_in_front(bytes: &[u8]) -> Result<Head, DbRefusal>
    ensures { result ≡ head_at bytes.now }
{
    if bytes.len() < HEAD_LEN {
        return Err(DbRefusal::Short);
    }
    if !bytes.starts_with(&MAGIC) {
        return Err(DbRefusal::BadMagic);
    }
    let version = first_u32(&bytes[8..]);
    if version != VERSION {
        return Err(DbRefusal::BadVersion);
    }
    let identity = first_u64(&bytes[12..]);
    if identity == 0 {
        return Err(DbRefusal::BadIdentity);
    }
    Ok(Head { version, identity })
}
