//! The fields of an item, from left to right. Each function begins where its first field stands.

ghost use Rattle.std.specs.Prelude.{◌≡◌, ◌≤◌, ◌+◌, ◌*◌, length, IsOk, IfOk};
ghost use Rattle.item_frame.specs.Reading.{number, payload_at, keys_at, body_at, rest_at, item_at, keys_in, meta_at, Gives};

use crate::refusal::ItemRefusal;
use cache_types::{KEY_LEN, Key, KeyList, MAX_BLOB, MAX_KEYS, Meta, NoMemory};
use crc_small::crc32;
use std::alloc::Global;

/// The number in the first four bytes.
fn number_of(bytes: &[u8]) -> u32
    requires { 4 ≤ length bytes.now }
    ensures { result ≡ number bytes.now }
{
    u32::from_le_bytes([bytes[0], bytes[1], bytes[2], bytes[3]])
}

/// From the checksum on.
#[tactic(auto, unfolding(crate::specs::Reading::payload_at))]
fn checked(bytes: &[u8]) -> Result<&[u8], ItemRefusal>
    requires { 8 ≤ length bytes.now }
    ensures { Gives result (payload_at bytes.now) }
{
    let sum = number_of(bytes);
    let size = number_of(&bytes[4..]) as usize;
    let payload = &bytes[8..];
    if size != payload.len() || size > MAX_BLOB {
        return Err(ItemRefusal::BadSize);
    }
    if sum != crc32(payload) {
        return Err(ItemRefusal::BadSum);
    }
    Ok(payload)
}

/// From the count of the keys on.
#[tactic(auto, unfolding(crate::specs::Reading::keys_at))]
fn behind_keys(bytes: &[u8]) -> Result<&[u8], ItemRefusal>
    requires { 8 ≤ length bytes.now }
    ensures { Gives result (keys_at bytes.now) }
{
    let count = number_of(bytes) as usize;
    if count > MAX_KEYS || bytes.len() < 12 + KEY_LEN * count {
        return Err(ItemRefusal::BadCount);
    }
    checked(&bytes[4 + KEY_LEN * count..])
}

/// From the type on.
#[tactic(auto, unfolding(crate::specs::Reading::body_at))]
pub(crate) fn behind_type(bytes: &[u8]) -> Result<&[u8], ItemRefusal>
    requires { 12 ≤ length bytes.now }
    ensures { Gives result (body_at bytes.now) }
{
    match number_of(bytes) {
        0 => checked(&bytes[4..]),
        1 => behind_keys(&bytes[4..]),
        _ => Err(ItemRefusal::BadType),
    }
}

/// What stands behind the driver keys blob, from the type on.
#[tactic(auto, unfolding(crate::specs::Reading::rest_at))]
pub(crate) fn behind_front<'a>(front: &[u8], bytes: &'a [u8]) -> Result<&'a [u8], ItemRefusal>
    requires { length front.now ≤ 522 }
    ensures rest { Gives result (rest_at front.now bytes.now) }
    ensures long { IfOk result (λ rest. 12 ≤ length rest.now) }
{
    if bytes.len() < front.len() + 12 {
        return Err(ItemRefusal::Short);
    }
    if !bytes.starts_with(front) {
        return Err(ItemRefusal::OtherDriver);
    }
    Ok(&bytes[front.len()..])
}

/// The blob within an item's bytes.
pub(crate) fn payload<'a>(front: &[u8], bytes: &'a [u8]) -> Result<&'a [u8], ItemRefusal>
    requires { length front.now ≤ 522 }
    ensures { Gives result (item_at front.now bytes.now) }
{
    behind_type(behind_front(front, bytes)?)
}

/// The keys that stand in the bytes, one after another.
fn keys_of(alloc: Global, bytes: &[u8]) -> Result<KeyList, NoMemory>
    ensures { IfOk result (λ keys. keys ≡ keys_in bytes.now) }
{
    let mut keys = KeyList::new(alloc);
    let mut rest = bytes;
    while let Some((key, more)) = rest.split_first_chunk::<20>() {
        keys.push(Key { bytes: *key })?;
        rest = more;
    }
    Ok(keys)
}

/// The meta of an item that was found right, from its type on.
#[tactic(auto, unfolding(crate::specs::Reading::meta_at))]
pub(crate) fn meta_of(alloc: Global, bytes: &[u8]) -> Result<Meta, NoMemory>
    requires long { 12 ≤ length bytes.now }
    requires right { IsOk (body_at bytes.now) }
    ensures { IfOk result (λ meta. meta ≡ meta_at bytes.now) }
{
    if number_of(bytes) == 0 {
        return Ok(Meta::Unknown);
    }
    let count = number_of(&bytes[4..]) as usize;
    let keys = keys_of(alloc, &bytes[8..8 + KEY_LEN * count])?;
    Ok(Meta::Glsl(keys))
}
