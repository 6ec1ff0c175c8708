ghost use Rattle.std.specs.Prelude.{◌≡◌, ◌≢◌, ◌≤◌, ◌↔◌, length, drop, IsOk, IfOk, OnOk, IfErr, Err};
ghost use Rattle.std.specs.Result.{result_err};
ghost use Rattle.cache_types.specs.Driver.{blob_of};
ghost use Rattle.item_frame.specs.Item.{IsItem, IsOnlyItem, Reads, ReadsAs};
ghost use Rattle.item_frame.specs.Refusals.{first_refusal, IsRefused, IsWrong};
ghost use Rattle.item_frame.specs.RoundTrip.{GivesBack};

use crate::fields::{behind_front, behind_type, meta_of, payload};
use crate::refusal::ItemRefusal;
use cache_types::{Bytes, Driver, MAX_ITEM, Meta};
use std::alloc::Global;

/// What an item holds beside its driver.
#[derive(Debug, Drop)]
pub struct Item {
    /// What is known of the blob's making.
    pub meta: Meta,
    /// The blob that was put.
    pub blob: Bytes,
}

/// Whether the bytes are an item of the driver, with nothing after it. It takes no memory.
///
/// # Errors
///
/// The first [`ItemRefusal`] that applies, never `NoMemory`.
pub fn check_item(driver: &Driver, bytes: &[u8]) -> Result<(), ItemRefusal>
    // It is right exactly where the bytes are an item of the driver; else the first refusal that applies.
    ensures right { IsOk result ↔ IsItem driver.now bytes.now }
    ensures first { result_err result ≡ first_refusal (blob_of driver.now) bytes.now }
    ensures memory { result ≢ Err ItemRefusal.NoMemory }

    // An item is no longer than the longest, and no item begins with another.
    ensures longest { OnOk result (length bytes.now ≤ MAX_ITEM) }
    ensures only { OnOk result (IsOnlyItem driver.now bytes.now) }
{
    driver.known();
    payload(driver.blob(), bytes)?;
    Ok(())
}

/// The meta and the blob of an item of the driver, in memory of their own.
///
/// # Errors
///
/// The first [`ItemRefusal`] that applies, as [`check_item`] gives it; `NoMemory`.
pub fn read_item(alloc: Global, driver: &Driver, bytes: &[u8]) -> Result<Item, ItemRefusal>
    // It is right exactly where the bytes are an item of the driver; else the first refusal that applies.
    ensures read { IfOk result (λ item. ReadsAs driver.now bytes.now item.meta item.blob) }
    ensures refused { IfErr result (λ refusal. IsRefused driver.now bytes.now refusal) }

    // What was written reads back.
    ensures back { GivesBack driver.now bytes.now result }
{
    let body = behind_front(driver.blob(), bytes)?;
    let payload = behind_type(body)?;
    let meta = meta_of(alloc, body)?;
    let blob = Bytes::of(alloc, payload)?;
    Ok(Item { meta, blob })
}

/// The blob of an item of the driver, in memory of its own.
///
/// # Errors
///
/// The first [`ItemRefusal`] that applies, as [`check_item`] gives it; `NoMemory`.
pub fn read_blob(alloc: Global, driver: &Driver, bytes: &[u8]) -> Result<Bytes, ItemRefusal>
    ensures read { IfOk result (λ blob. Reads driver.now bytes.now blob) }
    ensures refused { IfErr result (λ refusal. IsRefused driver.now bytes.now refusal) }
{
    let payload = payload(driver.blob(), bytes)?;
    let blob = Bytes::of(alloc, payload)?;
    Ok(blob)
}

/// Where the blob of an item of the driver begins: it is the last of the item's bytes.
fn blob_start(driver: &Driver, bytes: &[u8]) -> Result<u64, ItemRefusal>
    ensures read { IfOk result (λ start. Reads driver.now bytes.now (drop start bytes.now)) }
    ensures wrong { IfErr result (λ refusal. IsWrong driver.now bytes.now refusal) }
{
    let payload = payload(driver.blob(), bytes)?;
    Ok((bytes.len() - payload.len()) as u64)
}

/// The blob of an item of the driver, in the memory of the item, of which nothing is copied. Takes no memory.
///
/// # Errors
///
/// The first [`ItemRefusal`] that applies, as [`check_item`] gives it, never `NoMemory`; then the bytes are let go.
pub fn take_blob(driver: &Driver, bytes: Bytes) -> Result<Bytes, ItemRefusal>
    ensures read { IfOk result (λ blob. Reads driver.now bytes blob) }
    ensures wrong { IfErr result (λ refusal. IsWrong driver.now bytes refusal) }
{
    let start = blob_start(driver, bytes.as_slice())?;
    Ok(bytes.behind(start))
}
