//! Items of whatever driver: the keys blob in front says which.

ghost use Rattle.std.specs.Prelude.{◌≡◌, ◌⊎◌, ◌↔◌, length, IfOk, IfErr, IfSome, IsNone, Some};
ghost use Rattle.cache_types.specs.Driver.{DriverKeys, blob_of, IsDriver, Fronts, HasNoFront};
ghost use Rattle.item_frame.specs.Item.{ReadsAs};
ghost use Rattle.item_frame.specs.AnyItem.{IsRefusedForAll};
ghost use Rattle.item_frame.specs.RoundTrip.{GivesAnyBack};

use crate::item::{Item, read_item};
use crate::refusal::ItemRefusal;
use cache_types::{Bytes, Driver, front_len};
use std::alloc::Global;

/// The length in bytes of the shortest item: the shortest driver keys blob, a type, a checksum and a size.
const MIN_ITEM: usize = 24;

/// What an item holds, with its driver.
#[derive(Debug, Drop)]
pub struct Owned {
    /// The driver whose keys blob stands in front.
    pub driver: Driver,
    /// What stands behind it.
    pub item: Item,
}

/// The length in bytes of the driver keys blob in front of the bytes, 12 to 522, and None exactly where no
/// driver's keys blob stands there. It takes no memory.
pub fn driver_of(bytes: &[u8]) -> Option<u64>
    ensures found { IfSome result (λ n. (d : DriverKeys) × Fronts bytes.now d × (n ≡ length (blob_of d))) }
    ensures only { (d : DriverKeys) → Fronts bytes.now d → result ≡ Some (length (blob_of d)) }
    ensures none { IsNone result ↔ HasNoFront bytes.now }
{
    front_len(bytes)
}

/// The driver whose keys blob stands in front of the bytes, in memory of its own.
fn front_driver(alloc: Global, bytes: &[u8]) -> Result<Driver, ItemRefusal>
    ensures found { IfOk result (λ d. Fronts bytes.now d) }
    ensures refused { IfErr result (λ refusal. (refusal ≡ ItemRefusal.NoMemory)
        ⊎ ((refusal ≡ ItemRefusal.OtherDriver) × HasNoFront bytes.now)) }
{
    let Some(len) = driver_of(bytes) else {
        return Err(ItemRefusal::OtherDriver);
    };
    let front = Bytes::of(alloc, &bytes[..len as usize])?;
    match Driver::of_front(front) {
        Some(driver) => Ok(driver),
        None => Err(ItemRefusal::OtherDriver),
    }
}

/// The item that the bytes are, of whatever driver, in memory of its own.
///
/// # Errors
///
/// The first that applies: `Short` where there are fewer than 24 bytes, `OtherDriver` where no driver's
/// keys blob stands in front, else the [`ItemRefusal`] that [`check_item`](crate::check_item) gives for the
/// driver whose does; `NoMemory`.
pub fn read_any(alloc: Global, bytes: &[u8]) -> Result<Owned, ItemRefusal>
    // It is right exactly where the bytes are an item of some driver; else the first refusal that applies.
    ensures driver { IfOk result (λ owned. IsDriver owned.driver) }
    ensures read { IfOk result (λ owned. ReadsAs owned.driver bytes.now owned.item.meta owned.item.blob) }
    ensures refused { IfErr result (λ refusal. IsRefusedForAll bytes.now refusal) }

    // What was written for some driver reads back.
    ensures back { GivesAnyBack bytes.now result }
{
    if bytes.len() < MIN_ITEM {
        return Err(ItemRefusal::Short);
    }
    let driver = front_driver(alloc, bytes)?;
    driver.known();
    let item = read_item(alloc, &driver, bytes)?;
    Ok(Owned { driver, item })
}
