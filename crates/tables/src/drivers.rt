use crate::expect::{holds, same_number};
use crate::texts::text;
use cache_types::{Bytes, Driver, DriverError, blob_len, driver_blob, front_len};
use row_text::{Sentence, Wrong, equal, same};
use std::alloc::Global;

/// The texts and flags of a driver, as a row has them.
#[derive(Drop)]
struct DriverText {
    id: String,
    gpu: String,
    flags: u64,
}

/// Takes `ID GPU FLAGS`.
fn asked(row: &mut Sentence) -> Result<DriverText, Wrong> {
    Ok(DriverText {
        id: text(row)?,
        gpu: text(row)?,
        flags: row.number()?,
    })
}

impl DriverText {
    fn driver(&self, alloc: Global) -> Result<Driver, DriverError> {
        Driver::new(alloc, self.id.as_str(), self.gpu.as_str(), self.flags)
    }
}

/// Takes `ID GPU FLAGS` of a driver that there is.
pub fn taken(row: &mut Sentence) -> Result<Driver, Wrong> {
    match asked(row)?.driver(row.alloc()) {
        Ok(driver) => Ok(driver),
        Err(_) => Err(Wrong::of(row.alloc(), "there is no such driver")),
    }
}

/// `driver ID GPU FLAGS has BYTES`, or `is refused`
pub fn driver(row: &mut Sentence) -> Result<(), Wrong> {
    match asked(row)?.driver(row.alloc()) {
        Ok(driver) => has_blob(row, &driver),
        Err(DriverError::BadText) => is_refused(row),
        Err(DriverError::NoMemory) => Err(Wrong::NoMemory),
    }
}

fn is_refused(row: &mut Sentence) -> Result<(), Wrong> {
    row.wants("is")?;
    row.wants("refused")
}

/// `has BYTES`
fn has_blob(row: &mut Sentence, driver: &Driver) -> Result<(), Wrong> {
    row.wants("has")?;
    let wanted = row.bytes()?;
    let alloc = row.alloc();
    same(alloc, &wanted, driver.blob())?;
    same(alloc, &wanted, driver_blob(alloc, driver)?.as_slice())?;
    equal(alloc, "bytes", wanted.len() as u64, blob_len(driver))
}

/// `front BYTES is of ID GPU FLAGS`, `front BYTES is N long`, `front BYTES is none`
pub fn front(row: &mut Sentence) -> Result<(), Wrong> {
    let bytes = row.bytes()?;
    row.wants("is")?;
    if row.takes("none") {
        return no_front(row.alloc(), &bytes);
    }
    if row.takes("of") {
        let driver = taken(row)?;
        return front_of(row.alloc(), &bytes, &driver);
    }
    let len = row.number()?;
    row.wants("long")?;
    long_front(row.alloc(), &bytes, len)
}

fn no_front(alloc: Global, bytes: &[u8]) -> Result<(), Wrong> {
    same_number(alloc, None, front_len(bytes))?;
    same_number(alloc, None, item_frame::driver_of(bytes))?;
    let found = Driver::of_front(Bytes::of(alloc, bytes)?);
    holds(alloc, "drivers", false, found.is_some())
}

fn front_of(alloc: Global, bytes: &[u8], driver: &Driver) -> Result<(), Wrong> {
    long_front(alloc, bytes, blob_len(driver))?;
    match Driver::of_front(Bytes::of(alloc, bytes)?) {
        Some(found) => holds(alloc, "such drivers", true, found.is(driver)),
        None => Err(Wrong::of(alloc, "no driver stands in front")),
    }
}

fn long_front(alloc: Global, bytes: &[u8], len: u64) -> Result<(), Wrong> {
    same_number(alloc, Some(len), front_len(bytes))?;
    same_number(alloc, Some(len), item_frame::driver_of(bytes))?;
    match Driver::of_front(Bytes::of(alloc, bytes)?) {
        Some(found) => same(alloc, first_of(alloc, bytes, len)?, found.blob()),
        None => Err(Wrong::of(alloc, "no driver stands in front")),
    }
}

/// So many bytes at the front of some.
pub fn first_of(alloc: Global, bytes: &[u8], len: u64) -> Result<&[u8], Wrong> {
    match bytes.get(..len as usize) {
        Some(front) => Ok(front),
        None => Err(Wrong::of(alloc, "there are fewer bytes")),
    }
}
