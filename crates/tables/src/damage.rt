use crate::drivers::taken;
use crate::expect::same_text;
use cache_types::{Bytes, Driver};
use item_frame::{ItemRefusal, check_item, read_any, read_blob, read_item, take_blob};
use row_text::{Sentence, Wrong};
use std::alloc::Global;

/// `REFUSAL for ID GPU FLAGS`, or `REFUSAL for any`
pub fn refused(row: &mut Sentence, bytes: &[u8]) -> Result<(), Wrong> {
    let wanted = row.text()?;
    row.wants("for")?;
    if row.takes("any") {
        let got = refusal_of(read_any(row.alloc(), bytes));
        return same_text(row.alloc(), wanted.as_str(), got);
    }
    let driver = taken(row)?;
    refused_for(row.alloc(), bytes, &driver, wanted.as_str())
}

fn refused_for(alloc: Global, bytes: &[u8], driver: &Driver, wanted: &str) -> Result<(), Wrong> {
    same_text(alloc, wanted, refusal_of(check_item(driver, bytes)))?;
    same_text(alloc, wanted, refusal_of(read_item(alloc, driver, bytes)))?;
    same_text(alloc, wanted, refusal_of(read_blob(alloc, driver, bytes)))?;
    let taken = take_blob(driver, Bytes::of(alloc, bytes)?);
    same_text(alloc, wanted, refusal_of(taken))
}

/// The name of a refusal, where there is one.
fn refusal_of<T: Drop>(read: Result<T, ItemRefusal>) -> &'static str {
    match read {
        Ok(_) => "none",
        Err(refusal) => name_of(refusal),
    }
}

/// The name of a refusal.
pub fn name_of(refusal: ItemRefusal) -> &'static str {
    match refusal {
        ItemRefusal::Short => "Short",
        ItemRefusal::OtherDriver => "OtherDriver",
        ItemRefusal::BadType => "BadType",
        ItemRefusal::BadCount => "BadCount",
        ItemRefusal::BadSize => "BadSize",
        ItemRefusal::BadSum => "BadSum",
        ItemRefusal::NoMemory => "NoMemory",
    }
}
