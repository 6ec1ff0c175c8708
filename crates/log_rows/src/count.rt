use crate::place::place_of;
use file_log::LogItem;
use log_text::{item_of, text_of};
use row_text::{Sentence, Wrong, equal, same};
use std::alloc::Global;

/// A number of items, or a least one.
#[derive(Clone, Copy)]
pub struct Least {
    pub number: u64,
    pub more: bool,
}

impl Least {
    /// Takes `[at least] N`.
    pub fn of(row: &mut Sentence) -> Result<Least, Wrong> {
        let more = row.takes("at");
        if more {
            row.wants("least")?;
        }
        let number = row.number()?;
        Ok(Least { number, more })
    }

    /// Refuses another number of these.
    pub fn check(self, alloc: Global, what: &str, got: u64) -> Result<(), Wrong> {
        if self.more && got >= self.number {
            return Ok(());
        }
        equal(alloc, what, self.number, got)
    }
}

/// Refuses a log of another length.
pub fn check_length(alloc: Global, least: Least, log: &[LogItem]) -> Result<(), Wrong> {
    least.check(alloc, "items", log.len() as u64)
}

/// Takes `PLACE is ITEM`, and refuses another item there.
pub fn check_item(row: &mut Sentence, log: &[LogItem]) -> Result<(), Wrong> {
    let place = place_of(row, log)?;
    row.wants("is")?;
    let wanted = item_text(row)?;
    match log.get(place) {
        Some(item) => compare(row.alloc(), wanted.as_str(), item),
        None => Err(Wrong::of(row.alloc(), "the log has no such item")),
    }
}

fn item_text(row: &mut Sentence) -> Result<String, Wrong> {
    let item = item_of(row)?;
    text_of(row.alloc(), &item)
}

fn compare(alloc: Global, wanted: &str, item: &LogItem) -> Result<(), Wrong> {
    let got = text_of(alloc, item)?;
    same(alloc, wanted.as_bytes(), got.as_str().as_bytes())
}
