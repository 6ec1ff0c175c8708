use cache_types::{NoMemory, Who};
use file_log::{LogItem, Reply};
use row_text::Wrong;
use std::alloc::Global;

/// The same items in memory of their own.
pub fn copy_of(alloc: Global, log: &[LogItem]) -> Result<Vec<LogItem>, NoMemory> {
    let mut copies = Vec::with_capacity(alloc, log.len())?;
    for item in log {
        copies.push(item.copy(alloc)?)?;
    }
    Ok(copies)
}

/// Adds so many copies of an item.
pub fn add_copies(
    alloc: Global,
    log: &mut Vec<LogItem>,
    item: &LogItem,
    count: u64,
) -> Result<(), NoMemory> {
    for _ in 0..count {
        log.push(item.copy(alloc)?)?;
    }
    Ok(())
}

/// Puts an item in the place of another.
pub(crate) fn replace(log: &mut Vec<LogItem>, place: usize, item: LogItem) {
    if let Some(old) = log.as_mut_slice().get_mut(place) {
        *old = item;
    }
}

/// Takes an item away.
pub(crate) fn drop_item(log: &mut Vec<LogItem>, place: usize) {
    if place < log.len() {
        let _item = log.remove(place);
    }
}

/// Puts an item before another.
pub(crate) fn insert(log: &mut Vec<LogItem>, place: usize, item: LogItem) -> Result<(), NoMemory> {
    if place < log.len() {
        log.insert(place, item)?;
    }
    Ok(())
}

/// Takes an item away and puts it before the one that then has the other place.
pub(crate) fn move_item(log: &mut Vec<LogItem>, from: usize, to: usize) -> Result<(), NoMemory> {
    if from >= log.len() {
        return Ok(());
    }
    let item = log.remove(from);
    let to = to.min(log.len());
    log.insert(to, item)?;
    Ok(())
}

/// Changes the lowest bit of a byte that an item writes.
pub(crate) fn flip(alloc: Global, item: &mut LogItem) -> Result<(), Wrong> {
    match item {
        LogItem::Byte { value, .. } => {
            *value ^= 1;
            Ok(())
        }
        _ => Err(Wrong::of(alloc, "the item writes no byte")),
    }
}

/// Lets an item be another seat's.
pub(crate) fn give(alloc: Global, item: &mut LogItem, seat: Who) -> Result<(), Wrong> {
    match owner_of(item) {
        Some(who) => {
            *who = seat;
            Ok(())
        }
        None => Err(Wrong::of(alloc, "the item is no seat's")),
    }
}

fn owner_of(item: &mut LogItem) -> Option<&mut Who> {
    match item {
        LogItem::Taken { who, .. } => Some(who),
        LogItem::Begin { who, .. } => Some(who),
        LogItem::Did { who, .. } => Some(who),
        LogItem::Byte { who, .. } => Some(who),
        LogItem::Failed { who, .. } => Some(who),
        LogItem::Evict { who, .. } => Some(who),
        LogItem::End { who, .. } => Some(who),
        _ => None,
    }
}

/// Lets a call be answered otherwise.
pub(crate) fn answer(alloc: Global, item: &mut LogItem, reply: Reply) -> Result<(), Wrong> {
    match item {
        LogItem::Did { reply: old, .. } => {
            *old = reply;
            Ok(())
        }
        _ => Err(Wrong::of(alloc, "the item is no call")),
    }
}
