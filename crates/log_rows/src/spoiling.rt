use crate::change::{answer, drop_item, flip, give, insert, move_item, replace};
use crate::place::place_of;
use file_log::LogItem;
use log_text::{item_of, reply_of, who_of};
use row_text::{Sentence, Wrong};
use std::alloc::Global;

/// Takes how a log is spoilt, and spoils it: `PLACE with ITEM`, `PLACE away`, `PLACE after ITEM` (which comes before
/// it), `PLACE flipped` (another byte), `PLACE by SEAT`, `PLACE answered REPLY`, `PLACE moved to N`, or
/// `up to PLACE` (nothing comes behind it).
pub fn spoil(row: &mut Sentence, log: &mut Vec<LogItem>) -> Result<(), Wrong> {
    if row.takes("up") {
        return cut(row, log);
    }
    let place = place_of(row, log)?;
    let how = row.text()?;
    match how.as_str() {
        "with" => put(row, log, place),
        "away" => Ok(drop_item(log, place)),
        "after" => put_before(row, log, place),
        "moved" => put_elsewhere(row, log, place),
        how => change(row, how, at(row.alloc(), log, place)?),
    }
}

fn at(alloc: Global, log: &mut Vec<LogItem>, place: usize) -> Result<&mut LogItem, Wrong> {
    match log.as_mut_slice().get_mut(place) {
        Some(item) => Ok(item),
        None => Err(Wrong::of(alloc, "the log has no such item")),
    }
}

fn cut(row: &mut Sentence, log: &mut Vec<LogItem>) -> Result<(), Wrong> {
    row.wants("to")?;
    let place = place_of(row, log)?;
    log.truncate(place.saturating_add(1));
    Ok(())
}

fn put(row: &mut Sentence, log: &mut Vec<LogItem>, place: usize) -> Result<(), Wrong> {
    let item = item_of(row)?;
    replace(log, place, item);
    Ok(())
}

fn put_before(row: &mut Sentence, log: &mut Vec<LogItem>, place: usize) -> Result<(), Wrong> {
    let item = item_of(row)?;
    Ok(insert(log, place, item)?)
}

fn put_elsewhere(row: &mut Sentence, log: &mut Vec<LogItem>, place: usize) -> Result<(), Wrong> {
    row.wants("to")?;
    let to = row.number()?;
    Ok(move_item(log, place, to as usize)?)
}

/// Changes an item where it is.
fn change(row: &mut Sentence, how: &str, item: &mut LogItem) -> Result<(), Wrong> {
    match how {
        "flipped" => flip(row.alloc(), item),
        "by" => give(row.alloc(), item, who_of(row)?),
        "answered" => answer(row.alloc(), item, reply_of(row)?),
        _ => Err(Wrong::Found(format!(in row.alloc(); "nothing is spoilt by '{how}'")?)),
    }
}
