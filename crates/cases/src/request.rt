use crate::kind::is_own;
use crate::looks::own;
use crate::seat::Seat;
use cache_types::{Driver, Key, Meta, Request};
use file_log::LogItem;
use row_text::{Sentence, Wrong, equal, key_of};

/// `asked Put`, `asked Get`, `asked nothing`, `asked limit N`, `asked sources N`, `asked key KEY`,
/// `asked driver ID GPU FLAGS`: what the last call's Begin says
pub fn asked(seat: &Seat, row: &mut Sentence) -> Result<(), Wrong> {
    let log = seat.log()?;
    match request_in(&log, seat) {
        None => no_request(row),
        Some(request) => request_is(request, row),
    }
}

fn request_in<'a>(log: &'a [LogItem], seat: &Seat) -> Option<&'a Request> {
    for item in own(log, seat.before) {
        if let LogItem::Begin { who, request } = item
            && who.process == seat.process
        {
            return Some(request);
        }
    }
    None
}

fn no_request(row: &mut Sentence) -> Result<(), Wrong> {
    if row.takes("nothing") {
        return Ok(());
    }
    Err(Wrong::of(row.alloc(), "nothing was asked"))
}

fn request_is(request: &Request, row: &mut Sentence) -> Result<(), Wrong> {
    match request {
        Request::Put {
            driver,
            key,
            meta,
            limit,
            ..
        } => put_is(row, driver, key, sources_in(meta), *limit),
        Request::Get { driver, key, .. } => get_is(row, driver, key),
        _ => Err(Wrong::of(row.alloc(), "neither a put nor a lookup was asked")),
    }
}

/// How many keys of sources there are.
fn sources_in(meta: &Meta) -> u64 {
    match meta {
        Meta::Unknown => 0,
        Meta::Glsl(keys) => keys.as_slice().len() as u64,
    }
}

fn put_is(
    row: &mut Sentence,
    driver: &Driver,
    key: &Key,
    sources: u64,
    limit: u64,
) -> Result<(), Wrong> {
    if row.takes("Put") {
        return Ok(());
    }
    if row.takes("limit") {
        let wanted = row.number()?;
        return equal(row.alloc(), "bytes", wanted, limit);
    }
    if row.takes("sources") {
        let wanted = row.number()?;
        return equal(row.alloc(), "keys", wanted, sources);
    }
    names_are(row, driver, key)
}

fn get_is(row: &mut Sentence, driver: &Driver, key: &Key) -> Result<(), Wrong> {
    if row.takes("Get") {
        return Ok(());
    }
    names_are(row, driver, key)
}

/// `key KEY`, `driver ID GPU FLAGS`
fn names_are(row: &mut Sentence, driver: &Driver, key: &Key) -> Result<(), Wrong> {
    if row.takes("key") {
        let wanted = key_of(row)?;
        return is_true(row, wanted == *key, "another key was asked");
    }
    row.wants("driver")?;
    let wanted = driver_of(row)?;
    is_true(row, wanted.is(driver), "another driver was asked")
}

fn is_true(row: &Sentence, is_so: bool, wrong: &str) -> Result<(), Wrong> {
    if is_so {
        return Ok(());
    }
    Err(Wrong::of(row.alloc(), wrong))
}

/// `ID GPU FLAGS`
fn driver_of(row: &mut Sentence) -> Result<Driver, Wrong> {
    let id = row.text()?;
    let gpu = row.text()?;
    let flags = row.number()?;
    match Driver::new(row.alloc(), id.as_str(), gpu.as_str(), flags) {
        Ok(driver) => Ok(driver),
        Err(_) => Err(Wrong::of(row.alloc(), "this is no driver")),
    }
}

/// `evicted KEY of ID GPU FLAGS`: the last call told once that this entry goes
pub fn evicted(seat: &Seat, row: &mut Sentence) -> Result<(), Wrong> {
    let key = key_of(row)?;
    row.wants("of")?;
    let driver = driver_of(row)?;
    let log = seat.log()?;
    let mut told = 0u64;
    for item in own(&log, seat.before) {
        if is_own(item, seat.process) && is_evict(item, &key, &driver) {
            told = told.saturating_add(1);
        }
    }
    equal(row.alloc(), "such Evict", 1, told)
}

fn is_evict(item: &LogItem, wanted: &Key, gone: &Driver) -> bool {
    match item {
        LogItem::Evict { driver, key, .. } => *key == *wanted && driver.is(gone),
        _ => false,
    }
}
