use crate::kind::{has_reply, is_kind, is_own, is_reply, kind_of};
use crate::seat::Seat;
use file_log::LogItem;
use row_text::{Sentence, Wrong, equal, name_of, same, shown};

/// `then NAME is absent`, `then NAME holds BYTES`, `then NAME has N bytes`
pub fn then(seat: &Seat, row: &mut Sentence) -> Result<(), Wrong> {
    let name = name_of(row)?;
    match seat.file(&name)? {
        None => no_file(row),
        Some(found) => file(row, found.as_slice()),
    }
}

/// `is absent`, of what isn't there.
pub fn no_file(row: &mut Sentence) -> Result<(), Wrong> {
    if row.takes("is") {
        return row.wants("absent");
    }
    Err(Wrong::of(row.alloc(), "there is no such file"))
}

/// `holds BYTES` or `has N bytes`, of a file that holds these.
pub fn file(row: &mut Sentence, found: &[u8]) -> Result<(), Wrong> {
    if row.takes("has") {
        let count = row.number()?;
        row.wants("bytes")?;
        return equal(row.alloc(), "bytes", count, found.len() as u64);
    }
    if row.takes("holds") {
        let wanted = row.bytes()?;
        return same(row.alloc(), &wanted, found);
    }
    let got = shown(row.alloc(), found)?;
    Err(Wrong::Found(format!(in row.alloc(); "got a file that holds {got}")?))
}

/// `made N KIND [answered REPLY]`: so many own items of the last call
pub fn made(seat: &Seat, row: &mut Sentence) -> Result<(), Wrong> {
    let wanted = row.number()?;
    let kind = kind(row)?;
    let reply = reply(row)?;
    let log = seat.log()?;
    let got = count(&log, seat, kind.as_str(), &reply).saturating_add(held(seat, &kind, &reply));
    equal(row.alloc(), kind.as_str(), wanted, got)
}

fn kind(row: &mut Sentence) -> Result<String, Wrong> {
    let kind = row.text()?;
    if is_kind(kind.as_str()) {
        return Ok(kind);
    }
    Err(Wrong::Found(format!(in row.alloc(); "no item is called '{kind}'")?))
}

/// `[answered REPLY]`
fn reply(row: &mut Sentence) -> Result<Option<String>, Wrong> {
    if !row.takes("answered") {
        return Ok(None);
    }
    let reply = row.text()?;
    if is_reply(reply.as_str()) {
        return Ok(Some(reply));
    }
    Err(Wrong::Found(format!(in row.alloc(); "no row asks for the reply '{reply}'")?))
}

/// The tries of a lock that are in no log count too.
fn held(seat: &Seat, kind: &str, reply: &Option<String>) -> u64 {
    let is_asked = match reply {
        None => true,
        Some(reply) => reply.as_str() == "Held",
    };
    if is_asked && kind == "TryLock" {
        seat.held()
    } else {
        0
    }
}

/// How many own items of the last call are of this kind.
fn count(log: &[LogItem], seat: &Seat, kind: &str, reply: &Option<String>) -> u64 {
    let mut count = 0u64;
    for item in own(log, seat.before) {
        if is_own(item, seat.process) && is_such(item, kind, reply) {
            count = count.saturating_add(1);
        }
    }
    count
}

/// The items from the last call on.
pub fn own(log: &[LogItem], before: u64) -> &[LogItem] {
    match log.get(before as usize..) {
        Some(items) => items,
        None => &[],
    }
}

fn is_such(item: &LogItem, kind: &str, reply: &Option<String>) -> bool {
    if kind_of(item) != kind {
        return false;
    }
    match reply {
        None => true,
        Some(reply) => has_reply(item, reply.as_str()),
    }
}
