use crate::disk::check_file;
use cache_types::Who;
use file_log::{Call, Reply};
use log_text::{call_of, reply_of, reply_text, who_of};
use memory_files::{Fault, MemFiles};
use row_text::{Sentence, Wrong, equal, name_of, same};
use std::alloc::Global;

/// The seat that makes calls by hand, where a row names none.
const USUAL: Who = Who {
    process: 1,
    seat: 0,
};

/// Files in memory on which a seat makes calls one by one.
pub fn first(alloc: Global) -> Result<MemFiles, Wrong> {
    Ok(MemFiles::new(alloc, USUAL)?)
}

/// `files P.S`: new files, which this seat calls
pub fn begin(files: &mut MemFiles, row: &mut Sentence) -> Result<(), Wrong> {
    let who = who_of(row)?;
    *files = MemFiles::new(row.alloc(), who)?;
    Ok(())
}

/// `call CALL answered REPLY`
pub fn call(files: &mut MemFiles, row: &mut Sentence) -> Result<(), Wrong> {
    let got = made(files, row)?;
    row.wants("answered")?;
    let wanted = reply_in(row)?;
    same(
        row.alloc(),
        wanted.as_str().as_bytes(),
        got.as_str().as_bytes(),
    )
}

/// Makes a call, and gives its reply in words.
fn made(files: &mut MemFiles, row: &mut Sentence) -> Result<String, Wrong> {
    let call = call_of(row)?;
    let reply = ask(row.alloc(), files, call)?;
    reply_text(row.alloc(), &reply)
}

fn reply_in(row: &mut Sentence) -> Result<String, Wrong> {
    let reply = reply_of(row)?;
    reply_text(row.alloc(), &reply)
}

/// Makes a call, where the seat may make it.
fn ask(alloc: Global, files: &mut MemFiles, call: Call) -> Result<Reply, Wrong> {
    if !files.may_make(&call) {
        return Err(Wrong::of(alloc, "the seat may not make this call"));
    }
    Ok(files.make(call))
}

/// `fault N [after N] [for memory]`: of the calls from now on the one of this number fails.
pub fn fault(files: &mut MemFiles, row: &mut Sentence, round: u64) -> Result<(), Wrong> {
    let call = crate::turns::number(row, round)?;
    let after = after_in(row)?;
    let memory = row.takes("for");
    if memory {
        row.wants("memory")?;
    }
    plan(
        row.alloc(),
        files,
        Fault {
            call,
            after,
            memory,
        },
    )
}

fn after_in(row: &mut Sentence) -> Result<u64, Wrong> {
    if row.takes("after") {
        return row.number();
    }
    Ok(0)
}

fn plan(alloc: Global, files: &mut MemFiles, fault: Fault) -> Result<(), Wrong> {
    let mut faults = Vec::new(alloc);
    faults.push(fault)?;
    files.fail_at(faults);
    Ok(())
}

/// `time N`: the clock of the files
pub fn time(files: &mut MemFiles, row: &mut Sentence) -> Result<(), Wrong> {
    files.set_clock(row.number()?);
    Ok(())
}

/// `halt after N then P.S`: the process is stopped behind so many items, and another seat goes on; or
/// `halt after N never P.S`, where that seat may not.
pub fn halt(files: &mut MemFiles, row: &mut Sentence, round: u64) -> Result<(), Wrong> {
    row.wants("after")?;
    let count = crate::turns::number(row, round)?;
    if row.takes("never") {
        return refuses(files, row, count);
    }
    row.wants("then")?;
    let next = who_of(row)?;
    *files = stopped(row.alloc(), files, count, next)?;
    Ok(())
}

fn refuses(files: &MemFiles, row: &mut Sentence, count: u64) -> Result<(), Wrong> {
    let next = who_of(row)?;
    if files.may_follow(count, next)? {
        return Err(Wrong::of(row.alloc(), "the seat may go on"));
    }
    Ok(())
}

fn stopped(alloc: Global, files: &MemFiles, count: u64, next: Who) -> Result<MemFiles, Wrong> {
    if !files.may_follow(count, next)? {
        return Err(Wrong::of(alloc, "the seat may not go on"));
    }
    Ok(files.stopped_after(count, next)?)
}

/// `made N items`: how long the log of the files is
pub fn made_items(files: &MemFiles, row: &mut Sentence) -> Result<(), Wrong> {
    let count = row.number()?;
    row.wants("items")?;
    equal(row.alloc(), "items", count, files.world().log_len())
}

/// `there NAME ..`: a file, as `file` says it of a schedule
pub fn there(files: &MemFiles, row: &mut Sentence) -> Result<(), Wrong> {
    let name = name_of(row)?;
    let found = files.world().file(&name)?;
    check_file(row, &found)
}
