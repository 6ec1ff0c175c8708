use crate::scene::Scene;
use cache_types::{Bytes, Name, Request};
use file_log::LogItem;
use file_model::{World, disk_of, first_illegal};
use log_text::{blob_of, request_of};
use row_text::{Sentence, Wrong, equal, name_of, same};
use std::alloc::Global;
use world_holds::folder_gives;

/// The world after a log that begins on an empty disk, which has to be a legal one.
fn world_after(alloc: Global, log: &[LogItem]) -> Result<World, Wrong> {
    let start = World::new(alloc);
    match first_illegal(&start, log)? {
        None => Ok(disk_of(&start, log)?),
        Some(_) => Err(Wrong::of(alloc, "the log can't be")),
    }
}

/// `file NAME is absent`, `file NAME is BYTES`, or `file NAME has N bytes`
pub fn file(scene: &mut Scene, row: &mut Sentence) -> Result<(), Wrong> {
    scene.settle()?;
    let name = name_of(row)?;
    let found = file_after(row.alloc(), &scene.log, &name)?;
    check_file(row, &found)
}

fn file_after(alloc: Global, log: &[LogItem], name: &Name) -> Result<Option<Bytes>, Wrong> {
    let world = world_after(alloc, log)?;
    Ok(world.file(name)?)
}

/// Takes what a file has to be, and refuses another.
pub fn check_file(row: &mut Sentence, found: &Option<Bytes>) -> Result<(), Wrong> {
    if row.takes("has") {
        let count = row.number()?;
        row.wants("bytes")?;
        return equal(row.alloc(), "bytes", count, len_of(found));
    }
    row.wants("is")?;
    if row.takes("absent") {
        return is_none(row.alloc(), found);
    }
    let wanted = row.bytes()?;
    is_some(row.alloc(), found, &wanted)
}

fn len_of(found: &Option<Bytes>) -> u64 {
    match found {
        Some(bytes) => bytes.len(),
        None => 0,
    }
}

fn is_none(alloc: Global, found: &Option<Bytes>) -> Result<(), Wrong> {
    match found {
        None => Ok(()),
        Some(_) => Err(Wrong::of(alloc, "the file is there")),
    }
}

fn is_some(alloc: Global, found: &Option<Bytes>, wanted: &[u8]) -> Result<(), Wrong> {
    match found {
        Some(bytes) => same(alloc, wanted, bytes.as_slice()),
        None => Err(Wrong::of(alloc, "the file is absent")),
    }
}

/// `gives BYTES get KEY ..`, or `gives nothing get KEY ..`: what a store holds for a driver
pub fn gives(scene: &mut Scene, row: &mut Sentence) -> Result<(), Wrong> {
    scene.settle()?;
    let wanted = wanted_blob(row)?;
    let request = request_of(row)?;
    let found = given(row.alloc(), &scene.log, &request)?;
    match &wanted {
        Some(wanted) => is_some(row.alloc(), &found, wanted.as_slice()),
        None => is_none(row.alloc(), &found),
    }
}

fn wanted_blob(row: &mut Sentence) -> Result<Option<Bytes>, Wrong> {
    if row.takes("nothing") {
        return Ok(None);
    }
    Ok(Some(blob_of(row)?))
}

fn given(alloc: Global, log: &[LogItem], request: &Request) -> Result<Option<Bytes>, Wrong> {
    match request {
        Request::Get {
            store,
            driver,
            key,
            ..
        } => {
            let world = world_after(alloc, log)?;
            Ok(folder_gives(&world, store.root, driver, key)?)
        }
        _ => Err(Wrong::of(alloc, "a lookup is wanted here")),
    }
}
