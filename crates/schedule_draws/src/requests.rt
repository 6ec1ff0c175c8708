use crate::draws::Draws;
use cache_types::{Bytes, Driver, Key, Layout, Meta, NoMemory, Request, RoPlan, Store, TextList};
use std::alloc::Global;

/// One of two folder stores.
fn store(draws: &mut Draws) -> Store {
    Store {
        root: draws.below(2) as u32,
        layout: Layout::Folder,
    }
}

/// One of two keys, whose entries are in one folder.
fn key(draws: &mut Draws) -> Key {
    let mut bytes = [0; 20];
    bytes[19] = draws.below(2) as u8;
    Key { bytes }
}

/// One of two drivers.
fn driver(alloc: Global, draws: &mut Draws) -> Result<Driver, NoMemory> {
    let id = if draws.below(2) == 0 { "d" } else { "e" };
    Driver::new(alloc, id, "g", 0).map_err(|_| NoMemory)
}

/// A blob of at most three bytes.
fn blob(alloc: Global, draws: &mut Draws) -> Result<Bytes, NoMemory> {
    let mut blob = Bytes::new(alloc);
    for _ in 0..draws.below(4) {
        blob.push(draws.below(256) as u8)?;
    }
    Ok(blob)
}

/// A put of a blob.
pub fn put(alloc: Global, draws: &mut Draws) -> Result<Request, NoMemory> {
    let (store, key) = (store(draws), key(draws));
    let driver = driver(alloc, draws)?;
    let blob = blob(alloc, draws)?;
    Ok(Request::Put {
        store,
        driver,
        key,
        meta: Meta::Unknown,
        blob,
        limit: 300,
    })
}

/// A lookup that asks no read-only database.
pub fn get(alloc: Global, draws: &mut Draws) -> Result<Request, NoMemory> {
    let (store, key) = (store(draws), key(draws));
    let driver = driver(alloc, draws)?;
    let ro = RoPlan {
        names: TextList::new(alloc),
        list: false,
    };
    Ok(Request::Get {
        store,
        driver,
        key,
        ro,
    })
}
