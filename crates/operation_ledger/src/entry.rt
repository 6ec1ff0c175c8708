//! The entry that a get or a put looks at, and what it reads as.

ghost use Rattle.std.specs.Prelude.{◌≡◌, ◌≢◌, None, IfOk, OnOk};
ghost use Rattle.file_log.specs.Disk.{bytes_in};
ghost use Rattle.log_summary.specs.Summary.{read_for};
ghost use Rattle.operation_ledger.specs.Entries.{entry_by, entry_of as the_entry, read_by};
ghost use Rattle.world_tables.specs.Tables.{disk_at};

use crate::tables::bytes_of;
use cache_types::{Bytes, Driver, Key, Layout, Name, NoMemory, Request, Store};
use item_frame::{ItemRefusal, read_blob};
use std::alloc::Global;
use world_tables::Tables;

/// The number of the file that a key's entry has in a store.
fn entry_in(tables: &Tables, store: Store, key: Key) -> Option<usize>
    ensures { result ≡ entry_by store.layout (disk_at tables.now) store.root key }
{
    match store.layout {
        Layout::Folder => tables.names.number_of(&Name::Entry {
            root: store.root,
            key,
        }),
        _ => None,
    }
}

/// The number of the file that the entry has at which a request looks.
pub fn entry_of(tables: &Tables, request: &Request) -> Option<usize>
    ensures { result ≡ the_entry (disk_at tables.now) request.now }
{
    match request {
        Request::Get {
            store,
            driver: _,
            key,
            ro: _,
        } => entry_in(tables, *store, *key),
        Request::Put {
            store,
            driver: _,
            key,
            meta: _,
            blob: _,
            limit: _,
        } => entry_in(tables, *store, *key),
        _ => None,
    }
}

/// Why a file reads as no blob: the bytes are no item, or memory ran out.
fn no_blob(refusal: ItemRefusal) -> Result<Option<Bytes>, NoMemory>
    ensures none { IfOk result (λ blob. blob ≡ None) }
    ensures memory { OnOk result (refusal ≢ ItemRefusal.NoMemory) }
{
    match refusal {
        ItemRefusal::NoMemory => Err(NoMemory),
        _ => Ok(None),
    }
}

/// The blob that a file reads as for a driver, if it does.
fn read_file(
    alloc: Global,
    tables: &Tables,
    driver: &Driver,
    file: Option<usize>,
) -> Result<Option<Bytes>, NoMemory>
    ensures { IfOk result (λ blob. blob ≡ read_for driver.now (bytes_in (disk_at tables.now).files file)) }
{
    let Some(file) = file else {
        return Ok(None);
    };
    match read_blob(alloc, driver, bytes_of(tables, file)) {
        Ok(blob) => Ok(Some(blob)),
        Err(refusal) => no_blob(refusal),
    }
}

/// The blob that a file reads as for the driver of a request.
pub fn read_entry(
    alloc: Global,
    tables: &Tables,
    request: &Request,
    file: Option<usize>,
) -> Result<Option<Bytes>, NoMemory>
    ensures { IfOk result (λ blob. blob ≡ read_by request.now (bytes_in (disk_at tables.now).files file)) }
{
    match request {
        Request::Get {
            store: _,
            driver,
            key: _,
            ro: _,
        } => read_file(alloc, tables, driver, file),
        Request::Put {
            store: _,
            driver,
            key: _,
            meta: _,
            blob: _,
            limit: _,
        } => read_file(alloc, tables, driver, file),
        _ => Ok(None),
    }
}
