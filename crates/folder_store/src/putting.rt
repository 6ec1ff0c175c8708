ghost use Rattle.std.specs.Prelude.{◌≡◌, ◌≤◌, ℕ, IfOk};
ghost use Rattle.cache_types.specs.declared.key.Key.{Key as KeyOf};
ghost use Rattle.file_log.specs.Seat.{IsIdle};
ghost use Rattle.folder_store.specs.Put.{AsksPut, PutDone, blob_in, item_in};
ghost use Rattle.folder_store.specs.PutPhases.{IsNewPut};

use crate::put::FolderPut;
use cache_types::{Answer, Bytes, Driver, Key, NoMemory, Request};
use files_api::{Files, operate};
use item_frame::item_around;
use std::alloc::Global;
use std::mem;

/// The item of a put, in the memory of the blob, which is taken out of the request.
fn take_item(alloc: Global, driver: &Driver, request: &mut Request) -> Result<Bytes, NoMemory>
    requires { (root : ℕ) × (key : KeyOf) × AsksPut request.old root driver.now key (item_in request.old) }
    ensures { IfOk result (λ item. item ≡ item_in request.old) }
{
    let Request::Put { meta, blob, .. } = request else {
        return Err(NoMemory);
    };
    let blob = mem::replace(blob, Bytes::new(alloc));
    item_around(alloc, driver, meta, blob)
}

/// The machine of a put.
fn made(
    alloc: Global,
    root: u32,
    driver: Driver,
    key: Key,
    mut request: Request,
) -> Result<FolderPut, NoMemory>
    requires { AsksPut request root driver key (item_in request) }
    ensures { IfOk result (IsNewPut root driver key (item_in request)) }
{
    let item = take_item(alloc, &driver, &mut request)?;
    Ok(FolderPut::new(alloc, root, driver, key, item))
}

/// Puts a blob into the folder store of a root, as one operation that was asked for so.
///
/// The answer is `Kept` where the store holds a blob for the driver and key, `Stored` where it held none and
/// now holds this one, `Busy` exactly where 64 tries in a row of the lock of the key's folder were answered
/// that another seat holds it, `FilesFault` exactly where a call failed, or `NoMemory`; after the last two
/// the entry is as it was. A put that is busy changes nothing, but that the lock file may be there, empty.
///
/// Whatever other seats do: it ends in `Kept` only where it was told the length of the entry's file, asked for
/// so many bytes of it, and got an item of the driver; in `Stored` exactly where it gave its temporary file the
/// entry's name, and where others leave the entry and that file alone the entry then is the whole item, its
/// meta too. The 64 tries are of one file, which it opened as the folder's lock file, and between any two of
/// them it pauses. Each own item changes at most this: the lock file comes, the temporary file comes and gets
/// bytes, and the entry by the renaming of that. Once it has changed a file it ends in `NoMemory` only where a
/// call was refused memory.
///
/// Names and files are changed under that lock alone, as long as other seats leave the lock file its name. In
/// a log that is told, the own items are one operation of at most 143 calls in this root, or none where there
/// was no memory to begin one. Among seats that keep the rules they keep them, and each `Evict` names what
/// stands in front of the key's entry, which the put then replaces, unless it ends in `FilesFault` or
/// `NoMemory`; one that ends in `Kept` or `Busy` tells none. Afterwards no operation is open and every slot is
/// empty, whatever the answer.
pub fn folder_put<F: Files>(
    alloc: Global,
    files: &mut F,
    root: u32,
    driver: Driver,
    key: Key,
    request: Request,
) -> Answer
    requires idle { IsIdle (F.seen files.old) }
    requires asks { AsksPut request root driver key (item_in request) }
    ensures done { PutDone (F.me files.old) request root driver key (blob_in request) (F.history files.old) (F.history files.new) (F.faults files.old) (F.faults files.new) result }

    // The files may be used again.
    ensures idle { IsIdle (F.seen files.new) }
    ensures me { F.me files.new ≡ F.me files.old }
    ensures faults { F.faults files.old ≤ F.faults files.new }
{
    driver.known();
    files.known();
    operate(alloc, files, request, move |request| {
        made(alloc, root, driver, key, request)
    })
}
