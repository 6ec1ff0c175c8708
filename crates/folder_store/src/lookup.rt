ghost use Rattle.std.specs.Prelude.{◌≡◌, ◌≤◌};
ghost use Rattle.file_log.specs.Seat.{IsIdle};
ghost use Rattle.folder_store.specs.Lookup.{LookedUp};

use crate::get::new_lookup;
use cache_types::{Answer, Driver, Key, Request};
use files_api::{Files, operate};
use std::alloc::Global;

/// Looks a key up in the folder store of a root, as one operation that was asked for so.
///
/// The answer is `Hit` with the blob that the store holds for the driver, `Miss` where it holds none,
/// `FilesFault` exactly where a call failed, or `NoMemory`. In a log that is told, the own items are one
/// operation of at most four calls in this root, or none where there was no memory to begin one; they change
/// no name and no file. A `Hit` rests on an own reading of all bytes of the entry's file, which read for the driver as the
/// blob, and a `Miss` on one whose bytes don't, or that the file wasn't there or too long for an item, whatever other seats do.
/// Among seats that keep the rules the items keep them, and among those `Miss` says that after
/// one of them the store held no such blob, also after stops and failed calls. Afterwards no operation
/// is open and every slot is empty, whatever the answer.
pub fn folder_get<F: Files>(
    alloc: Global,
    files: &mut F,
    root: u32,
    driver: Driver,
    key: Key,
    request: Request,
) -> Answer
    requires { IsIdle (F.seen files.old) }
    ensures looked { LookedUp (F.me files.old) request root driver key (F.history files.old) (F.history files.new) (F.faults files.old) (F.faults files.new) result }

    // The files may be used again.
    ensures idle { IsIdle (F.seen files.new) }
    ensures me { F.me files.new ≡ F.me files.old }
    ensures faults { F.faults files.old ≤ F.faults files.new }
{
    driver.known();
    files.known();
    operate(alloc, files, request, move |_request| {
        Ok(new_lookup(root, driver, key))
    })
}
