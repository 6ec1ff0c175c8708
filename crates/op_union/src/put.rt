ghost use Rattle.std.specs.Prelude.{◌≡◌, ◌≤◌};
ghost use Rattle.file_log.specs.Seat.{IsIdle};
ghost use Rattle.op_union.specs.Requests.{IsBuilt, IsPut, Operates};

use crate::large::refuse_large;
use cache_types::{Answer, MAX_BLOB, Request};
use files_api::Files;
use folder_store::folder_put;
use item_frame::known_meta;
use std::alloc::Global;

/// Puts a blob into a folder store. The driver is copied, since the request's stays in it for the Begin; where there is
/// no memory for that nothing is told.
pub fn put_in_folder<F: Files>(alloc: Global, files: &mut F, request: Request) -> Answer
    requires idle { IsIdle (F.seen files.old) }
    requires put { IsPut request }
    requires built { IsBuilt request }
    ensures done { Operates (F.me files.old) request (F.history files.old) (F.history files.new) (F.faults files.old) (F.faults files.new) result }
    ensures idle { IsIdle (F.seen files.new) }
    ensures me { F.me files.new ≡ F.me files.old }
    ensures faults { F.faults files.old ≤ F.faults files.new }
{
    let Request::Put {
        store,
        driver,
        key,
        meta,
        blob,
        limit: _,
    } = &request
    else {
        return Answer::NoMemory;
    };
    let (root, key, len) = (store.root, *key, blob.len());
    if len > MAX_BLOB as u64 {
        return refuse_large(alloc, files, request, len);
    }
    known_meta(meta);
    let Ok(driver) = driver.copy() else {
        return Answer::NoMemory;
    };
    folder_put(alloc, files, root, driver, key, request)
}
