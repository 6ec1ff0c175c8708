ghost use Rattle.std.specs.Prelude.{◌≡◌, ◌≤◌};
ghost use Rattle.file_log.specs.Seat.{IsIdle};
ghost use Rattle.op_union.specs.Requests.{IsBuilt, IsPut, Operates};

use cache_types::{Answer, Request};
use files_api::Files;
use folder_store::folder_get;
use std::alloc::Global;

/// Looks a key up in a folder store. The driver is copied, since the Begin keeps the request's.
pub fn get_from_folder<F: Files>(alloc: Global, files: &mut F, request: Request) -> Answer
    requires idle { IsIdle (F.seen files.old) }
    requires get { IsPut request → ⊥ }
    requires built { IsBuilt request }
    ensures done { Operates (F.me files.old) request (F.history files.old) (F.history files.new) (F.faults files.old) (F.faults files.new) result }
    ensures idle { IsIdle (F.seen files.new) }
    ensures me { F.me files.new ≡ F.me files.old }
    ensures faults { F.faults files.old ≤ F.faults files.new }
{
    let Request::Get {
        store,
        driver,
        key,
        ro: _,
    } = &request
    else {
        return Answer::NoMemory;
    };
    let (root, key) = (store.root, *key);
    let Ok(driver) = driver.copy() else {
        return Answer::NoMemory;
    };
    folder_get(alloc, files, root, driver, key, request)
}
