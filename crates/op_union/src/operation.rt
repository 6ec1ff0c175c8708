ghost use Rattle.std.specs.Prelude.{◌≡◌, ◌≤◌, ◌↔◌, IsTrue};
ghost use Rattle.file_log.specs.Seat.{IsIdle};
ghost use Rattle.file_log.specs.Told.{Grows};
ghost use Rattle.op_union.specs.Cooperating.{KeepsOwn, MissesTruly, AnswersAsRead};
ghost use Rattle.op_union.specs.Requests.{IsBuilt, IsPut, Belongs, store_of as the_store, kept_after, Operates};

use crate::get::get_from_folder;
use crate::put::put_in_folder;
use crate::state::SeatState;
use cache_types::{Answer, Request, Store};
use files_api::Files;
use std::alloc::Global;

/// Whether a request is a put.
fn is_put(request: &Request) -> bool
    ensures { IsTrue result ↔ IsPut request.now }
{
    matches!(request, Request::Put { .. })
}

/// The store that a request speaks of, where it is one.
fn store_of(request: &Request) -> Option<Store>
    ensures { result ≡ the_store request.now }
{
    match request {
        Request::Get { store, .. }
        | Request::Put { store, .. }
        | Request::Keys { store, .. }
        | Request::Verify { store }
        | Request::Trim { store, .. } => Some(*store),
        Request::HasKey { .. } | Request::PutKey { .. } => None,
    }
}

/// Does a request: tells its Begin, makes its calls, and tells its End.
///
/// Afterwards every slot of the seat is empty, and the files may be used again, whatever the answer. Where
/// there is no memory to begin, nothing is told and the answer is `NoMemory`.
///
/// A put that ends in `Stored` left its entry the whole item of the driver, the meta and the blob, where others
/// leave the entry and its temporary file alone. Whatever they do, it ends in `Kept` only where it read an item
/// of the driver from the entry, and in `Busy` exactly where 64 tries in a row of its folder's lock, with a pause
/// between any two, found that another seat holds it; and each of its items changes at most the lock file, which
/// may come, its temporary file, and the entry by the renaming of that, which comes only with `Stored`.
///
/// Others may act between any two of its calls, be stopped, and meet failures. Whatever they do, `Hit` comes only where an own
/// reading of the whole entry got bytes that read for the driver as its blob, and `Miss` only where it got others, or where the
/// file wasn't there or was longer than the longest item. In a log that began on an empty
/// disk a seat that was not the first to break a rule isn't the first by this operation either. As long as no
/// seat breaks one, `Miss` says that after one of its own items the store held no such blob.
pub fn run_op<F: Files>(
    alloc: Global,
    files: &mut F,
    state: &mut SeatState,
    request: Request,
) -> Answer
    requires idle { IsIdle (F.seen files.old) }
    requires built { IsBuilt request }
    requires belongs { Belongs state.old.store (the_store request) }
    ensures done { Operates (F.me files.old) request (F.history files.old) (F.history files.new) (F.faults files.old) (F.faults files.new) result }
    ensures keeps { Grows (F.history files.old) (F.history files.new) (KeepsOwn (F.me files.old)) }
    ensures rests { Grows (F.history files.old) (F.history files.new) (AnswersAsRead (F.me files.old) request result) }
    ensures misses { Grows (F.history files.old) (F.history files.new) (MissesTruly (F.me files.old) request result) }
    ensures idle { IsIdle (F.seen files.new) }
    ensures me { F.me files.new ≡ F.me files.old }
    ensures faults { F.faults files.old ≤ F.faults files.new }
    ensures store { state.new.store ≡ kept_after state.old.store (the_store request) }
{
    if let Some(store) = store_of(&request) {
        state.store = Some(store);
    }
    if is_put(&request) {
        put_in_folder(alloc, files, request)
    } else {
        get_from_folder(alloc, files, request)
    }
}
