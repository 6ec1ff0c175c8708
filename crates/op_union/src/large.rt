ghost use Rattle.std.specs.Prelude.{◌≡◌, ◌≤◌};
ghost use Rattle.file_log.specs.Seat.{IsIdle};
ghost use Rattle.op_union.specs.Requests.{AsksLarge, RefusedLarge};

use cache_types::{Answer, Request};
use files_api::{Files, operate};
use op_machine::Given;
use std::alloc::Global;

/// Refuses a put of a blob of so many bytes, which are too many: an operation without a call.
pub fn refuse_large<F: Files>(alloc: Global, files: &mut F, request: Request, n: u64) -> Answer
    requires idle { IsIdle (F.seen files.old) }
    requires large { AsksLarge request n }
    ensures refused { RefusedLarge (F.me files.old) request n (F.history files.old) (F.history files.new) result }
    ensures idle { IsIdle (F.seen files.new) }
    ensures me { F.me files.new ≡ F.me files.old }
    ensures faults { F.faults files.old ≤ F.faults files.new }
{
    files.known();
    operate(alloc, files, request, move |_request| {
        Ok(Given::new(Answer::TooLarge(n)))
    })
}
