//! Whether what an operation says is earned.

ghost use Rattle.std.specs.Prelude.{◌≡◌, ℕ, List, Some, IfOk};
ghost use Rattle.cache_types.specs.declared.name.Name.{Name};
ghost use Rattle.seat_rules.specs.Answers.{may_end as the_end, may_evict as the_evict, ends_any as any_end, is_database as database, is_foz as foz, is_too_large as too_large};
ghost use Rattle.log_summary.specs.Summary.{Operation};
ghost use Rattle.operation_ledger.specs.Given.{with_lately};
ghost use Rattle.operation_ledger.specs.Operations.{Holds};
ghost use Rattle.operation_ledger.specs.Saying.{says_any as any_says, told_of};
ghost use Rattle.rule_checks.specs.Tests.{says_true as the_truth, ends_well as well};
ghost use Rattle.world_tables.specs.Tables.{disk_at};

use crate::given::Lately;
use crate::operation::OpenOperation;
use cache_types::{Answer, Bytes, Layout, MAX_BLOB, NoMemory, Request};
use std::alloc::Global;
use world_tables::Tables;

/// Whether all operations of the layout wait for its lock.
fn is_database(layout: Layout) -> bool
    ensures { result ≡ database layout }
{
    match layout {
        Layout::Database => true,
        _ => false,
    }
}

/// Whether the trim of the layout waits for no lock.
fn is_foz(layout: Layout) -> bool
    ensures { result ≡ foz layout }
{
    match layout {
        Layout::Foz => true,
        _ => false,
    }
}

/// Whether the answer ends every request.
fn ends_any(answer: &Answer) -> bool
    ensures { result ≡ any_end answer.now }
{
    match answer {
        Answer::FilesFault => true,
        Answer::NoMemory => true,
        _ => false,
    }
}

/// Whether the answer is of a kind that ends the request.
fn may_end(request: &Request, answer: &Answer) -> bool
    ensures { result ≡ the_end request.now answer.now }
{
    match (request, answer) {
        (Request::Get { .. }, Answer::Hit(_)) => true,
        (Request::Get { .. }, Answer::Miss) => true,
        (Request::Get { store, .. }, Answer::Busy) => is_database(store.layout),
        (Request::Put { .. }, Answer::Stored) => true,
        (Request::Put { .. }, Answer::Kept) => true,
        (Request::Put { .. }, Answer::TooLarge(_)) => true,
        (Request::Put { .. }, Answer::Busy) => true,
        (Request::HasKey { .. }, Answer::Yes) => true,
        (Request::HasKey { .. }, Answer::No) => true,
        (Request::HasKey { .. }, Answer::Busy) => true,
        (Request::PutKey { .. }, Answer::Marked) => true,
        (Request::PutKey { .. }, Answer::Busy) => true,
        (Request::Keys { .. }, Answer::Keys(_)) => true,
        (Request::Keys { store, .. }, Answer::Busy) => is_database(store.layout),
        (Request::Verify { .. }, Answer::Rows(_)) => true,
        (Request::Verify { store }, Answer::Busy) => is_database(store.layout),
        (Request::Trim { .. }, Answer::Trimmed(_)) => true,
        (Request::Trim { store, .. }, Answer::Busy) => !is_foz(store.layout),
        _ => ends_any(answer),
    }
}

/// Whether the request may take entries away.
fn may_evict(request: &Request) -> bool
    ensures { result ≡ the_evict request.now }
{
    match request {
        Request::Put { .. } => true,
        Request::Trim { .. } => true,
        _ => false,
    }
}

/// Whether the blob is too large, and this is its length, or how much of it was read when that was known.
fn is_too_large(blob: &Bytes, n: u64) -> bool
    ensures { result ≡ too_large blob.now n }
{
    let most = MAX_BLOB as u64;
    most < blob.len() && (n == blob.len() || n == most + 1)
}

/// Whether an answer is so that says the same of every request.
fn says_any(operation: &OpenOperation, answer: &Answer) -> bool
    ensures { result ≡ any_says operation.now answer.now }
{
    match answer {
        Answer::Busy => operation.held_off,
        Answer::FilesFault => operation.failed,
        _ => true,
    }
}

/// Whether what an answer says is so.
fn says_true(rough: bool, lately: &Lately, operation: &OpenOperation, answer: &Answer) -> bool
    ensures { result ≡ the_truth rough (with_lately lately.now operation.now.gave.items) (told_of operation.now) operation.now.request answer.now }
{
    let gave = operation.gave.as_slice();
    match (&operation.request, answer) {
        (Request::Get { .. }, Answer::Hit(blob)) => lately.has_blob(gave, blob),
        (Request::Get { .. }, Answer::Miss) => rough || lately.has_none(gave),
        (Request::Put { blob, .. }, Answer::Stored) => lately.has_blob(gave, blob),
        (Request::Put { .. }, Answer::Kept) => lately.has_some(gave),
        (Request::Put { blob, .. }, Answer::TooLarge(n)) => is_too_large(blob, *n),
        _ => says_any(operation, answer),
    }
}

/// Whether the answer may end the operation, and what it says is so. The entry is read only where it has
/// another file than the remembered one.
pub fn ends_well(
    alloc: Global,
    tables: &Tables,
    rough: bool,
    operation: &OpenOperation,
    answer: &Answer,
) -> Result<bool, NoMemory>
    ensures { IfOk result (λ told. (had : List (Name × ℕ)) (o : Operation) → Holds had (disk_at tables.now) operation.now o → told ≡ well rough (disk_at tables.now) (Some o) answer.now) }
{
    if !may_end(&operation.request, answer) {
        return Ok(false);
    }
    let lately = operation.lately(alloc, tables)?;
    Ok(says_true(rough, &lately, operation, answer))
}

/// Whether the operation may evict.
pub fn evicts_well(operation: &OpenOperation) -> bool
    ensures { result ≡ the_evict operation.now.request }
{
    may_evict(&operation.request)
}
