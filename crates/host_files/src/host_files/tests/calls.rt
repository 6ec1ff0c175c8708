//! What a seat is answered that makes a few calls in a row.

ghost use Rattle.std.specs.Prelude.{◌≡◌, false, IsTrue};
ghost use Rattle.file_log.specs.Seat.{IsIdle};

use cache_types::{Bytes, Key, Name, Request};
use file_log::{Call, Note, Reply};
use files_api::Files;

/// The key of every request.
pub const KEY: Key = Key { bytes: [7; 20] };

/// What a lookup finds in a name's file, or the reply that ends it.
pub fn look_up<F: Files>(files: &mut F, name: Name) -> Reply
    requires { IsIdle (F.seen files.old) }
{
    let request = Request::HasKey { root: 0, key: KEY };
    let Reply::Done = files.call(Call::Tell(Note::Begin(request))) else {
        return Reply::Failed;
    };
    match files.call(Call::OpenOld { slot: 0, name }) {
        Reply::Done => {}
        reply => return reply,
    }
    let Reply::Number(n) = files.call(Call::Length { slot: 0 }) else {
        return Reply::Failed;
    };
    let Reply::Got(bytes) = files.call(Call::ReadAt { slot: 0, at: 0, n }) else {
        return Reply::Failed;
    };
    files.call(Call::Close { slot: 0 });
    Reply::Got(bytes)
}

/// What a writer is answered at last that makes a name's file and writes these bytes at a place.
pub fn make<F: Files>(files: &mut F, name: Name, at: u64, bytes: Bytes) -> Reply
    requires { IsIdle (F.seen files.old) }
{
    let request = Request::PutKey { root: 0, key: KEY };
    let Reply::Done = files.call(Call::Tell(Note::Begin(request))) else {
        return Reply::Failed;
    };
    let Reply::Done = files.call(Call::OpenNew { slot: 3, name }) else {
        return Reply::Failed;
    };
    match files.call(Call::TryLock { slot: 3 }) {
        Reply::Done => {}
        reply => return reply,
    }
    let Reply::Done = files.call(Call::WriteAt { slot: 3, at, bytes }) else {
        return Reply::Failed;
    };
    let Reply::Done = files.call(Call::Cut {
        slot: 3,
        n: 1 << 40,
    }) else {
        return Reply::Failed;
    };
    files.call(Call::ReadAt {
        slot: 3,
        at: (1 << 63) - 2,
        n: u64::MAX,
    })
}

/// What a renaming is answered.
pub fn rename<F: Files>(files: &mut F, from: Name, to: Name) -> Reply
    requires { IsIdle (F.seen files.old) }
{
    let request = Request::PutKey { root: 0, key: KEY };
    let Reply::Done = files.call(Call::Tell(Note::Begin(request))) else {
        return Reply::Failed;
    };
    files.call(Call::Rename { from, to })
}

/// How long a name's file is once it is cut to so many bytes, or the reply that ends it.
pub fn cut<F: Files>(files: &mut F, name: Name, n: u64) -> Reply
    requires { IsIdle (F.seen files.old) }
{
    let request = Request::PutKey { root: 0, key: KEY };
    let Reply::Done = files.call(Call::Tell(Note::Begin(request))) else {
        return Reply::Failed;
    };
    let Reply::Done = files.call(Call::OpenOld { slot: 0, name }) else {
        return Reply::Failed;
    };
    let Reply::Done = files.call(Call::Cut { slot: 0, n }) else {
        return Reply::Failed;
    };
    files.call(Call::Length { slot: 0 })
}

/// What a removal is answered.
pub fn remove<F: Files>(files: &mut F, name: Name) -> Reply
    requires { IsIdle (F.seen files.old) }
{
    let request = Request::PutKey { root: 0, key: KEY };
    let Reply::Done = files.call(Call::Tell(Note::Begin(request))) else {
        return Reply::Failed;
    };
    files.call(Call::Remove { name })
}

/// What the time is.
pub fn time<F: Files>(files: &mut F) -> Reply
    requires { IsIdle (F.seen files.old) }
{
    let request = Request::HasKey { root: 0, key: KEY };
    let Reply::Done = files.call(Call::Tell(Note::Begin(request))) else {
        return Reply::Failed;
    };
    files.call(Call::Now)
}

/// Whether twelve pauses in a row are done.
pub fn pause_often<F: Files>(files: &mut F) -> bool
    requires { IsIdle (F.seen files.old) }
{
    let request = Request::HasKey { root: 0, key: KEY };
    let Reply::Done = files.call(Call::Tell(Note::Begin(request))) else {
        return false;
    };
    pause_four_times(files) && pause_four_times(files) && pause_four_times(files)
}

/// Whether four pauses are done.
fn pause_four_times<F: Files>(files: &mut F) -> bool
    requires { (F.seen files.old).hurt ≡ false }
    ensures { IsTrue result → (F.seen files.new).hurt ≡ false }
{
    pause(files) && pause(files) && pause(files) && pause(files)
}

/// Whether a pause is done.
fn pause<F: Files>(files: &mut F) -> bool
    requires { (F.seen files.old).hurt ≡ false }
    ensures { IsTrue result → (F.seen files.new).hurt ≡ false }
{
    match files.call(Call::Pause) {
        Reply::Done => true,
        _ => false,
    }
}
