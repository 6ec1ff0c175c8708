ghost use Rattle.std.specs.Prelude.{◌≡◌, IfOk};
ghost use Rattle.cache_tests.specs.Found.{IsPutAndFound};

use crate::premises::{ME, words};
use cache_main::{RoundTrip, put_then_get};
use cache_types::{Bytes, NoMemory};
use files_api::Sink;
use memory_files::{LoneFiles, MemSink, MemSource};
use std::alloc::Global;

/// A put of the blob `abc` on an empty disk in memory, and then a lookup, give it back: the premises of what
/// [`put_then_get`] promises can be met.
pub fn abc_is_put_and_found(alloc: Global) -> Result<(RoundTrip, MemSink), NoMemory>
    ensures { IfOk result (λ ended. IsPutAndFound ended.0 (⟦<MemSink as Sink>⟧.written ended.1)) }
{
    let put = words(alloc, "put")?;
    let get = words(alloc, "get")?;
    let mut files = LoneFiles::on_disk(alloc, ME, Vec::new(alloc))?;
    let mut source = MemSource::new(Bytes::of(alloc, b"abc")?, Vec::new(alloc));
    let mut out = MemSink::new(alloc, Vec::new(alloc));
    let ended = put_then_get(alloc, &put, &get, &[], &mut files, &mut source, &mut out);
    files.lone();
    Ok((ended, out))
}
