ghost use Rattle.std.specs.Prelude.{◌≡◌, ◌≤◌, ◌+◌, IfOk};
ghost use Rattle.cache_main.specs.Reading.{TakesAtMost};
ghost use Rattle.cache_main.specs.Requests.{request_for as the_request_for, request_of as the_request_of, TakesBlob};
ghost use Rattle.cache_main.specs.Words.{ReadsSource};
ghost use Rattle.cmd_words.specs.Known.{IsKnown};

use crate::admission::Admitted;
use crate::driver::driver_of;
use crate::keys::NamedKeys;
use crate::reading::{ReadRefusal, read_source};
use cache_types::{Bytes, Driver, Layout, MAX_BLOB, NoMemory, Request, RoPlan, Store, TextList};
use cmd_words::{Command, Word};
use files_api::Source;
use std::alloc::Global;

/// The store that is asked.
const STORE: Store = Store {
    root: 0,
    layout: Layout::Folder,
};

/// The blob that comes from the source: all of it for a put, and none for a get, which leaves the source as
/// it is.
///
/// # Errors
///
/// For a put alone: those of [`read_source`].
pub fn take_blob<S: Source>(alloc: Global, word: Word, source: &mut S) -> Result<Bytes, ReadRefusal>
    ensures takes { TakesBlob word result (S.left source.old) (S.left source.new) (S.faults source.old) (S.faults source.new) }
    ensures kept { (ReadsSource word → ⊥) → source.new ≡ source.old }
    ensures most { TakesAtMost (MAX_BLOB + 1) (S.left source.old) (S.left source.new) }
    ensures later { S.faults source.old ≤ S.faults source.new }
{
    match word {
        Word::Put => read_source(alloc, source),
        _ => Ok(Bytes::new(alloc)),
    }
}

/// The request of a put into at most so many bytes, or of a lookup. Takes no memory.
fn request_for(
    alloc: Global,
    word: Word,
    driver: Driver,
    max: u64,
    keys: NamedKeys,
    blob: Bytes,
) -> Request
    ensures { result ≡ the_request_for word driver max keys.key keys.meta blob }
{
    let NamedKeys { key, meta } = keys;
    match word {
        Word::Put => Request::Put {
            store: STORE,
            driver,
            key,
            meta,
            blob,
            limit: max,
        },
        _ => Request::Get {
            store: STORE,
            driver,
            key,
            ro: RoPlan {
                names: TextList::new(alloc),
                list: false,
            },
        },
    }
}

/// What a put or a get asks for, with this blob.
pub fn request_of(
    alloc: Global,
    command: &Command,
    admitted: Admitted,
    blob: Bytes,
) -> Result<Request, NoMemory>
    requires { IsKnown command.now }
    ensures { IfOk result (λ request. request ≡ the_request_of command.now admitted.settings admitted.keys.key admitted.keys.meta blob) }
{
    let driver = driver_of(alloc, command)?;
    Ok(request_for(
        alloc,
        command.word,
        driver,
        admitted.settings.max,
        admitted.keys,
        blob,
    ))
}
