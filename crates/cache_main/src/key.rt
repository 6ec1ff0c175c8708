ghost use Rattle.std.specs.Prelude.{◌≡◌, ◌≤◌, ◌+◌, ◌++◌, IfOk};
ghost use Rattle.sha1.specs.Sha1.{sha1};
ghost use Rattle.cache_main.specs.Ends.{KeyEnds};
ghost use Rattle.cache_main.specs.Reading.{TakesAtMost};
ghost use Rattle.cache_types.specs.Driver.{blob_of};
ghost use Rattle.cmd_words.specs.Asked.{driver_asked};
ghost use Rattle.cmd_words.specs.Known.{IsKnown};

use crate::driver::driver_of;
use crate::printing::print;
use crate::reading::read_source;
use cache_key::compute_key;
use cache_types::{Key, MAX_BLOB, NoMemory};
use cmd_words::Command;
use files_api::{Sink, Source};
use report_text::{Status, key_line};
use std::alloc::Global;

/// The key of some content for the driver that the words name.
fn key_of_content(alloc: Global, command: &Command, content: &[u8]) -> Result<Key, NoMemory>
    requires { IsKnown command.now }
    ensures { IfOk result (λ key. key.bytes ≡ sha1 (blob_of (driver_asked command.now) ++ content.now)) }
{
    let driver = driver_of(alloc, command)?;
    compute_key(alloc, &driver, content)
}

/// Does `key`: reads the source whole and prints the key of its content for the driver that the words name.
///
/// `ReadFault`, `TooLarge` and `NoMemory` as [`read_source`] says: then nothing is printed. `WriteFault` only
/// where the sink failed.
pub fn run_key<S: Source, K: Sink>(
    alloc: Global,
    command: &Command,
    source: &mut S,
    out: &mut K,
) -> Status
    requires { IsKnown command.now }
    ensures ends { KeyEnds command.now result (out.new ≡ out.old) (S.left source.old) (S.left source.new) (S.faults source.old) (S.faults source.new) (K.written out.old) (K.written out.new) (K.faults out.old) (K.faults out.new) }
    ensures most { TakesAtMost (MAX_BLOB + 1) (S.left source.old) (S.left source.new) }
    ensures later { S.faults source.old ≤ S.faults source.new }
{
    let content = match read_source(alloc, source) {
        Ok(content) => content,
        Err(refusal) => return refusal.status(),
    };
    let Ok(key) = key_of_content(alloc, command, content.as_slice()) else {
        return Status::NoMemory;
    };
    let Ok(line) = key_line(alloc, &key) else {
        return Status::NoMemory;
    };
    print(out, line.as_slice(), Status::Ok)
}
