ghost use Rattle.std.specs.Prelude.{◌≡◌, IfOk, map, string_bytes};
ghost use Rattle.cache_tests.specs.Found.{IsFound, words_of_abc, files_of_abc};

use cache_main::run;
use cache_types::{Bytes, Key, Name, NoMemory, Who};
use files_api::Sink;
use memory_files::{LoneFiles, MemSink, MemSource};
use report_text::Status;
use std::alloc::Global;

/// The key of the entry.
const KEY: Key = Key {
    bytes: [
        0xa9, 0x99, 0x3e, 0x36, 0x47, 0x06, 0x81, 0x6a, 0xba, 0x3e, 0x25, 0x71, 0x78, 0x50, 0xc2,
        0x6c, 0x9c, 0xd0, 0xd8, 0x9d,
    ],
};

/// The entry of the blob `abc` for driver `d`, GPU `g`, flags 0, byte by byte.
const ENTRY: [u8; 29] = [
    1, 100, 0, 103, 0, 8, 0, 0, 0, 0, 0, 0, 0, 0, 0, 0, 0, 0, 0xc2, 0x41, 0x24, 0x35, 3, 0, 0, 0,
    97, 98, 99,
];

/// The one seat.
pub const ME: Who = Who {
    process: 0,
    seat: 0,
};

/// The words of a command under its key.
pub fn words(alloc: Global, command: &str) -> Result<Vec<String>, NoMemory>
    ensures { IfOk result (λ words. map string_bytes words.items ≡ words_of_abc command.now) }
{
    let texts = [
        String::from_str(alloc, command)?,
        String::from_str(alloc, "--id=d")?,
        String::from_str(alloc, "--gpu=g")?,
        String::from_str(alloc, "--layout=folder")?,
        String::from_str(alloc, "--root=store")?,
        String::from_str(alloc, "a9993e364706816aba3e25717850c26c9cd0d89d")?,
    ];
    Ok(Vec::from_array(alloc, texts)?)
}

/// A disk on which it lies.
fn disk(alloc: Global) -> Result<Vec<(Name, Bytes)>, NoMemory>
    ensures { IfOk result (λ files. files.items ≡ files_of_abc) }
{
    let entry = Bytes::of(alloc, &ENTRY)?;
    let mut files = Vec::new(alloc);
    files.push((Name::Entry { root: 0, key: KEY }, entry))?;
    Ok(files)
}

/// A lookup of an entry that lies on a disk in memory finds it: the premises of what [`run`] promises can be
/// met.
pub fn abc_is_found(alloc: Global) -> Result<(Status, MemSink), NoMemory>
    ensures { IfOk result (λ ended. IsFound ended.0 (⟦<MemSink as Sink>⟧.written ended.1)) }
{
    let words = words(alloc, "get")?;
    let mut files = LoneFiles::on_disk(alloc, ME, disk(alloc)?)?;
    let mut source = MemSource::new(Bytes::new(alloc), Vec::new(alloc));
    let mut out = MemSink::new(alloc, Vec::new(alloc));
    let status = run(alloc, &words, &[], &mut files, &mut source, &mut out);
    files.lone();
    Ok((status, out))
}
