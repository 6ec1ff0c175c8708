ghost use Rattle.std.specs.Prelude.{◌≡◌, ◌≤◌, ◌<◌, ◌+◌, length, take, drop, IfOk, OnOk, vec_len};
ghost use Rattle.files_api.specs.Streams.{IsRead, HasFault};
ghost use Rattle.cache_main.specs.Reading.{ReadsToEnd, TakesAtMost, status_of_refusal};

use cache_types::{Bytes, MAX_BLOB, MAX_ITEM, NoMemory};
use files_api::{Source, Took};
use report_text::Status;
use std::alloc::Global;

/// Why a source gave no blob.
#[derive(Clone, Copy, Debug, PartialEq, Eq)]
pub enum ReadRefusal {
    /// The source failed.
    ReadFault,
    /// So many bytes were read, which are too many.
    TooLarge(u64),
    /// Memory ran out.
    NoMemory,
}

impl ReadRefusal {
    /// The status that it ends a call with.
    pub fn status(self) -> Status
        ensures { result ≡ status_of_refusal self }
    {
        match self {
            ReadRefusal::ReadFault => Status::ReadFault,
            ReadRefusal::TooLarge(count) => Status::TooLarge(count),
            ReadRefusal::NoMemory => Status::NoMemory,
        }
    }
}

/// So much room is left in front of what is read: enough for all that stands in front of a blob in any item.
const HEAD: usize = MAX_ITEM as usize - MAX_BLOB;

/// The first length of a buffer.
const FIRST: usize = 8_192;

/// The next length of a buffer that is full: twice as long, and at last one byte longer than the longest item, so
/// that one more byte of a blob is seen.
fn longer(len: usize) -> usize
    requires most { len ≤ MAX_ITEM }
    requires some { 0 < len }
    ensures longer { len < result }
    ensures most { result ≤ MAX_ITEM + 1 }
{
    if len < MAX_BLOB / 2 {
        2 * len
    } else {
        MAX_ITEM as usize + 1
    }
}

/// A buffer of so many bytes.
fn buffer_of(alloc: Global, len: usize) -> Result<Vec<u8>, NoMemory>
    ensures { IfOk result (λ buffer. length buffer.items ≡ len) }
{
    Ok(vec![in alloc; 0u8; len]?)
}

/// Makes room behind what is filled, where there is none.
fn make_room(buffer: &mut Vec<u8>, filled: usize) -> Result<(), NoMemory>
    requires fits { filled ≤ MAX_ITEM }
    requires some { 0 < filled }
    requires within { filled ≤ vec_len buffer.old }
    requires most { vec_len buffer.old ≤ MAX_ITEM + 1 }
    ensures kept { take filled buffer.new.items ≡ take filled buffer.old.items }
    ensures most { vec_len buffer.new ≤ MAX_ITEM + 1 }
    ensures within { filled ≤ vec_len buffer.new }
    ensures room { OnOk result (filled < vec_len buffer.new) }
{
    if filled == buffer.len() {
        buffer.resize(longer(filled), 0)?;
    }
    Ok(())
}

/// Reads the next bytes of a source behind what is filled.
fn read_piece<S: Source>(source: &mut S, buffer: &mut Vec<u8>, filled: usize) -> Took
    requires { filled ≤ vec_len buffer.old }
    ensures read { IsRead result (S.left source.old) (S.left source.new) (drop filled buffer.new.items) }
    ensures kept { take filled buffer.new.items ≡ take filled buffer.old.items }
    ensures len { vec_len buffer.new ≡ vec_len buffer.old }
    ensures cause { HasFault (S.faults source.old) (S.faults source.new) result }
{
    source.read(&mut buffer.as_mut_slice()[filled..])
}

/// What was read up to a place.
fn read_up_to(mut buffer: Vec<u8>, filled: usize) -> Bytes
    ensures { result ≡ drop HEAD (take filled buffer.items) }
{
    buffer.truncate(filled);
    Bytes::from_vec(buffer).behind(HEAD as u64)
}

/// Reads a source to its end, at most one byte more than the longest blob has. What is read stays where it
/// was read to, in memory that grows with it and has room in front for the head of an item.
///
/// # Errors
///
/// `TooLarge` exactly where the blob is longer than the longest; `ReadFault` only where the source failed;
/// `NoMemory`.
pub fn read_source<S: Source>(alloc: Global, source: &mut S) -> Result<Bytes, ReadRefusal>
    ensures read { ReadsToEnd result (S.left source.old) (S.left source.new) (S.faults source.old) (S.faults source.new) }
    ensures taken { TakesAtMost (MAX_BLOB + 1) (S.left source.old) (S.left source.new) }
    ensures later { S.faults source.old ≤ S.faults source.new }
{
    let Ok(mut buffer) = buffer_of(alloc, FIRST) else {
        return Err(ReadRefusal::NoMemory);
    };
    let mut filled = HEAD;
    'pieces: while filled <= MAX_ITEM as usize {
        let Ok(()) = make_room(&mut buffer, filled) else {
            return Err(ReadRefusal::NoMemory);
        };
        match read_piece(source, &mut buffer, filled) {
            Took::Some(0) => return Ok(read_up_to(buffer, filled)),
            Took::Some(n) => filled += n as usize,
            Took::Failed => return Err(ReadRefusal::ReadFault),
        }
    }
    Err(ReadRefusal::TooLarge((filled - HEAD) as u64))
}
