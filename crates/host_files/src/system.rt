ghost use Rattle.std.specs.Prelude.{◌≡◌, ◌↔◌, ◌≤◌, ◌-◌, ◌^◌, ◌∷◌, [], length, min, true, false, Ok, Err, IsOk, IfOk, OnOk, IfErr, Some, IfSome, unwrap_or, IsTrue};
ghost use Rattle.std.specs.IoError.{error_kind};
ghost use Rattle.std.specs.List.{All};
ghost use Rattle.std.specs.List.Sorted.{IsSorted};
ghost use Rattle.std.specs.Path.{path_parent};
ghost use Rattle.std.specs.Duration.{as_nanos};
ghost use Rattle.std.specs.declared.io.Error.{Error as IoError};
ghost use Rattle.std.specs.declared.io.ErrorKind.TheVariants.{NotFound, Interrupted};
ghost use Rattle.std.specs.declared.fs.locks.TryLockError.TheVariants.{WouldBlock, Error};
ghost use Rattle.hex.specs.Hex.{encode_lower};
ghost use Rattle.cache_types.specs.declared.key.Key.{Key};
ghost use Rattle.cache_types.specs.declared.limits.TheConstants.{MAX_ITEM};
ghost use Rattle.host_files.specs.Faults.{IsFaultOf};
ghost use Rattle.host_files.specs.Names.{IsEntry, StartsWith};
ghost use Rattle.host_files.specs.Waits.{sleep_after};

use crate::fault::Fault;
use crate::opening::only_plain;
use crate::reason::Reason;
use cache_types::{Bytes, Key, KeyList, MAX_ITEM};
use hex::FromHex;
use std::alloc::Global;
use std::fs::{DirEntry, File, ReadDir, TryLockError};
use std::io::ErrorKind;
use std::os::unix::fs::FileExt;
use std::path::Path;
use std::rt::{Clock, Files as RealFiles};
use std::time::Duration;
use std::{fs, io, thread};

/// No file has a byte at this place or past it, and the system refuses to read there.
const PAST_ALL: u64 = (1 << 63) - 1;

/// So many times a seat yields to others before it sleeps.
const YIELDS: u32 = 4;

/// The first sleep in microseconds; each is twice the one before.
const FIRST_SLEEP: u64 = 50;

/// No sleep is longer: 10 milliseconds. So the pauses between 64 tries last half a second.
const LONGEST_SLEEP: u64 = 10_000;

/// What isn't found is no fault; another error is one.
pub fn pass_missing(error: io::Error) -> Result<(), Fault>
    ensures missing { IsOk result ↔ (error_kind error ≡ NotFound) }
    ensures fault { IfErr result (IsFaultOf error) }
{
    match error.kind() {
        ErrorKind::NotFound => Ok(()),
        _ => Err(Fault::from(error)),
    }
}

/// The folder that a path's file lies in.
pub fn folder_of(path: &str) -> &str
    ensures { result.now ≡ unwrap_or (path_parent path.now) [] }
{
    match Path::new(path).parent() {
        Some(folder) => folder.as_str(),
        None => "",
    }
}

/// Takes a file's lock, unless another open file has it.
pub fn take_lock(file: &File) -> Result<bool, Fault> {
    is_taken(file.try_lock())
}

/// Whether a try took the lock; it didn't where another open file has it.
fn is_taken(tried: Result<(), TryLockError>) -> Result<bool, Fault>
    ensures taken { IsOk tried ↔ (result ≡ Ok true) }
    ensures held { (tried ≡ Err WouldBlock) ↔ (result ≡ Ok false) }
    ensures fault { (error : IoError) → tried ≡ Err (Error error) → IfErr result (IsFaultOf error) }
{
    match tried {
        Ok(()) => Ok(true),
        Err(TryLockError::WouldBlock) => Ok(false),
        Err(TryLockError::Error(error)) => Err(Fault::from(error)),
    }
}

/// A file's length in bytes. What isn't a plain file is a fault: a folder opens too, for reading.
pub fn length(file: &File) -> Result<u64, Fault> {
    let found = file.metadata()?;
    only_plain(&found)?;
    Ok(found.len())
}

/// The bytes of a file from a place on, so many or up to its end.
pub fn read(alloc: Global, file: &File, at: u64, n: u64) -> Result<Bytes, Fault>
    ensures asked { IfOk result (λ b. length b ≤ n) }
    ensures before_all { IfOk result (λ b. length b ≤ 2 ^ 63 - 1 - at) }
{
    let room = room_for(file, at, n)?;
    let mut bytes = vec![in alloc; 0u8; room as usize]?;
    let got = read_into(file, bytes.as_mut_slice(), at)?;
    bytes.truncate(got);
    Ok(Bytes::from_vec(bytes))
}

/// How many bytes a reading makes room for: as many as are asked for, but where that is more than any item
/// has, no more than the file has there.
fn room_for(file: &File, at: u64, n: u64) -> Result<u64, Fault>
    ensures asked { IfOk result (λ room. room ≤ min n (2 ^ 63 - 1 - at)) }
    ensures item { min n (2 ^ 63 - 1 - at) ≤ MAX_ITEM → result ≡ Ok (min n (2 ^ 63 - 1 - at)) }
{
    let most = n.min(PAST_ALL.saturating_sub(at));
    if most <= MAX_ITEM {
        return Ok(most);
    }
    Ok(most.min(length(file)?.saturating_sub(at)))
}

/// Reads until the slice is full or the file ends, and says how many bytes were read. A slice without bytes
/// takes no call of the system.
fn read_into(file: &File, into: &mut [u8], at: u64) -> Result<usize, Fault>
    ensures within { IfOk result (λ n. n ≤ length into.new) }
    ensures nothing { length into.old ≡ 0 → result ≡ Ok 0 }
{
    let mut got = 0;
    for _ in 0..u64::MAX {
        if got >= into.len() {
            return Ok(into.len());
        }
        match file.read_at(&mut into[got..], at.saturating_add(got as u64)) {
            Ok(0) => return Ok(got),
            Ok(n) => got += n,
            Err(error) => again_if_interrupted(error)?,
        }
    }
    Err(Fault::Failed(Reason::Other))
}

/// Writes all bytes, from a place on. Where that fails, the file has the length again that it had before, if the writing made
/// it longer, so that a disk that was full isn't full of what failed. No bytes take no call of the system.
pub fn write(file: &File, at: u64, bytes: &[u8]) -> Result<(), Fault>
    ensures { bytes.now ≡ [] → IsOk result }
{
    if bytes.is_empty() {
        return Ok(());
    }
    let before = length(file)?;
    let written = write_all(file, at, bytes);
    if written.is_err() {
        let _cut = cut(file, before);
    }
    written
}

fn write_all(file: &File, at: u64, bytes: &[u8]) -> Result<(), Fault> {
    let mut put = 0;
    for _ in 0..u64::MAX {
        if put >= bytes.len() {
            return Ok(());
        }
        match file.write_at(&bytes[put..], at.saturating_add(put as u64)) {
            Ok(0) => return Err(Fault::Failed(Reason::NothingWritten)),
            Ok(n) => put += n,
            Err(error) => again_if_interrupted(error)?,
        }
    }
    Err(Fault::Failed(Reason::Other))
}

/// A call that a signal interrupted is made again; another error is a fault.
pub fn again_if_interrupted(error: io::Error) -> Result<(), Fault>
    ensures interrupted { IsOk result ↔ (error_kind error ≡ Interrupted) }
    ensures fault { IfErr result (IsFaultOf error) }
{
    match error.kind() {
        ErrorKind::Interrupted => Ok(()),
        _ => Err(Fault::from(error)),
    }
}

/// Cuts a longer file to so many bytes. The length is asked for first, since the system would lengthen a
/// shorter one.
pub fn cut(file: &File, n: u64) -> Result<(), Fault> {
    if n < length(file)? {
        file.set_len(n)?;
    }
    Ok(())
}

/// Gives a path's file another path, if it has one.
pub fn rename<R: RealFiles>(rt: &R, from: &str, to: &str) -> Result<(), Fault> {
    match fs::rename(rt, from, to) {
        Ok(()) => Ok(()),
        // Not found is also the folder of the other path.
        Err(error) => match error.kind() {
            ErrorKind::NotFound if is_missing(rt, from) => Ok(()),
            _ => Err(Fault::from(error)),
        },
    }
}

/// Whether the system finds nothing at a path.
fn is_missing<R: RealFiles>(rt: &R, path: &str) -> bool {
    match fs::symlink_metadata(rt, path) {
        Ok(_) => false,
        Err(error) => error.kind() == ErrorKind::NotFound,
    }
}

/// Removes a path's file, if it has one.
pub fn remove<R: RealFiles>(rt: &R, path: &str) -> Result<(), Fault> {
    match fs::remove_file(rt, path) {
        Ok(()) => Ok(()),
        Err(error) => pass_missing(error),
    }
}

/// The keys of the entries in a folder whose two digits are this byte, ascending. A name that isn't the other
/// 38 digits of a key, in lower case, is skipped, and a folder that isn't found has none.
pub fn list<R: RealFiles>(alloc: Global, rt: &R, folder: &str, byte: u8) -> Result<KeyList, Fault>
    ensures ascending { IfOk result (IsSorted ⟦<Key as Ord>⟧.cmp) }
    ensures folder { IfOk result (All (StartsWith byte)) }
{
    let mut keys = Vec::new(alloc);
    add_keys(alloc, rt, folder, byte, &mut keys)?;
    keys.sort_unstable();
    Ok(KeyList::from_vec(keys))
}

/// Adds the keys of the entries in a folder, in the system's order.
fn add_keys<R: RealFiles>(
    alloc: Global,
    rt: &R,
    folder: &str,
    byte: u8,
    keys: &mut Vec<Key>,
) -> Result<(), Fault>
    requires { All (StartsWith byte) keys.old.items }
    ensures { OnOk result (All (StartsWith byte) keys.new.items) }
{
    match fs::read_dir(&(rt, alloc), folder) {
        Ok(entries) => add_entries(byte, entries, keys),
        Err(error) => pass_missing(error),
    }
}

/// Adds the keys of entries.
fn add_entries<R: RealFiles>(
    byte: u8,
    entries: ReadDir<(&R, Global)>,
    keys: &mut Vec<Key>,
) -> Result<(), Fault>
    requires { All (StartsWith byte) keys.old.items }
    ensures { OnOk result (All (StartsWith byte) keys.new.items) }
{
    for entry in entries {
        add_entry(byte, entry, keys)?;
    }
    Ok(())
}

/// Adds the key of an entry. A name that isn't UTF-8 is none; another error is a fault.
fn add_entry<R: RealFiles>(
    byte: u8,
    entry: io::Result<DirEntry<(&R, Global)>>,
    keys: &mut Vec<Key>,
) -> Result<(), Fault>
    requires { All (StartsWith byte) keys.old.items }
    ensures { OnOk result (All (StartsWith byte) keys.new.items) }
{
    match entry {
        Ok(entry) => add_key(byte, entry.file_name(), keys),
        Err(error) => match error.kind() {
            ErrorKind::InvalidFilename => Ok(()),
            _ => Err(Fault::from(error)),
        },
    }
}

/// Adds the key that the name of an entry's file spells, where it spells one.
fn add_key(byte: u8, name: &str, keys: &mut Vec<Key>) -> Result<(), Fault>
    requires { All (StartsWith byte) keys.old.items }
    ensures { OnOk result (All (StartsWith byte) keys.new.items) }
{
    if let Some(key) = key_of_entry(byte, name) {
        keys.push(key)?;
    }
    Ok(())
}

/// The key of an entry's file, by its folder's byte and the 38 digits that are its name. Digits in upper case
/// spell a key too, but are no entry's name.
fn key_of_entry(byte: u8, name: &str) -> Option<Key>
    ensures folder { IfSome result (StartsWith byte) }
    ensures entry { (key : Key) → (result ≡ Some key) ↔ IsEntry byte name.now key }
{
    let Ok(rest) = <[u8; 19] as FromHex>::from_hex(name) else {
        return None;
    };
    if name_of(rest).as_slice() == name.as_bytes() {
        Some(key_of(byte, rest))
    } else {
        None
    }
}

/// The key of these bytes.
fn key_of(byte: u8, rest: [u8; 19]) -> Key
    ensures { result.bytes ≡ byte ∷ rest }
{
    let mut bytes = [byte; 20];
    bytes[1..].copy_from_slice(&rest);
    Key { bytes }
}

/// The name of an entry's file: the digits of its key but for the first byte.
fn name_of(rest: [u8; 19]) -> [u8; 38]
    ensures { result ≡ encode_lower rest }
{
    let mut digits = [0; 38];
    match hex::encode_to_slice(rest, &mut digits) {
        Ok(()) => digits,
        Err(_) => unreachable!(),
    }
}

/// The nanoseconds since 1970.
pub fn now<R: Clock>(rt: &R) -> Result<u64, Fault> {
    Ok(nanos_of(rt.since_1970()?))
}

/// A time in nanoseconds, up to 2^64 - 1.
fn nanos_of(time: Duration) -> u64
    ensures { result ≡ min (as_nanos time) (2 ^ 64 - 1) }
{
    u64::try_from(time.as_nanos()).unwrap_or(u64::MAX)
}

/// Waits a little: a seat that has waited less often yields, one that has waited more often sleeps longer.
pub fn wait<R: Clock>(rt: &R, waits: u32) {
    match sleep_of(waits) {
        Some(sleep) => thread::sleep(rt, Duration::from_micros(sleep)),
        None => thread::yield_now(),
    }
}

/// For how many microseconds a seat sleeps that has waited so often. At first it doesn't.
fn sleep_of(waits: u32) -> Option<u64>
    ensures { result ≡ sleep_after waits }
{
    if waits < YIELDS {
        return None;
    }
    let sleep = FIRST_SLEEP << (waits - YIELDS).min(8);
    Some(sleep.min(LONGEST_SLEEP))
}

#[cfg(test)]
mod tests;
