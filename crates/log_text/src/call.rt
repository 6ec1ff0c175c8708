use crate::bytes::blob_of;
use crate::kind::{Kind, kind_of_call};
use crate::note::{note_of, push_note};
use crate::words::Words;
use cache_types::Name;
use file_log::Call;
use row_text::{Sentence, Wrong, name_of, root_of};
use std::alloc::Global;

/// Takes a call, as `OpenOld 1 Entry KEY`, `ReadAt 1 at 0 n 29`, `Cut 3 to 0` or `Rename NAME to NAME`.
pub fn call_of(row: &mut Sentence) -> Result<Call, Wrong> {
    let word = row.text()?;
    match Kind::of_word(word.as_str()) {
        Some(kind) => of_kind(row, kind),
        None => Err(Wrong::Found(format!(in row.alloc(); "no call is '{word}'")?)),
    }
}

/// Takes what stands behind the word of a call.
pub(crate) fn of_kind(row: &mut Sentence, kind: Kind) -> Result<Call, Wrong> {
    match kind {
        Kind::OpenOld | Kind::OpenNew => open(row, kind),
        Kind::TryLock | Kind::Length | Kind::Close => on_slot(row, kind),
        Kind::ReadAt => read(row),
        Kind::WriteAt => write(row),
        Kind::Cut => cut(row),
        Kind::Rename => rename(row),
        Kind::Remove => Ok(Call::Remove {
            name: name_of(row)?,
        }),
        Kind::ListFolder => list(row),
        Kind::Now => Ok(Call::Now),
        Kind::Pause => Ok(Call::Pause),
        Kind::Tell => Ok(Call::Tell(note_of(row)?)),
        _ => Err(Wrong::of(row.alloc(), "a call is wanted here")),
    }
}

fn open(row: &mut Sentence, kind: Kind) -> Result<Call, Wrong> {
    let slot = row.number_u8()?;
    let name = name_of(row)?;
    if kind == Kind::OpenOld {
        return Ok(Call::OpenOld { slot, name });
    }
    Ok(Call::OpenNew { slot, name })
}

fn on_slot(row: &mut Sentence, kind: Kind) -> Result<Call, Wrong> {
    let slot = row.number_u8()?;
    match kind {
        Kind::TryLock => Ok(Call::TryLock { slot }),
        Kind::Length => Ok(Call::Length { slot }),
        _ => Ok(Call::Close { slot }),
    }
}

fn read(row: &mut Sentence) -> Result<Call, Wrong> {
    let slot = row.number_u8()?;
    row.wants("at")?;
    let at = row.number()?;
    row.wants("n")?;
    let n = row.number()?;
    Ok(Call::ReadAt { slot, at, n })
}

fn write(row: &mut Sentence) -> Result<Call, Wrong> {
    let slot = row.number_u8()?;
    row.wants("at")?;
    let at = row.number()?;
    let bytes = blob_of(row)?;
    Ok(Call::WriteAt { slot, at, bytes })
}

fn cut(row: &mut Sentence) -> Result<Call, Wrong> {
    let slot = row.number_u8()?;
    row.wants("to")?;
    let n = row.number()?;
    Ok(Call::Cut { slot, n })
}

fn rename(row: &mut Sentence) -> Result<Call, Wrong> {
    let from = name_of(row)?;
    row.wants("to")?;
    let to = name_of(row)?;
    Ok(Call::Rename { from, to })
}

fn list(row: &mut Sentence) -> Result<Call, Wrong> {
    let root = root_of(row)?;
    let byte = row.byte()?;
    Ok(Call::ListFolder { root, byte })
}

/// A call in the words of a row.
pub fn call_text(alloc: Global, call: &Call) -> Result<String, Wrong> {
    let mut words = Words::new(alloc);
    push_call(&mut words, call)?;
    Ok(words.into_text())
}

/// A call with its word.
pub(crate) fn push_call(words: &mut Words, call: &Call) -> Result<(), Wrong> {
    words.word(kind_of_call(call).word())?;
    match call {
        Call::OpenOld { slot, name } => push_open(words, *slot, name),
        Call::OpenNew { slot, name } => push_open(words, *slot, name),
        Call::TryLock { slot } => words.number(u64::from(*slot)),
        Call::Length { slot } => words.number(u64::from(*slot)),
        Call::ReadAt { slot, at, n } => push_read(words, *slot, *at, *n),
        Call::WriteAt { slot, at, bytes } => push_write(words, *slot, *at, bytes.as_slice()),
        Call::Cut { slot, n } => push_cut(words, *slot, *n),
        Call::Rename { from, to } => push_rename(words, from, to),
        Call::Remove { name } => words.name(name),
        Call::ListFolder { root, byte } => push_list(words, *root, *byte),
        Call::Now => Ok(()),
        Call::Pause => Ok(()),
        Call::Close { slot } => words.number(u64::from(*slot)),
        Call::Tell(note) => push_note(words, note),
    }
}

fn push_open(words: &mut Words, slot: u8, name: &Name) -> Result<(), Wrong> {
    words.number(u64::from(slot))?;
    words.name(name)
}

fn push_read(words: &mut Words, slot: u8, at: u64, n: u64) -> Result<(), Wrong> {
    words.number(u64::from(slot))?;
    words.named("at", at)?;
    words.named("n", n)
}

fn push_write(words: &mut Words, slot: u8, at: u64, bytes: &[u8]) -> Result<(), Wrong> {
    words.number(u64::from(slot))?;
    words.named("at", at)?;
    words.bytes(bytes)
}

fn push_cut(words: &mut Words, slot: u8, n: u64) -> Result<(), Wrong> {
    words.number(u64::from(slot))?;
    words.named("to", n)
}

fn push_rename(words: &mut Words, from: &Name, to: &Name) -> Result<(), Wrong> {
    words.name(from)?;
    words.word("to")?;
    words.name(to)
}

fn push_list(words: &mut Words, root: u32, byte: u8) -> Result<(), Wrong> {
    words.root(root)?;
    words.digits(&[byte])
}
