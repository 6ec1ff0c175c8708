use crate::sentence::Sentence;
use crate::wrong::Wrong;
use cache_key::key_of_text;
use cache_types::{Key, Name, Text};
use std::alloc::Global;

/// Takes a key: 40 hexadecimal digits.
pub fn key_of(row: &mut Sentence) -> Result<Key, Wrong> {
    let text = row.text()?;
    match key_of_text(text.as_str()) {
        Ok(key) => Ok(key),
        Err(_) => Err(Wrong::Found(format!(in row.alloc(); "'{text}' is no key")?)),
    }
}

/// Takes `root N`, where a row has it; else the root is the first, 0.
pub fn root_of(row: &mut Sentence) -> Result<u32, Wrong> {
    if row.takes("root") {
        return row.number_u32();
    }
    Ok(0)
}

/// Takes the name of a file: `[root N] KIND ..`, as `Entry KEY`, `FolderLock a9` or `Ro TEXT`.
pub fn name_of(row: &mut Sentence) -> Result<Name, Wrong> {
    let root = root_of(row)?;
    let kind = row.text()?;
    match kind.as_str() {
        "FolderLock" => lock(row, root),
        "Entry" => entry(row, root),
        "Temp" => temp(row, root),
        "Ro" => read_only(row, root),
        "RoIdx" => read_only_index(row, root),
        kind => plain(row.alloc(), root, kind),
    }
}

fn lock(row: &mut Sentence, root: u32) -> Result<Name, Wrong> {
    let byte = row.byte()?;
    Ok(Name::FolderLock { root, byte })
}

fn entry(row: &mut Sentence, root: u32) -> Result<Name, Wrong> {
    let key = key_of(row)?;
    Ok(Name::Entry { root, key })
}

fn temp(row: &mut Sentence, root: u32) -> Result<Name, Wrong> {
    let key = key_of(row)?;
    Ok(Name::Temp { root, key })
}

fn read_only(row: &mut Sentence, root: u32) -> Result<Name, Wrong> {
    let name = Text::from_string(row.text()?);
    Ok(Name::Ro { root, name })
}

fn read_only_index(row: &mut Sentence, root: u32) -> Result<Name, Wrong> {
    let name = Text::from_string(row.text()?);
    Ok(Name::RoIdx { root, name })
}

/// The name of a file that has no more words.
fn plain(alloc: Global, root: u32, kind: &str) -> Result<Name, Wrong> {
    match kind {
        "KeyIndex" => Ok(Name::KeyIndex { root }),
        "Db" => Ok(Name::Db { root }),
        "Idx" => Ok(Name::Idx { root }),
        "Foz" => Ok(Name::Foz { root }),
        "FozIdx" => Ok(Name::FozIdx { root }),
        "List" => Ok(Name::List),
        _ => Err(Wrong::Found(format!(in alloc; "no file is named '{kind}'")?)),
    }
}
