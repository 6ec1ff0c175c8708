use crate::words::Words;
use cache_types::{Layout, Store};
use row_text::{Sentence, Wrong, root_of};

/// Takes `[root N] [layout WORD]`.
pub(crate) fn store_of(row: &mut Sentence) -> Result<Store, Wrong> {
    let root = root_of(row)?;
    let layout = layout_of(row)?;
    Ok(Store { root, layout })
}

fn layout_of(row: &mut Sentence) -> Result<Layout, Wrong> {
    if !row.takes("layout") {
        return Ok(Layout::Folder);
    }
    let word = row.text()?;
    match word.as_str() {
        "folder" => Ok(Layout::Folder),
        "database" => Ok(Layout::Database),
        "foz" => Ok(Layout::Foz),
        _ => Err(Wrong::Found(format!(in row.alloc(); "no layout is named '{word}'")?)),
    }
}

pub(crate) fn push_store(words: &mut Words, store: Store) -> Result<(), Wrong> {
    words.root(store.root)?;
    match store.layout {
        Layout::Folder => Ok(()),
        Layout::Database => words.word("layout database"),
        Layout::Foz => words.word("layout foz"),
    }
}
