use crate::expect::{holds, same_text};
use crate::texts::{text, texts_up_to};
use cache_types::{Name, NoMemory, Text, TextList};
use path_names::{Paths, has_path, is_ro_name, path_of};
use row_text::{Sentence, Wrong, name_of};
use std::alloc::Global;

/// The words that end the roots of a row.
const ENDS: [&str; 2] = ["list", "is"];

/// `path NAME under ROOT.. [list PATH] is TEXT`, or `is none`
pub fn path(row: &mut Sentence) -> Result<(), Wrong> {
    let name = name_of(row)?;
    row.wants("under")?;
    let paths = paths_of(row)?;
    row.wants("is")?;
    let alloc = row.alloc();
    if row.takes("none") {
        return holds(alloc, "paths", false, has_path(&paths, &name));
    }
    let wanted = text(row)?;
    has(alloc, &paths, &name, wanted.as_str())
}

fn has(alloc: Global, paths: &Paths, name: &Name, wanted: &str) -> Result<(), Wrong> {
    if !has_path(paths, name) {
        return Err(Wrong::of(alloc, "it has no path"));
    }
    let path = path_of(alloc, paths, name)?;
    same_text(alloc, wanted, path.as_str())
}

/// Takes `ROOT.. [list PATH]`.
fn paths_of(row: &mut Sentence) -> Result<Paths, Wrong> {
    let roots = list_of(row.alloc(), texts_up_to(row, &ENDS)?)?;
    let list = match row.takes("list") {
        true => Some(Text::from_string(text(row)?)),
        false => None,
    };
    Ok(Paths { roots, list })
}

/// These texts, one after the other.
pub fn list_of(alloc: Global, texts: Vec<String>) -> Result<TextList, NoMemory> {
    let mut list = TextList::new(alloc);
    for text in texts {
        list.push(Text::from_string(text))?;
    }
    Ok(list)
}

/// `name TEXT is allowed`, or `is refused`: as that of a read-only database, whose two files then have paths
pub fn name(row: &mut Sentence) -> Result<(), Wrong> {
    let name = text(row)?;
    row.wants("is")?;
    let allowed = row.takes("allowed");
    if !allowed {
        row.wants("refused")?;
    }
    is_allowed(row.alloc(), name.as_str(), allowed)
}

fn is_allowed(alloc: Global, name: &str, allowed: bool) -> Result<(), Wrong> {
    holds(alloc, "names", allowed, is_ro_name(name.as_bytes()))?;
    let paths = one_root(alloc)?;
    let main = Name::Ro {
        root: 0,
        name: Text::of(alloc, name)?,
    };
    holds(alloc, "paths", allowed, has_path(&paths, &main))?;
    let index = Name::RoIdx {
        root: 0,
        name: Text::of(alloc, name)?,
    };
    holds(alloc, "paths of indices", allowed, has_path(&paths, &index))
}

fn one_root(alloc: Global) -> Result<Paths, NoMemory> {
    let mut roots = TextList::new(alloc);
    roots.push(Text::of(alloc, "/r")?)?;
    Ok(Paths { roots, list: None })
}
