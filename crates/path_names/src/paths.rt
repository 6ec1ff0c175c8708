ghost use Rattle.std.specs.Prelude.{◌≡◌, ◌↔◌, ◌<◌, ◌≤◌, [], length, get_or, IfOk, IsTrue};
ghost use Rattle.path_names.specs.Paths.{HasRoot, HasPath, IsPathOfOne, path_spelled};

use crate::place::{in_root, of_entry, of_lock};
use crate::ro_name::is_ro_name;
use cache_types::{Name, NoMemory, Text, TextList};
use std::alloc::Global;

/// Where a program keeps its files.
#[derive(Debug, Drop)]
pub struct Paths {
    /// The roots, by their numbers.
    pub roots: TextList,
    /// The path of the list of read-only databases, where there is one.
    pub list: Option<Text>,
}

impl Paths {
    /// The same in memory of its own.
    pub fn copy(&self, alloc: Global) -> Result<Paths, NoMemory>
        ensures { IfOk result (λ p. p ≡ self.now) }
    {
        let list = match &self.list {
            Some(list) => Some(list.copy()?),
            None => None,
        };
        Ok(Paths {
            roots: self.roots.copy(alloc)?,
            list,
        })
    }

    /// Whether there is a root of this number.
    fn has_root(&self, root: u32) -> bool
        ensures { IsTrue result ↔ HasRoot self.now root }
    {
        (root as usize) < self.roots.as_slice().len()
    }

    /// The text of a root.
    fn root(&self, root: u32) -> &str
        requires { HasRoot self.now root }
        ensures { result.now ≡ get_or self.now.roots root [] }
    {
        self.roots.as_slice()[root as usize].as_str()
    }
}

/// Whether a name has a path: its root is there, the name of a read-only database is one, and there is a
/// list where the name is the list's. Takes no memory.
pub fn has_path(paths: &Paths, name: &Name) -> bool
    ensures { IsTrue result ↔ HasPath paths.now name.now }
{
    match name {
        Name::FolderLock { root, .. } => paths.has_root(*root),
        Name::Entry { root, .. } => paths.has_root(*root),
        Name::Temp { root, .. } => paths.has_root(*root),
        Name::KeyIndex { root } => paths.has_root(*root),
        Name::Db { root } => paths.has_root(*root),
        Name::Idx { root } => paths.has_root(*root),
        Name::Foz { root } => paths.has_root(*root),
        Name::FozIdx { root } => paths.has_root(*root),
        Name::Ro { root, name } => paths.has_root(*root) && is_ro_name(name.as_str().as_bytes()),
        Name::RoIdx { root, name } => {
            paths.has_root(*root) && is_ro_name(name.as_str().as_bytes())
        }
        Name::List => paths.list.is_some(),
    }
}

/// The path of a name: its root, a slash, and its place there; of the list its own path. No other name of
/// the same root has this path.
pub fn path_of(alloc: Global, paths: &Paths, name: &Name) -> Result<Text, NoMemory>
    requires { HasPath paths.now name.now }
    ensures path { IfOk result (λ t. t ≡ path_spelled paths.now name.now) }
    ensures one { IfOk result (IsPathOfOne paths.now name.now) }
{
    spelled(alloc, paths, name)
}

/// The path of a name.
#[tactic(auto, unfolding(crate::specs::Paths::place_of))]
fn spelled(alloc: Global, paths: &Paths, name: &Name) -> Result<Text, NoMemory>
    requires { HasPath paths.now name.now }
    ensures { IfOk result (λ t. t ≡ path_spelled paths.now name.now) }
{
    match name {
        Name::FolderLock { root, byte } => of_lock(alloc, paths.root(*root), *byte),
        Name::Entry { root, key } => of_entry(alloc, paths.root(*root), key, ""),
        Name::Temp { root, key } => of_entry(alloc, paths.root(*root), key, ".tmp"),
        Name::KeyIndex { root } => in_root(alloc, paths.root(*root), "index", ""),
        Name::Db { root } => in_root(alloc, paths.root(*root), "mesa_cache", ".db"),
        Name::Idx { root } => in_root(alloc, paths.root(*root), "mesa_cache", ".idx"),
        Name::Foz { root } => in_root(alloc, paths.root(*root), "foz_cache", ".foz"),
        Name::FozIdx { root } => in_root(alloc, paths.root(*root), "foz_cache", "_idx.foz"),
        Name::Ro { root, name } => in_root(alloc, paths.root(*root), name.as_str(), ".foz"),
        Name::RoIdx { root, name } => in_root(alloc, paths.root(*root), name.as_str(), "_idx.foz"),
        Name::List => match &paths.list {
            Some(list) => list.copy(),
            None => unreachable!(),
        },
    }
}
