ghost use Rattle.std.specs.Prelude.{◌≡◌, IfOk};
ghost use Rattle.cache_types.specs.Names.{same_name};

use crate::key::Key;
use crate::memory::NoMemory;
use crate::text::Text;

/// The name of a file of the cache, in a root by its number.
#[derive(Debug, PartialEq, Eq)]
pub enum Name {
    /// The lock file of the folder whose two digits are this byte.
    FolderLock { root: u32, byte: u8 },
    /// The entry of a key in the folder layout.
    Entry { root: u32, key: Key },
    /// The file in which an entry is written before it gets its name.
    Temp { root: u32, key: Key },
    /// The total size of a folder store's entries, and the marked keys.
    KeyIndex { root: u32 },
    /// The database's entries.
    Db { root: u32 },
    /// The database's rows.
    Idx { root: u32 },
    /// The Foz database's entries.
    Foz { root: u32 },
    /// The Foz database's rows.
    FozIdx { root: u32 },
    /// The entries of a read-only Foz database.
    Ro { root: u32, name: Text },
    /// The rows of a read-only Foz database.
    RoIdx { root: u32, name: Text },
    /// The list of read-only databases.
    List,
}

impl Drop for Name {
    fn drop(self) {
        match self {
            Name::FolderLock { root: _, byte: _ } => {}
            Name::Entry { root: _, key: _ } => {}
            Name::Temp { root: _, key: _ } => {}
            Name::KeyIndex { root: _ } => {}
            Name::Db { root: _ } => {}
            Name::Idx { root: _ } => {}
            Name::Foz { root: _ } => {}
            Name::FozIdx { root: _ } => {}
            Name::Ro {
                root: _,
                name: _name,
            } => {}
            Name::RoIdx {
                root: _,
                name: _name,
            } => {}
            Name::List => {}
        }
    }
}

impl Name {
    /// Whether two names are one.
    pub fn is(&self, other: &Name) -> bool
        ensures { result ≡ same_name self.now other.now }
    {
        self == other
    }

    /// The same name in memory of its own. Only names of read-only databases take any.
    pub fn copy(&self) -> Result<Name, NoMemory>
        ensures { IfOk result (λ n. n ≡ self.now) }
    {
        match self {
            Name::FolderLock { root, byte } => Ok(Name::FolderLock {
                root: *root,
                byte: *byte,
            }),
            Name::Entry { root, key } => Ok(Name::Entry {
                root: *root,
                key: *key,
            }),
            Name::Temp { root, key } => Ok(Name::Temp {
                root: *root,
                key: *key,
            }),
            Name::KeyIndex { root } => Ok(Name::KeyIndex { root: *root }),
            Name::Db { root } => Ok(Name::Db { root: *root }),
            Name::Idx { root } => Ok(Name::Idx { root: *root }),
            Name::Foz { root } => Ok(Name::Foz { root: *root }),
            Name::FozIdx { root } => Ok(Name::FozIdx { root: *root }),
            Name::Ro { root, name } => Ok(Name::Ro {
                root: *root,
                name: name.copy()?,
            }),
            Name::RoIdx { root, name } => Ok(Name::RoIdx {
                root: *root,
                name: name.copy()?,
            }),
            Name::List => Ok(Name::List),
        }
    }
}
