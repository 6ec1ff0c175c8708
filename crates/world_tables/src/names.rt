//! Which file each name has.

ghost use Rattle.std.specs.Prelude.{◌≡◌, ◌+◌, None, Some, OnOk, OnErr, if◌then◌else◌};
ghost use Rattle.std.specs.HashMap.{get};
ghost use Rattle.std.specs.Option.{option_or};
ghost use Rattle.cache_types.specs.Names.{same_name};
ghost use Rattle.cache_types.specs.declared.name.Name.{Name};
ghost use Rattle.cache_types.specs.declared.name.Name.TheVariants.{Ro, RoIdx};
ghost use Rattle.world_tables.specs.Find.{number_in};

use crate::find::{add_both, add_name, find_name, forget};
use crate::parts::NamedFile;
use cache_types::{Key, Name, NoMemory, Text};
use std::alloc::Global;
use std::collections::HashMap;
use std::hash::Hash;

/// What a key's file is looked up by: its root and its key.
#[derive(Clone, Copy, Debug, PartialEq, Eq, Hash)]
pub struct KeyPlace {
    pub root: u32,
    pub key: Key,
}

/// What a folder's lock file is looked up by: its root and its two digits.
#[derive(Clone, Copy, Debug, PartialEq, Eq, Hash)]
pub struct FolderPlace {
    pub root: u32,
    pub byte: u8,
}

/// The number of the file that each name has.
#[derive(Debug)]
pub struct Names {
    /// Those of entries, of which there may be many.
    pub entries: HashMap<KeyPlace, usize>,
    /// Those of entries that are being written.
    pub temps: HashMap<KeyPlace, usize>,
    /// Those of the folders' lock files, up to 256 in each root.
    pub locks: HashMap<FolderPlace, usize>,
    /// All others, which are few.
    pub others: Vec<NamedFile>,
}

impl Drop for Names {
    fn drop(self) {
        let Names {
            entries: _entries,
            temps: _temps,
            locks: _locks,
            others: _others,
        } = self;
    }
}

/// What stands at a place gets this number. A refusal changes no number.
fn put_at<P: Eq + Hash + Drop>(
    numbers: &mut HashMap<P, usize>,
    place: P,
    file: usize,
) -> Result<(), NoMemory>
    ensures ok { OnOk result ((p : P) → get P.eq numbers.new p ≡ (if P.eq place p then Some file else get P.eq numbers.old p)) }
    ensures err { OnErr result ((p : P) → get P.eq numbers.new p ≡ get P.eq numbers.old p) }
{
    numbers.insert(place, file)?;
    Ok(())
}

/// What stands at a place gets no number.
fn forget_at<P: Eq + Hash + Drop>(numbers: &mut HashMap<P, usize>, place: &P)
    ensures { (p : P) → get P.eq numbers.new p ≡ (if P.eq place.now p then None else get P.eq numbers.old p) }
{
    numbers.remove(place);
}

/// The number at a place.
fn number_at<P: Eq + Hash + Drop>(numbers: &HashMap<P, usize>, place: &P) -> Option<usize>
    ensures { result ≡ get P.eq numbers.now place.now }
{
    numbers.get(place).copied()
}

impl Names {
    /// No names. Takes no memory.
    #[tactic(auto, unfolding(crate::specs::Find::number_in))]
    pub fn new(alloc: Global) -> Names
        ensures { (n : Name) → number_in result n ≡ None }
    {
        Names {
            entries: HashMap::new(alloc),
            temps: HashMap::new(alloc),
            locks: HashMap::new(alloc),
            others: Vec::new(alloc),
        }
    }

    /// The number of the file that a name has.
    #[tactic(auto, unfolding(crate::specs::Find::number_in))]
    pub fn number_of(&self, name: &Name) -> Option<usize>
        ensures { result ≡ number_in self.now name.now }
    {
        match name {
            Name::Entry { root, key } => number_at(
                &self.entries,
                &KeyPlace {
                    root: *root,
                    key: *key,
                },
            ),
            Name::Temp { root, key } => number_at(
                &self.temps,
                &KeyPlace {
                    root: *root,
                    key: *key,
                },
            ),
            Name::FolderLock { root, byte } => number_at(
                &self.locks,
                &FolderPlace {
                    root: *root,
                    byte: *byte,
                },
            ),
            _ => find_name(&self.others, name),
        }
    }

    /// A name gets a file. A refusal changes no name.
    pub fn put(&mut self, name: Name, file: usize) -> Result<(), NoMemory>
        ensures ok { OnOk result ((n : Name) → number_in self.new n ≡ (if same_name name n then Some file else number_in self.old n)) }
        ensures err { OnErr result ((n : Name) → number_in self.new n ≡ number_in self.old n) }
    {
        match &name {
            Name::Entry { root, key } => put_at(
                &mut self.entries,
                KeyPlace {
                    root: *root,
                    key: *key,
                },
                file,
            ),
            Name::Temp { root, key } => put_at(
                &mut self.temps,
                KeyPlace {
                    root: *root,
                    key: *key,
                },
                file,
            ),
            Name::FolderLock { root, byte } => put_at(
                &mut self.locks,
                FolderPlace {
                    root: *root,
                    byte: *byte,
                },
                file,
            ),
            _ => add_name(&mut self.others, NamedFile { name, file }),
        }
    }

    /// A name gets a file where it has none. A refusal changes no name.
    pub fn put_first(&mut self, name: &Name, file: usize) -> Result<(), NoMemory>
        ensures ok { OnOk result ((n : Name) → number_in self.new n ≡ option_or (number_in self.old n) (if same_name name.now n then Some file else None)) }
        ensures err { OnErr result ((n : Name) → number_in self.new n ≡ number_in self.old n) }
    {
        match self.number_of(name) {
            None => self.put(name.copy()?, file),
            Some(_) => Ok(()),
        }
    }

    /// The names of a read-only database get the files with this number and the next. A refusal changes no
    /// name.
    pub fn install(&mut self, root: u32, name: &Text, file: usize) -> Result<(), NoMemory>
        ensures ok { OnOk result ((n : Name) → number_in self.new n ≡ (if same_name (RoIdx root name.now) n then Some (file + 1) else if same_name (Ro root name.now) n then Some file else number_in self.old n)) }
        ensures err { OnErr result ((n : Name) → number_in self.new n ≡ number_in self.old n) }
    {
        let Some(next) = file.checked_add(1) else {
            return Err(NoMemory);
        };
        let main = Name::Ro {
            root,
            name: name.copy()?,
        };
        let index = Name::RoIdx {
            root,
            name: name.copy()?,
        };
        add_both(
            &mut self.others,
            NamedFile { name: main, file },
            NamedFile {
                name: index,
                file: next,
            },
        )
    }

    /// A name has no file any more. Takes no memory.
    pub fn forget(&mut self, name: &Name)
        ensures { (n : Name) → number_in self.new n ≡ (if same_name name.now n then None else number_in self.old n) }
    {
        match name {
            Name::Entry { root, key } => forget_at(
                &mut self.entries,
                &KeyPlace {
                    root: *root,
                    key: *key,
                },
            ),
            Name::Temp { root, key } => forget_at(
                &mut self.temps,
                &KeyPlace {
                    root: *root,
                    key: *key,
                },
            ),
            Name::FolderLock { root, byte } => forget_at(
                &mut self.locks,
                &FolderPlace {
                    root: *root,
                    byte: *byte,
                },
            ),
            _ => forget(&mut self.others, name),
        }
    }
}
